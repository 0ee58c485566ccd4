//! The rows of the table of refusals that statements are found to break: where a row stands, and which of several comes first.
#![tactic(auto)]

ghost use Rattle.std.specs.Prelude.{◌≡◌, ◌++◌, ◌∷◌, [], Some, OnOk, if◌then◌else◌};
ghost use Rattle.declaration_rows.specs.Verdicts.{first_of};
ghost use Rattle.f_tree.specs.Attributes.{option_list};
ghost use Rattle.declaration_rows.specs.Judgement.{unless};
ghost use Rattle.declaration_rows.specs.NameRows.{stood};

use f_tree::{Kind, Refusal, Stmt};
use refusal_order::earlier_of;
use std::alloc::AllocError;

/// The first of the refusals that were found, by file, then card, then number; none where nothing was found.
#[tactic(auto, unfolding(declaration_rows::specs::Verdicts::first_of, refusal_order::specs::Earliest::earliest), using(crate::proofs::FirstLemmas::first_of_more, crate::proofs::FirstLemmas::first_of_none))]
pub fn first_of(found: &[Refusal]) -> Option<Refusal>
    ensures { result ≡ first_of found.now }
{
    let mut first = None;
    for behind in 0..found.len() {
        let refusal = found[found.len() - 1 - behind];
        first = earlier_of(Some(refusal), first);
    }
    first
}

/// Adds a row that a statement breaks.
#[tactic(auto, unfolding(declaration_rows::specs::NameRows::stood))]
pub fn add_row(found: &mut Vec<Refusal>, statement: &Stmt, kind: Kind) -> Result<(), AllocError>
    ensures { OnOk result (found.new.items ≡ found.old.items ++ stood statement.now (kind ∷ [])) }
{
    found.push(Refusal {
        file: statement.file,
        card: statement.card,
        kind,
    })?;
    Ok(())
}

/// Adds a row that a statement breaks unless a condition holds.
#[tactic(auto, unfolding(declaration_rows::specs::NameRows::stood, declaration_rows::specs::Judgement::unless))]
pub fn add_unless(
    found: &mut Vec<Refusal>,
    statement: &Stmt,
    holds: bool,
    kind: Kind,
) -> Result<(), AllocError>
    ensures { OnOk result (found.new.items ≡ found.old.items ++ stood statement.now (unless holds kind)) }
{
    if holds {
        return Ok(());
    }
    add_row(found, statement, kind)
}

/// Adds a row that a statement may break.
#[tactic(auto, unfolding(declaration_rows::specs::NameRows::stood, f_tree::specs::Attributes::option_list))]
pub fn add_option(
    found: &mut Vec<Refusal>,
    statement: &Stmt,
    kind: Option<Kind>,
) -> Result<(), AllocError>
    ensures { OnOk result (found.new.items ≡ found.old.items ++ stood statement.now (option_list kind)) }
{
    match kind {
        Some(kind) => add_row(found, statement, kind),
        None => Ok(()),
    }
}

/// A row unless a condition holds.
#[tactic(auto, unfolding(declaration_rows::specs::Judgement::unless, f_tree::specs::Attributes::option_list))]
pub fn unless(holds: bool, kind: Kind) -> Option<Kind>
    ensures { option_list result ≡ unless holds kind }
{
    if holds { None } else { Some(kind) }
}
