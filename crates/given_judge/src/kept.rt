//! What is given to names, each behind what is kept of those before.
#![tactic(auto)]

ghost use Rattle.std.specs.Prelude.{◌≡◌, ◌∷◌, [], IfOk};
ghost use Rattle.declaration_rows.specs.GivenRows as rows;
ghost use Rattle.given_judge.specs.GiftsSeen.{given_of, givens_in, bars, bars_at};
ghost use Rattle.given_judge.specs.KeptSeen.{IsKept, Keeps};

use crate::conditions::both;
use crate::gifts::Barred;
use crate::givens::GivenName;
use name_table::NameTable;
use std::alloc::AllocError;

/// What a name is barred, given what has been noted of it.
#[tactic(auto, unfolding(crate::specs::GiftsSeen::bars_at))]
fn noted(before: Option<Barred>) -> Barred
    ensures { (g : rows.Gift) → bars result g ≡ bars_at before g }
{
    match before {
        Some(barred) => barred,
        None => Barred::nothing(),
    }
}

/// Keeps what is given to a name unless it conflicts with what is kept, and says whether it is kept.
fn keep<'a>(kept: &mut NameTable<'a, Barred>, one: GivenName<'a>) -> Result<bool, AllocError>
    ensures { IfOk result (λ sound. Keeps kept.old kept.new (given_of one.entry ∷ []) sound) }
{
    let barred = noted(kept.get(one.name));
    if barred.bars(one.gift) {
        return Ok(false);
    }
    kept.put(one.name, barred.also(one.gift))?;
    Ok(true)
}

/// Keeps what is given to names, each behind what is kept of those before, and says whether all are kept.
pub(crate) fn keep_all<'a>(
    kept: &mut NameTable<'a, Barred>,
    givens: &[GivenName<'a>],
) -> Result<bool, AllocError>
    ensures { IfOk result (λ sound. Keeps kept.old kept.new (givens_in givens.now) sound) }
{
    let mut sound = true;
    for one in givens {
        let is_kept = keep(kept, *one)?;
        sound = both(is_kept, sound);
    }
    Ok(sound)
}
