//! All declarations at the head of a function (C89, 3.5).

ghost use Rattle.std.specs.Prelude.{◌≡◌, ◌∷◌, [], false, IfOk, OnOk};
ghost use Rattle.c_tree.specs.CWords.{is_among};
ghost use Rattle.c_tree.specs.CDeclarationText.{with_declared};
ghost use Rattle.c_readers.specs.HeadReader as reader;
ghost use Rattle.c_readers.specs.DeclarationReader.{is_new, local_by};
ghost use Rattle.c_scope.specs.ScopeSeen.{scope_of, here_of, file_scope_of, file_here_of};
ghost use Rattle.c_expression_reader.specs.Readings.{shown, Gives};
ghost use Rattle.c_declaration_reader.specs.Endings.{seen_local_lead};
ghost use Rattle.c_declaration_reader.specs.HeadParts.{declared_in};

use crate::leads::{LocalLead, local_lead};
use crate::locals::new_local;
use crate::nodes::{Declared, local_class};
use c_expression_reader::Failure;
use c_lexer::PlacedCToken;
use c_scope::CScope;
use c_tree::declaration::CLocal;
use plain_data::Items;
use std::alloc::{AllocError, Global};

/// Declares a name in the scope.
#[tactic(auto, using(crate::proofs::ScopeSteps::scope_steps))]
fn declared<'a>(scope: &mut CScope<'a>, local: CLocal, name: &'a [u8]) -> Result<CLocal, AllocError>
    requires { is_among name.now (here_of scope.old) ≡ false }
    ensures made { IfOk result (λ made. made ≡ local) }
    ensures scope { OnOk result (scope_of scope.new ≡ with_declared local name.now (scope_of scope.old)) }
    ensures here { OnOk result (here_of scope.new ≡ name.now ∷ here_of scope.old) }
    ensures file_scope { OnOk result (file_scope_of scope.new ≡ file_scope_of scope.old) }
    ensures file_here { OnOk result (file_here_of scope.new ≡ file_here_of scope.old) }
{
    scope.declare(name, local_class(&local))?;
    Ok(local)
}

/// The declaration behind a word that begins one, which is declared in the scope, and the tokens behind it.
#[tactic(auto, unfolding(crate::specs::HeadParts::declared_in))]
fn a_local<'a>(
    alloc: Global,
    scope: &mut CScope<'a>,
    lead: LocalLead,
    tokens: &'a [PlacedCToken],
    most: usize,
) -> Result<(CLocal, &'a [PlacedCToken]), Failure<'a>>
    ensures read { Gives (λ p. ((p.0, scope_of scope.new, here_of scope.new), shown p.1.now)) result (declared_in (scope_of scope.old) (here_of scope.old) (local_by (scope_of scope.old) (is_new (here_of scope.old)) most (shown tokens.now) (seen_local_lead lead))) }
    ensures file_scope { OnOk result (file_scope_of scope.new ≡ file_scope_of scope.old) }
    ensures file_here { OnOk result (file_here_of scope.new ≡ file_here_of scope.old) }
{
    let (one, rest) = new_local(alloc, scope, lead, tokens, most)?;
    let Declared { local, name } = one;
    Ok((declared(scope, local, name)?, rest))
}

/// The declarations of a function, and the tokens behind them: so many, and so many types of arguments in one, at most. They are declared in the
/// scope, behind the parameters.
///
/// # Errors
///
/// The tokens from the first one on with which nothing goes on, or want of memory. Some names may be declared then.
#[tactic(auto, using(crate::proofs::HeadSteps::local_steps))]
pub fn read_locals<'a>(
    alloc: Global,
    scope: &mut CScope<'a>,
    tokens: &'a [PlacedCToken],
    most: usize,
    count: usize,
) -> Result<(Items<CLocal>, &'a [PlacedCToken]), Failure<'a>>
    ensures read { Gives (λ p. ((p.0, scope_of scope.new), shown p.1.now)) result (reader.locals most count (scope_of scope.old) (here_of scope.old) [] (shown tokens.now)) }
    ensures file_scope { OnOk result (file_scope_of scope.new ≡ file_scope_of scope.old) }
    ensures file_here { OnOk result (file_here_of scope.new ≡ file_here_of scope.old) }
{
    let mut found = Items::new(alloc);
    let mut rest = tokens;
    let mut left = count;
    while left > 0 {
        left -= 1;
        let Some((lead, behind)) = local_lead(rest) else {
            return Ok((found, rest));
        };
        let (one, behind) = a_local(alloc, scope, lead, behind, most)?;
        found.push(one)?;
        rest = behind;
    }
    Err(Failure::Memory)
}
