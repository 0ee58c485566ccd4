//! Expressions and calls, of which no more constructs are open at once than the machine's stack holds readers of.

ghost use Rattle.std.specs.Prelude.{◌≤◌};
ghost use Rattle.c_readers.specs.CallReader.{call};
ghost use Rattle.c_readers.specs.ExpressionReader.{expression};
ghost use Rattle.c_scope.specs.ScopeSeen.{scope_of};
ghost use Rattle.c_expression_reader.specs.Readings.{shown, Gives};

use c_expression_reader::{Failure, read_call, read_expression};
use c_lexer::PlacedCToken;
use c_scope::CScope;
use c_tree::expression::{CCall, CExpr};
use std::alloc::Global;

/// How many constructs of an expression may be open at once at most, operators one behind another among them, so that the machine's stack holds their
/// readers beside those of statements, and at least as many as the C text of a FORTRAN statement, which has 1,320 characters at most, can have.
const MOST_OPEN: usize = 1024;

/// How many constructs of an expression may be open at once, where so many may be in the text.
fn most_open(count: usize) -> usize
    ensures { result ≤ count }
{
    if count < MOST_OPEN { count } else { MOST_OPEN }
}

/// An expression at a place, and the tokens behind it: more constructs open at once than the stack holds are want of memory.
#[tactic(auto, using(crate::proofs::WithinSteps::expression_lasts))]
pub(crate) fn expression_within<'a>(
    alloc: Global,
    scope: &CScope,
    tokens: &'a [PlacedCToken],
    place: u8,
    count: usize,
) -> Result<(CExpr, &'a [PlacedCToken]), Failure<'a>>
    requires { place ≤ 9 }
    ensures { Gives (λ p. (p.0, shown p.1.now)) result (expression (scope_of scope.now) count place (shown tokens.now)) }
{
    read_expression(alloc, scope, tokens, place, most_open(count))
}

/// A call, and the tokens behind it: so many arguments at most, and more constructs of one open at once than the stack holds are want of memory.
#[tactic(auto, using(crate::proofs::WithinSteps::call_lasts))]
pub(crate) fn call_within<'a>(
    alloc: Global,
    scope: &CScope,
    tokens: &'a [PlacedCToken],
    count: usize,
) -> Result<(CCall, &'a [PlacedCToken]), Failure<'a>>
    ensures { Gives (λ p. (p.0, shown p.1.now)) result (call (scope_of scope.now) count count (shown tokens.now)) }
{
    read_call(alloc, scope, tokens, most_open(count), count)
}
