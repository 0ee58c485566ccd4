//! Choices between blocks, and loops (C89, 3.6.4.1 and 3.6.5).

ghost use Rattle.std.specs.Prelude.{◌≡◌, IfOk};
ghost use Rattle.c_tree.specs.CLabels.{both, labels_of};
ghost use Rattle.c_scope.specs.ScopeSeen.{scope_of};
ghost use Rattle.c_expression_reader.specs.Readings.{shown, Gives};
ghost use Rattle.c_statement_readers.specs.StatementReader as reader;
ghost use Rattle.c_statement_reader.specs.LabelLists.{labels_seen};
ghost use Rattle.c_statement_reader.specs.Seconds.{second_block, labels_of_second};
ghost use Rattle.c_statement_reader.specs.Pieces.{repeat_test};

use crate::blocks::braced;
use crate::heads::for_head;
use crate::labels::LabelsSeen;
use crate::nodes::{choice_of, loop_of, repeat_of};
use crate::parts::tested;
use c_expression_reader::{Failure, a_sign, a_word};
use c_lexer::{CSign, CToken, PlacedCToken};
use c_scope::CScope;
use c_tree::expression::CExpr;
use c_tree::statement::CStmt;
use plain_data::Items;
use std::alloc::Global;

/// `else` and another block, where it stands, and the tokens behind it.
#[cycle(statement)]
#[tactic(auto, using(crate::proofs::LabelSums::both_labels), unfolding(c_expression_reader::specs::Readings::shown, c_lexer::specs::SeenTokens::seen, crate::specs::Seconds::second_block, crate::specs::Seconds::second_by))]
fn second_block<'a>(
    alloc: Global,
    scope: &CScope,
    labels: &mut LabelsSeen<'a>,
    tokens: &'a [PlacedCToken],
    count: usize,
    nests: usize,
) -> Result<(Option<Items<CStmt>>, &'a [PlacedCToken]), Failure<'a>>
    ensures read { Gives (λ p. (p.0, shown p.1.now)) result (second_block (reader.statement (scope_of scope.now) count nests) count (labels_seen labels.old) (shown tokens.now)) }
    ensures labels { IfOk result (λ p. labels_seen labels.new ≡ both (labels_seen labels.old) (labels_of_second p.0)) }
{
    match tokens {
        [
            PlacedCToken {
                token: CToken::Word(text),
                ..
            },
            rest @ ..,
        ] if text.as_slice() == b"else".as_slice() => {
            let (second, rest) = braced(alloc, scope, labels, rest, count, nests)?;
            Ok((Some(second), rest))
        }
        _ => Ok((None, tokens)),
    }
}

/// Behind `if`: the test in parentheses, a block, and another one behind `else`, where it stands.
#[cycle(statement)]
#[tactic(auto, using(crate::proofs::StatementSteps::second_blocks, crate::proofs::LabelSums::both_labels), unfolding(c_statement_readers::specs::StatementReader::conditional))]
pub(crate) fn conditional<'a>(
    alloc: Global,
    scope: &CScope,
    labels: &mut LabelsSeen<'a>,
    tokens: &'a [PlacedCToken],
    count: usize,
    nests: usize,
) -> Result<(CStmt, &'a [PlacedCToken]), Failure<'a>>
    ensures read { Gives (λ p. (p.0, shown p.1.now)) result (reader.conditional (scope_of scope.now) count (reader.statement (scope_of scope.now) count nests) (labels_seen labels.old) (shown tokens.now)) }
    ensures labels { IfOk result (λ p. labels_seen labels.new ≡ both (labels_seen labels.old) (labels_of p.0)) }
{
    let (test, rest) = tested(alloc, scope, tokens, count)?;
    let (first, rest) = braced(alloc, scope, labels, rest, count, nests)?;
    let (second, rest) = second_block(alloc, scope, labels, rest, count, nests)?;
    Ok((choice_of(test, first, second), rest))
}

/// Behind `for`: its head in parentheses, and a block.
#[cycle(statement)]
#[tactic(auto, unfolding(c_statement_readers::specs::StatementReader::counted))]
pub(crate) fn counted<'a>(
    alloc: Global,
    scope: &CScope,
    labels: &mut LabelsSeen<'a>,
    tokens: &'a [PlacedCToken],
    count: usize,
    nests: usize,
) -> Result<(CStmt, &'a [PlacedCToken]), Failure<'a>>
    ensures read { Gives (λ p. (p.0, shown p.1.now)) result (reader.counted (scope_of scope.now) count (reader.statement (scope_of scope.now) count nests) (labels_seen labels.old) (shown tokens.now)) }
    ensures labels { IfOk result (λ p. labels_seen labels.new ≡ both (labels_seen labels.old) (labels_of p.0)) }
{
    let (head, rest) = for_head(alloc, scope, tokens, count)?;
    let (inner, rest) = braced(alloc, scope, labels, rest, count, nests)?;
    Ok((loop_of(head, inner), rest))
}

/// Behind the block of a `do`: `while`, the test in parentheses, and the semicolon.
#[tactic(auto, unfolding(crate::specs::Pieces::repeat_test, c_lexer::specs::SeenTokens::sign_codes))]
fn repeat_test<'a>(
    alloc: Global,
    scope: &CScope,
    tokens: &'a [PlacedCToken],
    count: usize,
) -> Result<(CExpr, &'a [PlacedCToken]), Failure<'a>>
    ensures { Gives (λ p. (p.0, shown p.1.now)) result (repeat_test (scope_of scope.now) count (shown tokens.now)) }
{
    let rest = a_word(b"while", tokens)?;
    let (test, rest) = tested(alloc, scope, rest, count)?;
    let rest = a_sign(CSign::Semicolon, rest)?;
    Ok((test, rest))
}

/// Behind `do`: a block, `while`, the test in parentheses, and the semicolon.
#[cycle(statement)]
#[tactic(auto, using(crate::proofs::PieceSteps::repeats_by_pieces))]
pub(crate) fn repeated<'a>(
    alloc: Global,
    scope: &CScope,
    labels: &mut LabelsSeen<'a>,
    tokens: &'a [PlacedCToken],
    count: usize,
    nests: usize,
) -> Result<(CStmt, &'a [PlacedCToken]), Failure<'a>>
    ensures read { Gives (λ p. (p.0, shown p.1.now)) result (reader.repeated (scope_of scope.now) count (reader.statement (scope_of scope.now) count nests) (labels_seen labels.old) (shown tokens.now)) }
    ensures labels { IfOk result (λ p. labels_seen labels.new ≡ both (labels_seen labels.old) (labels_of p.0)) }
{
    let (inner, rest) = braced(alloc, scope, labels, tokens, count, nests)?;
    let (test, rest) = repeat_test(alloc, scope, rest, count)?;
    Ok((repeat_of(inner, test), rest))
}
