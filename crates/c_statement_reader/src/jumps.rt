//! Statements that go to labels (C89, 3.6.4.2 and 3.6.6.1).

ghost use Rattle.std.specs.Prelude.{◌≡◌, IfOk};
ghost use Rattle.c_tree.specs.CLabels.{both, labels_of};
ghost use Rattle.c_scope.specs.ScopeSeen.{scope_of};
ghost use Rattle.c_expression_reader.specs.Readings.{shown, Gives};
ghost use Rattle.c_statement_readers.specs.StatementReader as reader;
ghost use Rattle.c_statement_reader.specs.LabelLists.{labels_seen};

use crate::cases::{a_label, read_cases};
use crate::labels::LabelsSeen;
use crate::nodes::{jump_to, switch_of};
use crate::parts::tested;
use c_expression_reader::{Failure, a_sign};
use c_lexer::{CSign, PlacedCToken};
use c_scope::CScope;
use c_tree::statement::CStmt;
use std::alloc::Global;

/// Behind `goto`: the label, and the semicolon.
#[tactic(auto, unfolding(c_statement_readers::specs::StatementReader::jump, c_lexer::specs::SeenTokens::sign_codes))]
pub(crate) fn jump<'a>(
    alloc: Global,
    labels: &mut LabelsSeen<'a>,
    tokens: &'a [PlacedCToken],
) -> Result<(CStmt, &'a [PlacedCToken]), Failure<'a>>
    ensures read { Gives (λ p. (p.0, shown p.1.now)) result (reader.jump (labels_seen labels.old).stand (shown tokens.now)) }
    ensures labels { IfOk result (λ p. labels_seen labels.new ≡ both (labels_seen labels.old) (labels_of p.0)) }
{
    let (label, rest) = a_label(labels, tokens)?;
    let rest = a_sign(CSign::Semicolon, rest)?;
    labels.name(label)?;
    Ok((jump_to(alloc, label)?, rest))
}

/// Behind `switch`: the value in parentheses, and the cases in braces.
#[tactic(auto, unfolding(c_statement_readers::specs::StatementReader::switched, c_lexer::specs::SeenTokens::sign_codes))]
pub(crate) fn switched<'a>(
    alloc: Global,
    scope: &CScope,
    labels: &mut LabelsSeen<'a>,
    tokens: &'a [PlacedCToken],
    count: usize,
) -> Result<(CStmt, &'a [PlacedCToken]), Failure<'a>>
    ensures read { Gives (λ p. (p.0, shown p.1.now)) result (reader.switched (scope_of scope.now) count (labels_seen labels.old) (shown tokens.now)) }
    ensures labels { IfOk result (λ p. labels_seen labels.new ≡ both (labels_seen labels.old) (labels_of p.0)) }
{
    let (value, rest) = tested(alloc, scope, tokens, count)?;
    let rest = a_sign(CSign::OpenBrace, rest)?;
    let (cases, rest) = read_cases(alloc, labels, rest, count)?;
    Ok((switch_of(value, cases), rest))
}
