//! Statements (C89, 3.6).

ghost use Rattle.std.specs.Prelude.{◌≡◌, [], IfOk, Some};
ghost use Rattle.c_tree.specs.CLabels.{both, labels_of};
ghost use Rattle.c_scope.specs.ScopeSeen.{scope_of};
ghost use Rattle.c_expression_reader.specs.Readings.{shown, Gives};
ghost use Rattle.c_statement_readers.specs.StatementReader as reader;
ghost use Rattle.c_statement_reader.specs.LabelLists.{labels_seen};
ghost use Rattle.c_statement_reader.specs.Leads.{seen_word};

use crate::blocks::read_statements;
use crate::flows::{conditional, counted, repeated};
use crate::jumps::{jump, switched};
use crate::labels::LabelsSeen;
use crate::leads::{SignLead, StatementLead, is_label, statement_sign, statement_word};
use crate::nodes::{block_of, nothing, with_label};
use crate::simple::{returned, simple};
use c_expression_reader::{Failure, a_sign};
use c_lexer::{CSign, CToken, PlacedCToken};
use c_scope::CScope;
use c_tree::statement::CStmt;
use std::alloc::Global;

/// A statement, and the tokens behind it, given the labels that stand and are named before it in the function; those of the statement come to
/// them. At most so many statements and cases stand in one list, and so many constructs of an expression are open at once, and so many statements.
///
/// # Errors
///
/// The tokens from the first one on with which nothing goes on, or want of memory.
#[cycle(statement)]
#[tactic(auto, using(crate::proofs::StatementSteps::statement_steps))]
pub fn read_statement<'a>(
    alloc: Global,
    scope: &CScope,
    labels: &mut LabelsSeen<'a>,
    tokens: &'a [PlacedCToken],
    count: usize,
    nests: usize,
) -> Result<(CStmt, &'a [PlacedCToken]), Failure<'a>>
    ensures read { Gives (λ p. (p.0, shown p.1.now)) result (reader.statement (scope_of scope.now) count nests (labels_seen labels.old) (shown tokens.now)) }
    ensures labels { IfOk result (λ p. labels_seen labels.new ≡ both (labels_seen labels.old) (labels_of p.0)) }
{
    if nests == 0 {
        return Err(Failure::Memory);
    }
    a_statement(alloc, scope, labels, tokens, count, nests - 1)
}

/// A statement by the token that stands first.
#[cycle(statement)]
#[tactic(auto, using(crate::proofs::LabelSums::both_labels), unfolding(c_expression_reader::specs::Readings::shown, c_lexer::specs::SeenTokens::seen, crate::specs::Leads::seen_sign, c_statement_readers::specs::StatementReader::a_statement, c_statement_readers::specs::StatementReader::by_word, c_statement_readers::specs::StatementReader::by_label, c_statement_readers::specs::StatementReader::by_sign))]
fn a_statement<'a>(
    alloc: Global,
    scope: &CScope,
    labels: &mut LabelsSeen<'a>,
    tokens: &'a [PlacedCToken],
    count: usize,
    nests: usize,
) -> Result<(CStmt, &'a [PlacedCToken]), Failure<'a>>
    ensures read { Gives (λ p. (p.0, shown p.1.now)) result (reader.a_statement (scope_of scope.now) count (reader.statement (scope_of scope.now) count nests) (labels_seen labels.old) (shown tokens.now)) }
    ensures labels { IfOk result (λ p. labels_seen labels.new ≡ both (labels_seen labels.old) (labels_of p.0)) }
{
    match tokens {
        [
            PlacedCToken {
                token: CToken::Word(text),
                ..
            },
            rest @ ..,
        ] => match statement_word(text.as_slice()) {
            Some(lead) => led(alloc, scope, labels, lead, rest, count, nests),
            None => {
                if is_label(scope, labels, text.as_slice(), rest) {
                    labelled(alloc, scope, labels, text.as_slice(), rest, count, nests)
                } else {
                    simple(alloc, scope, tokens, count)
                }
            }
        },
        [
            PlacedCToken {
                token: CToken::Sign(sign),
                ..
            },
            rest @ ..,
        ] => match statement_sign(*sign) {
            Some(SignLead::Nothing) => Ok((nothing(), rest)),
            Some(SignLead::Opening) => a_block(alloc, scope, labels, rest, count, nests),
            None => simple(alloc, scope, tokens, count),
        },
        _ => simple(alloc, scope, tokens, count),
    }
}

/// Behind the word that begins a statement.
#[cycle(statement)]
#[tactic(auto, using(crate::proofs::LabelSums::both_labels), unfolding(crate::specs::Leads::seen_word, c_statement_readers::specs::StatementReader::led))]
fn led<'a>(
    alloc: Global,
    scope: &CScope,
    labels: &mut LabelsSeen<'a>,
    lead: StatementLead,
    tokens: &'a [PlacedCToken],
    count: usize,
    nests: usize,
) -> Result<(CStmt, &'a [PlacedCToken]), Failure<'a>>
    ensures read { Gives (λ p. (p.0, shown p.1.now)) result (reader.led (scope_of scope.now) count (reader.statement (scope_of scope.now) count nests) (labels_seen labels.old) (shown tokens.now) (seen_word lead)) }
    ensures labels { IfOk result (λ p. labels_seen labels.new ≡ both (labels_seen labels.old) (labels_of p.0)) }
{
    match lead {
        StatementLead::Jumps => jump(alloc, labels, tokens),
        StatementLead::Returns => returned(alloc, scope, tokens, count),
        StatementLead::Tests => conditional(alloc, scope, labels, tokens, count, nests),
        StatementLead::Switches => switched(alloc, scope, labels, tokens, count),
        StatementLead::Counts => counted(alloc, scope, labels, tokens, count, nests),
        StatementLead::Repeats => repeated(alloc, scope, labels, tokens, count, nests),
    }
}

/// Behind a label: the colon, and the statement that it stands before (C89, 3.6.1).
#[cycle(statement)]
#[tactic(auto, using(crate::proofs::LabelSums::both_labels), unfolding(c_statement_readers::specs::StatementReader::labelled, c_lexer::specs::SeenTokens::sign_codes))]
fn labelled<'a>(
    alloc: Global,
    scope: &CScope,
    labels: &mut LabelsSeen<'a>,
    label: &'a [u8],
    tokens: &'a [PlacedCToken],
    count: usize,
    nests: usize,
) -> Result<(CStmt, &'a [PlacedCToken]), Failure<'a>>
    ensures read { Gives (λ p. (p.0, shown p.1.now)) result (reader.labelled (reader.statement (scope_of scope.now) count nests) (labels_seen labels.old) label.now (shown tokens.now)) }
    ensures labels { IfOk result (λ p. labels_seen labels.new ≡ both (labels_seen labels.old) (labels_of p.0)) }
{
    let rest = a_sign(CSign::Colon, tokens)?;
    labels.stand(label)?;
    let (inner, rest) = read_statement(alloc, scope, labels, rest, count, nests)?;
    Ok((with_label(alloc, label, inner)?, rest))
}

/// Behind an opening brace: the statements of the block, and the closing brace (C89, 3.6.2).
#[cycle(statement)]
#[tactic(auto, unfolding(c_statement_readers::specs::StatementReader::by_sign))]
fn a_block<'a>(
    alloc: Global,
    scope: &CScope,
    labels: &mut LabelsSeen<'a>,
    tokens: &'a [PlacedCToken],
    count: usize,
    nests: usize,
) -> Result<(CStmt, &'a [PlacedCToken]), Failure<'a>>
    ensures read { Gives (λ p. (p.0, shown p.1.now)) result (reader.by_sign (scope_of scope.now) count (reader.statement (scope_of scope.now) count nests) (labels_seen labels.old) [] (shown tokens.now) (Some reader.Opening)) }
    ensures labels { IfOk result (λ p. labels_seen labels.new ≡ both (labels_seen labels.old) (labels_of p.0)) }
{
    let (inner, rest) = read_statements(alloc, scope, labels, tokens, count, nests)?;
    Ok((block_of(inner), rest))
}
