//! Statements up to a brace (C89, 3.6.2).

ghost use Rattle.std.specs.Prelude.{◌≡◌, [], IfOk};
ghost use Rattle.c_tree.specs.CLabels.{both, labels_of_all};
ghost use Rattle.c_scope.specs.ScopeSeen.{scope_of};
ghost use Rattle.c_expression_reader.specs.Readings.{shown, Gives};
ghost use Rattle.c_statement_readers.specs.StatementReader as reader;
ghost use Rattle.c_statement_reader.specs.Endings.{ending, closes_by};
ghost use Rattle.c_statement_reader.specs.LabelLists.{labels_seen};

use crate::labels::LabelsSeen;
use crate::signs::is_closing_brace;
use crate::statements::read_statement;
use c_expression_reader::{Failure, a_sign};
use c_lexer::{CSign, CToken, PlacedCToken};
use c_scope::CScope;
use c_tree::statement::CStmt;
use plain_data::Items;
use std::alloc::Global;

/// Whether the labels pass the test at the brace: that of a whole function, or of a block within one.
fn may_close(labels: &LabelsSeen, whole: bool) -> bool
    ensures { result ≡ closes_by whole (labels_seen labels.now) }
{
    !whole || labels.do_meet()
}

/// Whether the statements end, with the tokens behind the brace, or another one begins.
#[tactic(auto, unfolding(c_expression_reader::specs::Readings::shown, c_lexer::specs::SeenTokens::seen, crate::specs::Endings::ending, crate::specs::Endings::ending_by))]
fn ending<'a>(
    labels: &LabelsSeen,
    whole: bool,
    tokens: &'a [PlacedCToken],
) -> Result<(bool, &'a [PlacedCToken]), Failure<'a>>
    ensures { Gives (λ p. (p.0, shown p.1.now)) result (ending (closes_by whole) (labels_seen labels.now) (shown tokens.now)) }
{
    match tokens {
        [
            PlacedCToken {
                token: CToken::Sign(sign),
                ..
            },
            rest @ ..,
        ] if is_closing_brace(*sign) => {
            if may_close(labels, whole) {
                Ok((true, rest))
            } else {
                Err(Failure::NotC(tokens))
            }
        }
        _ => Ok((false, tokens)),
    }
}

/// Statements up to the closing brace, and the tokens behind it: so many at most. At the brace of a whole function each label that is named
/// stands once.
#[cycle(statement)]
#[tactic(auto, using(crate::proofs::StatementSteps::statement_steps, crate::proofs::LabelSums::both_labels))]
fn some_statements<'a>(
    alloc: Global,
    scope: &CScope,
    labels: &mut LabelsSeen<'a>,
    whole: bool,
    tokens: &'a [PlacedCToken],
    count: usize,
    nests: usize,
) -> Result<(Items<CStmt>, &'a [PlacedCToken]), Failure<'a>>
    ensures read { Gives (λ p. (p.0, shown p.1.now)) result (reader.statements (reader.statement (scope_of scope.now) count nests) (closes_by whole) count (labels_seen labels.old) [] (shown tokens.now)) }
    ensures labels { IfOk result (λ p. labels_seen labels.new ≡ both (labels_seen labels.old) (labels_of_all p.0)) }
{
    let mut found = Items::new(alloc);
    let mut rest = tokens;
    let mut left = count;
    while left > 0 {
        left -= 1;
        let (ends, behind) = ending(labels, whole, rest)?;
        if ends {
            return Ok((found, behind));
        }
        let (one, behind) = read_statement(alloc, scope, labels, behind, count, nests)?;
        found.push(one)?;
        rest = behind;
    }
    Err(Failure::Memory)
}

/// The statements of a block behind its opening brace, up to the closing one, and the tokens behind that. At most so many statements and cases
/// stand in one list, and at most so many statements are open at once.
///
/// # Errors
///
/// The tokens from the first one on with which nothing goes on, or want of memory.
#[cycle(statement)]
#[tactic(auto, unfolding(c_statement_readers::specs::StatementReader::block))]
pub fn read_statements<'a>(
    alloc: Global,
    scope: &CScope,
    labels: &mut LabelsSeen<'a>,
    tokens: &'a [PlacedCToken],
    count: usize,
    nests: usize,
) -> Result<(Items<CStmt>, &'a [PlacedCToken]), Failure<'a>>
    ensures read { Gives (λ p. (p.0, shown p.1.now)) result (reader.block (reader.statement (scope_of scope.now) count nests) count (labels_seen labels.old) (shown tokens.now)) }
    ensures labels { IfOk result (λ p. labels_seen labels.new ≡ both (labels_seen labels.old) (labels_of_all p.0)) }
{
    some_statements(alloc, scope, labels, false, tokens, count, nests)
}

/// A block with its braces, and the tokens behind it.
#[cycle(statement)]
#[tactic(auto, unfolding(c_statement_readers::specs::StatementReader::braced, c_lexer::specs::SeenTokens::sign_codes))]
pub(crate) fn braced<'a>(
    alloc: Global,
    scope: &CScope,
    labels: &mut LabelsSeen<'a>,
    tokens: &'a [PlacedCToken],
    count: usize,
    nests: usize,
) -> Result<(Items<CStmt>, &'a [PlacedCToken]), Failure<'a>>
    ensures read { Gives (λ p. (p.0, shown p.1.now)) result (reader.braced (reader.statement (scope_of scope.now) count nests) count (labels_seen labels.old) (shown tokens.now)) }
    ensures labels { IfOk result (λ p. labels_seen labels.new ≡ both (labels_seen labels.old) (labels_of_all p.0)) }
{
    let rest = a_sign(CSign::OpenBrace, tokens)?;
    read_statements(alloc, scope, labels, rest, count, nests)
}

/// The statements of a function behind its declarations, up to its closing brace, and the tokens behind that: each label that is named stands
/// once (C89, 3.1.2.1 and 3.7.1).
///
/// # Errors
///
/// The tokens from the first one on with which nothing goes on, or want of memory.
#[tactic(auto, unfolding(c_statement_readers::specs::StatementReader::body))]
pub fn read_body<'a>(
    alloc: Global,
    scope: &CScope,
    tokens: &'a [PlacedCToken],
    count: usize,
    nests: usize,
) -> Result<(Items<CStmt>, &'a [PlacedCToken]), Failure<'a>>
    ensures { Gives (λ p. (p.0, shown p.1.now)) result (reader.body (scope_of scope.now) count nests (shown tokens.now)) }
{
    let mut labels = LabelsSeen::new(alloc);
    some_statements(alloc, scope, &mut labels, true, tokens, count, nests)
}
