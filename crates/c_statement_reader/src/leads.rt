//! What begins a statement (C89, 3.6).

ghost use Rattle.std.specs.Prelude.{◌≡◌, not, is_some, option_map};
ghost use Rattle.c_lexer.specs.SeenTokens.{sign_codes};
ghost use Rattle.c_readers.specs.Readers.{lookup};
ghost use Rattle.c_readers.specs.ExpressionReader.{leading_words, word_lead};
ghost use Rattle.c_scope.specs.ScopeSeen.{scope_of};
ghost use Rattle.c_expression_reader.specs.Readings.{shown};
ghost use Rattle.c_statement_readers.specs.StatementReader as reader;
ghost use Rattle.c_statement_reader.specs.LabelLists.{labels_seen};
ghost use Rattle.c_statement_reader.specs.Leads.{seen_word, seen_sign};

use crate::labels::LabelsSeen;
use crate::signs::starts_with_colon;
use c_lexer::{CSign, PlacedCToken};
use c_scope::CScope;

/// What a word begins.
#[derive(Clone, Copy)]
pub(crate) enum StatementLead {
    /// `goto`
    Jumps,
    /// `return`
    Returns,
    /// `if`
    Tests,
    /// `switch`
    Switches,
    /// `for`
    Counts,
    /// `do`
    Repeats,
}

/// What a sign begins.
#[derive(Clone, Copy)]
pub(crate) enum SignLead {
    /// `;`, the empty statement.
    Nothing,
    /// `{`, before a block.
    Opening,
}

/// The statement that a word begins, if it begins one.
#[tactic(auto, unfolding(crate::specs::Leads::seen_word))]
pub(crate) fn statement_word(text: &[u8]) -> Option<StatementLead>
    ensures { option_map seen_word result ≡ lookup text.now reader.statement_words }
{
    if text == b"goto".as_slice() {
        Some(StatementLead::Jumps)
    } else if text == b"return".as_slice() {
        Some(StatementLead::Returns)
    } else if text == b"if".as_slice() {
        Some(StatementLead::Tests)
    } else if text == b"switch".as_slice() {
        Some(StatementLead::Switches)
    } else if text == b"for".as_slice() {
        Some(StatementLead::Counts)
    } else if text == b"do".as_slice() {
        Some(StatementLead::Repeats)
    } else {
        None
    }
}

/// The statement that a sign begins, if it begins one.
#[tactic(auto, unfolding(crate::specs::Leads::seen_sign, c_lexer::specs::SeenTokens::sign_codes))]
pub(crate) fn statement_sign(sign: CSign) -> Option<SignLead>
    ensures { option_map seen_sign result ≡ lookup (sign_codes sign) reader.statement_signs }
{
    match sign {
        CSign::Semicolon => Some(SignLead::Nothing),
        CSign::OpenBrace => Some(SignLead::Opening),
        _ => None,
    }
}

/// Whether a word of the grammar begins an operand.
fn leads_operand(text: &[u8]) -> bool
    ensures { result ≡ is_some (lookup text.now leading_words) }
{
    text == b"sizeof".as_slice()
        || text == b"max".as_slice()
        || text == b"min".as_slice()
        || text == b"abs".as_slice()
}

/// Whether an expression begins with a word.
#[tactic(auto, using(crate::proofs::WordSteps::word_steps))]
fn begins_expression(scope: &CScope, text: &[u8]) -> bool
    ensures { result ≡ not (reader.is_no_lead (word_lead (scope_of scope.now) text.now)) }
{
    leads_operand(text) || scope.is_known(text)
}

/// Whether a word with these tokens behind it is a label: one may stand here, and a colon stands behind it or no expression begins with it
/// (C89, 3.6.1).
pub(crate) fn is_label(
    scope: &CScope,
    labels: &LabelsSeen,
    text: &[u8],
    tokens: &[PlacedCToken],
) -> bool
    ensures { result ≡ reader.is_label (scope_of scope.now) (labels_seen labels.now) text.now (shown tokens.now) }
{
    labels.may_stand(text) && (starts_with_colon(tokens) || !begins_expression(scope, text))
}
