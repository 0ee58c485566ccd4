//! A statement: the word that begins it says which form is read, up to the last piece. Sections 7 to 16 of the standard, ANSI X3.9-1978.

ghost use Rattle.std.specs.Prelude.{◌≡◌, ◌∷◌, Ok, Err};
ghost use Rattle.stmt_lex.specs.declared.token.Token.TheVariants as token;
ghost use Rattle.f_tree.specs.declared.statements.Body as body;
ghost use Rattle.fortran_grammar.specs.Forms as forms;
ghost use Rattle.fortran_grammar.specs.StatementSpelling.{SpellsBody};
ghost use Rattle.grammar_laws.specs.DeclarationReading as declarations;
ghost use Rattle.grammar_laws.specs.StatementReader as reader;
ghost use Rattle.grammar_laws.specs.StatementReading as reading;
ghost use Rattle.stmt_lex.specs.SeenTokens.{seen};
ghost use Rattle.expression_parse.specs.Readings.{Gives, IsExact};
ghost use Rattle.stmt_parse.specs.StatementSteps as step;

use action_parse::{
    arithmetic_if_statement, assign_statement, assignment_statement, call_statement, do_statement,
    do_while_statement, else_if_statement, entry_statement, format_statement, goto_statement,
    include_statement, return_statement, sign_labels, stop_statement, test,
};
use control_parse::{
    backspace_statement, close_statement, endfile_statement, open_statement, print_statement,
    read_statement, rewind_statement, write_statement,
};
use declaration_parse::{
    block_data_statement, common_statement, dimension_statement, equivalence_statement,
    external_statement, function_statement, implicit_statement, intrinsic_statement,
    parameter_statement, program_statement, save_statement, subroutine_statement, type_statement,
};
use expression_parse::{Failure, Wanted, taken};
use f_tree::{Body, Expr};
use fortran_lexemes::StmtKind;
use fortran_text::Character;
use list_parse::data_statement;
use plain_data::Boxed;
use std::alloc::Global;
use stmt_lex::Token;

/// The statement that the tokens spell, all of them. Sections 7 to 16.
///
/// # Errors
///
/// A fault of syntax where they spell none, or want of memory.
#[tactic(auto, using(crate::proofs::StatementLemmas::whole_statement_exact))]
pub fn parse_statement(alloc: Global, text: &[Character], tokens: &[Token]) -> Result<Body, Failure>
    ensures { IsExact (λ found. SpellsBody (seen text.now tokens.now) found) result }
{
    whole_statement(alloc, text, tokens)
}

/// The statement that the tokens spell, if they spell one.
#[tactic(auto, unfolding(grammar_laws::specs::StatementReader::read_statement, stmt_lex::specs::SeenTokens::seen, stmt_lex::specs::SeenTokens::lexeme_of))]
fn whole_statement(alloc: Global, text: &[Character], tokens: &[Token]) -> Result<Body, Failure>
    ensures { Gives (λ found. found) result (reader.read_statement (seen text.now tokens.now)) }
{
    match tokens {
        [Token::Word(kind), rest @ ..] => begun(alloc, text, *kind, tokens, rest),
        _ => whole_assignment(alloc, text, tokens),
    }
}

/// The statement that a word begins: the tokens with the word, and those behind it.
fn begun(
    alloc: Global,
    text: &[Character],
    kind: StmtKind,
    tokens: &[Token],
    rest: &[Token],
) -> Result<Body, Failure>
    requires { tokens.now ≡ token.Word kind ∷ rest.now }
    ensures { Gives (λ found. found) result (reader.read_statement (seen text.now tokens.now)) }
{
    worded(alloc, text, kind, tokens, rest)
}

/// The statement that a word begins, by the word.
#[tactic(auto, unfolding(crate::specs::StatementSteps::worded))]
fn worded(
    alloc: Global,
    text: &[Character],
    kind: StmtKind,
    tokens: &[Token],
    rest: &[Token],
) -> Result<Body, Failure>
    ensures { Gives (λ found. found) result (step.worded kind (seen text.now tokens.now) (seen text.now rest.now)) }
{
    match kind {
        StmtKind::If => conditional(alloc, text, rest),
        StmtKind::Integer => whole_type(alloc, text, tokens),
        StmtKind::Logical => whole_type(alloc, text, tokens),
        StmtKind::Character => whole_type(alloc, text, tokens),
        _ => whole_form(alloc, text, kind, rest),
    }
}

/// What was read, where no tokens are left.
#[tactic(auto, using(crate::proofs::StatementLemmas::statement_ends))]
fn ended<T: Drop>(text: &[Character], found: T, rest: &[Token]) -> Result<T, Failure>
    ensures { Gives (λ found. found) result (reader.ended found (seen text.now rest.now)) }
{
    match rest {
        [] => Ok(found),
        _ => Err(Failure::Syntax),
    }
}

/// An assignment, up to the last token.
#[tactic(auto, unfolding(grammar_laws::specs::StatementReader::whole, grammar_laws::specs::FormReading::going_on))]
fn whole_assignment(alloc: Global, text: &[Character], tokens: &[Token]) -> Result<Body, Failure>
    ensures { Gives (λ found. found) result (reader.whole reading.assignment_form (seen text.now tokens.now)) }
{
    let (found, rest) = assignment_statement(alloc, text, tokens)?;
    ended(text, found, rest)
}

/// A type statement, up to the last token.
#[tactic(auto, unfolding(grammar_laws::specs::StatementReader::whole, grammar_laws::specs::FormReading::going_on))]
fn whole_type(alloc: Global, text: &[Character], tokens: &[Token]) -> Result<Body, Failure>
    ensures { Gives (λ found. found) result (reader.whole declarations.type_statement_form (seen text.now tokens.now)) }
{
    let (found, rest) = type_statement(alloc, text, tokens)?;
    ended(text, found, rest)
}

/// The labels of an arithmetic IF, up to the last token.
#[tactic(auto, unfolding(grammar_laws::specs::StatementReader::whole, grammar_laws::specs::FormReading::going_on))]
fn whole_labels(text: &[Character], tokens: &[Token]) -> Result<(u32, (u32, u32)), Failure>
    ensures { Gives (λ found. found) result (reader.whole reading.sign_labels_form (seen text.now tokens.now)) }
{
    let (found, rest) = sign_labels(text, tokens)?;
    ended(text, found, rest)
}

/// What stands behind a word other than IF and those of types, up to the last token.
#[tactic(auto, using(crate::proofs::StatementLemmas::word_steps), unfolding(grammar_laws::specs::StatementReader::whole, grammar_laws::specs::FormReading::going_on))]
fn whole_form(
    alloc: Global,
    text: &[Character],
    kind: StmtKind,
    tokens: &[Token],
) -> Result<Body, Failure>
    ensures { Gives (λ found. found) result (reader.read_other kind (reader.other_by_word kind) (seen text.now tokens.now)) }
{
    let (found, rest) = other_form(alloc, text, kind, tokens)?;
    ended(text, found, rest)
}

/// What stands behind the word of a statement that may stand in a logical IF, up to the last token.
#[tactic(auto, using(crate::proofs::StatementLemmas::action_steps), unfolding(grammar_laws::specs::StatementReader::whole, grammar_laws::specs::FormReading::going_on))]
fn whole_action(
    alloc: Global,
    text: &[Character],
    kind: StmtKind,
    tokens: &[Token],
) -> Result<Body, Failure>
    ensures { Gives (λ found. found) result (reader.read_by (reader.action_by_word kind) (seen text.now tokens.now)) }
{
    let (found, rest) = action_form(alloc, text, kind, tokens)?;
    ended(text, found, rest)
}

/// What stands behind the word of a statement that may stand in no logical IF, or behind another word.
#[tactic(auto, unfolding(grammar_laws::specs::StatementReader::other_by_word, crate::specs::StatementSteps::form_by, grammar_laws::specs::FormReading::said))]
fn other_form<'a>(
    alloc: Global,
    text: &[Character],
    kind: StmtKind,
    tokens: &'a [Token],
) -> Result<(Body, &'a [Token]), Failure>
    ensures { Gives (λ p. (p.0, seen text.now p.1.now)) result (step.form_by kind (reader.other_by_word kind) (seen text.now tokens.now)) }
{
    match kind {
        StmtKind::ElseIf => else_if_statement(alloc, text, tokens),
        StmtKind::Else => Ok((Body::Else, tokens)),
        StmtKind::EndIf => Ok((Body::EndIf, tokens)),
        StmtKind::Do => do_statement(alloc, text, tokens),
        StmtKind::DoWhile => do_while_statement(alloc, text, tokens),
        StmtKind::EndDo => Ok((Body::EndDo, tokens)),
        StmtKind::End => Ok((Body::End, tokens)),
        StmtKind::Function => function_statement(alloc, text, tokens),
        StmtKind::Program => program_statement(alloc, text, tokens),
        StmtKind::Subroutine => subroutine_statement(alloc, text, tokens),
        StmtKind::BlockData => block_data_statement(alloc, text, tokens),
        StmtKind::Entry => entry_statement(alloc, text, tokens),
        StmtKind::Dimension => dimension_statement(alloc, text, tokens),
        StmtKind::Common => common_statement(alloc, text, tokens),
        StmtKind::Equivalence => equivalence_statement(alloc, text, tokens),
        StmtKind::Implicit => implicit_statement(alloc, text, tokens),
        StmtKind::Parameter => parameter_statement(alloc, text, tokens),
        StmtKind::External => external_statement(alloc, text, tokens),
        StmtKind::Intrinsic => intrinsic_statement(alloc, text, tokens),
        StmtKind::Save => save_statement(alloc, text, tokens),
        StmtKind::Init => data_statement(alloc, text, tokens),
        StmtKind::Format => format_statement(alloc, text, tokens),
        StmtKind::Include => include_statement(alloc, text, tokens),
        _ => action_form(alloc, text, kind, tokens),
    }
}

/// What stands behind the word of a statement that may stand in a logical IF.
#[tactic(auto, unfolding(grammar_laws::specs::StatementReader::action_by_word, crate::specs::StatementSteps::reader_of, grammar_laws::specs::FormReading::said))]
fn action_form<'a>(
    alloc: Global,
    text: &[Character],
    kind: StmtKind,
    tokens: &'a [Token],
) -> Result<(Body, &'a [Token]), Failure>
    ensures { Gives (λ p. (p.0, seen text.now p.1.now)) result (step.reader_of (reader.action_by_word kind) (seen text.now tokens.now)) }
{
    match kind {
        StmtKind::Assign => assign_statement(alloc, text, tokens),
        StmtKind::Goto => goto_statement(alloc, text, tokens),
        StmtKind::If => arithmetic_if_statement(alloc, text, tokens),
        StmtKind::Continue => Ok((Body::Continue, tokens)),
        StmtKind::Call => call_statement(alloc, text, tokens),
        StmtKind::Return => return_statement(alloc, text, tokens),
        StmtKind::Stop => stop_statement(alloc, text, tokens),
        StmtKind::Read => read_statement(alloc, text, tokens),
        StmtKind::Write => write_statement(alloc, text, tokens),
        StmtKind::Print => print_statement(alloc, text, tokens),
        StmtKind::OpenUnit => open_statement(alloc, text, tokens),
        StmtKind::Close => close_statement(alloc, text, tokens),
        StmtKind::Backspace => backspace_statement(alloc, text, tokens),
        StmtKind::EndFile => endfile_statement(alloc, text, tokens),
        StmtKind::Rewind => rewind_statement(alloc, text, tokens),
        _ => Err(Failure::Syntax),
    }
}

/// A statement that stands in a logical IF. Section 11.5.
#[tactic(auto, unfolding(grammar_laws::specs::StatementReader::read_action, stmt_lex::specs::SeenTokens::seen, stmt_lex::specs::SeenTokens::lexeme_of))]
fn action(alloc: Global, text: &[Character], tokens: &[Token]) -> Result<Body, Failure>
    ensures { Gives (λ found. found) result (reader.read_action (seen text.now tokens.now)) }
{
    match tokens {
        [Token::Word(kind), rest @ ..] => whole_action(alloc, text, *kind, rest),
        _ => whole_assignment(alloc, text, tokens),
    }
}

/// What stands behind the word of an IF. Sections 11.4 to 11.6.
#[tactic(auto, unfolding(grammar_laws::specs::FormReading::going_on))]
fn conditional(alloc: Global, text: &[Character], tokens: &[Token]) -> Result<Body, Failure>
    ensures { Gives (λ found. found) result (step.conditional (seen text.now tokens.now)) }
{
    let (condition, rest) = test(alloc, text, tokens)?;
    behind_condition(alloc, text, condition, rest)
}

/// What stands behind the condition of an IF: THEN, labels or a statement.
#[tactic(auto, using(crate::proofs::StatementLemmas::condition_steps), unfolding(expression_parse::specs::WantedPieces::sort_of))]
fn behind_condition(
    alloc: Global,
    text: &[Character],
    condition: Expr,
    tokens: &[Token],
) -> Result<Body, Failure>
    ensures { Gives (λ found. found) result (reader.behind_condition condition (seen text.now tokens.now)) }
{
    match taken(text, tokens, Wanted::Then) {
        Some(rest) => ended(text, Body::IfThen(condition), rest),
        None => branched(alloc, text, condition, tokens),
    }
}

/// What stands behind the condition of an arithmetic or of a logical IF. Sections 11.4 and 11.5.
#[tactic(auto, unfolding(crate::specs::StatementSteps::branched))]
fn branched(
    alloc: Global,
    text: &[Character],
    condition: Expr,
    tokens: &[Token],
) -> Result<Body, Failure>
    ensures { Gives (λ found. found) result (step.branched condition (seen text.now tokens.now)) }
{
    if number_first(text, tokens) {
        signed(text, condition, tokens)
    } else {
        logical(alloc, text, condition, tokens)
    }
}

/// Whether a number stands first.
#[tactic(auto, unfolding(crate::specs::StatementSteps::number_first, stmt_lex::specs::SeenTokens::seen, stmt_lex::specs::SeenTokens::lexeme_of))]
fn number_first(text: &[Character], tokens: &[Token]) -> bool
    ensures { result ≡ step.number_first (seen text.now tokens.now) }
{
    matches!(tokens, [Token::Number(_, _), ..])
}

/// The labels of an arithmetic IF, behind its condition. Section 11.4.
#[tactic(auto, unfolding(crate::specs::StatementSteps::signed, fortran_grammar::specs::StatementForms::if_sign))]
fn signed(text: &[Character], condition: Expr, tokens: &[Token]) -> Result<Body, Failure>
    ensures { Gives (λ found. found) result (step.signed condition (seen text.now tokens.now)) }
{
    let (negative, (zero, positive)) = whole_labels(text, tokens)?;
    Ok(Body::IfSign(condition, negative, zero, positive))
}

/// The statement of a logical IF, behind its condition. Section 11.5.
#[tactic(auto, unfolding(crate::specs::StatementSteps::logical))]
fn logical(
    alloc: Global,
    text: &[Character],
    condition: Expr,
    tokens: &[Token],
) -> Result<Body, Failure>
    ensures { Gives (λ found. found) result (step.logical condition (seen text.now tokens.now)) }
{
    let found = action(alloc, text, tokens)?;
    Ok(Body::IfOne(condition, Boxed::new(alloc, found)?))
}
