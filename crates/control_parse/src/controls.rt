//! READ, WRITE, PRINT, OPEN, CLOSE, BACKSPACE, ENDFILE and REWIND with their lists of control information. Sections 12.8, 12.9 and 12.10
//! of the standard, ANSI X3.9-1978.

ghost use Rattle.std.specs.Prelude.{◌≡◌, [], ◌∷◌, ◌++◌, Some, IfOk};
ghost use Rattle.f_tree.specs.declared.statements.AuxiliaryKind.TheVariants as auxiliary;
ghost use Rattle.f_tree.specs.declared.statements.Body as body;
ghost use Rattle.f_tree.specs.declared.statements.ControlValue.TheVariants as value;
ghost use Rattle.f_tree.specs.declared.statements.Direction.TheVariants as way;
ghost use Rattle.std.specs.List.{list_any};
ghost use Rattle.std.specs.Str.{bytes_eq};
ghost use Rattle.f_tree.specs.declared.expressions.Expr as expr;
ghost use Rattle.f_tree.specs.declared.statements.ControlWord.TheVariants as word;
ghost use Rattle.fortran_grammar.specs.ControlForms.{is_number_alone, standard_unit, is_opened, is_constant, constants_of_open, constants_of_close, first_word, control_words, control_word, variable_or_element, control, before_others, unit_alone, fits_auxiliary, words_of_position, no_constants};
ghost use Rattle.control_parse.specs.ControlSteps.{constants_of, fits_of};
ghost use Rattle.list_parse.specs.ListSteps.{items_on};
ghost use Rattle.fortran_grammar.specs.Forms as piece;
ghost use Rattle.fortran_grammar.specs.Forms.{listed};
ghost use Rattle.grammar_laws.specs.ControlReading as controls;
ghost use Rattle.grammar_laws.specs.ExpressionReading as reading;
ghost use Rattle.grammar_laws.specs.FormReading as form;
ghost use Rattle.grammar_laws.specs.ListReading as list;
ghost use Rattle.stmt_lex.specs.SeenTokens.{seen};
ghost use Rattle.expression_parse.specs.Readings.{Gives};

use super::control_tests::is_of_statement;
use expression_parse::{Failure, Wanted, label, name, name_text, quoted, read_expression, taken};
use f_tree::{AuxiliaryKind, Body, Control, ControlValue, ControlWord, Direction, Expr, ListItem};
use fortran_lexemes::Sign;
use fortran_text::Character;
use list_parse::{
    behind_piece, enclosed_expressions, failed, first_and_others, keyed, list_items, with,
};
use plain_data::Items;
use std::alloc::{AllocError, Global};
use stmt_lex::Token;

/// The statement that a list of controls belongs to.
#[derive(Clone, Copy, Debug, PartialEq, Eq)]
pub enum ControlsOf {
    /// READ
    Read,
    /// WRITE
    Write,
    /// OPEN
    Open,
    /// CLOSE
    Close,
    /// BACKSPACE, ENDFILE or REWIND
    Position,
}

/// What STATUS of OPEN may say. Section 12.10.1.
static OPEN_STATUSES: [&[u8]; 3] = [b"OLD", b"NEW", b"UNKNOWN"];

/// What ACCESS may say.
static ACCESSES: [&[u8]; 1] = [b"SEQUENTIAL"];

/// What FORM may say.
static FORMS: [&[u8]; 1] = [b"FORMATTED"];

/// What BLANK may say.
static BLANKS: [&[u8]; 2] = [b"NULL", b"ZERO"];

/// What STATUS of CLOSE may say. Section 12.10.2.
static CLOSE_STATUSES: [&[u8]; 1] = [b"KEEP"];

/// Whether a number stands alone where the value of a control or a format ends.
#[tactic(auto, unfolding(fortran_grammar::specs::ControlForms::is_number_alone, stmt_lex::specs::SeenTokens::seen, stmt_lex::specs::SeenTokens::lexeme_of))]
fn number_alone(text: &[Character], tokens: &[Token]) -> bool
    ensures { result ≡ is_number_alone (seen text.now tokens.now) }
{
    matches!(
        tokens,
        [Token::Number(_, _)]
            | [Token::Number(_, _), Token::Mark(Sign::Comma), ..]
            | [Token::Number(_, _), Token::Mark(Sign::Close), ..]
    )
}

/// `*`: the standard unit, or list-directed.
#[tactic(auto, using(list_parse::proofs::ListLemmas::taken_steps), unfolding(expression_parse::specs::WantedPieces::sort_of, list_parse::specs::ListSteps::behind_taken, grammar_laws::specs::FormReading::said))]
fn star<'a>(text: &[Character], tokens: &'a [Token]) -> Result<(ControlValue, &'a [Token]), Failure>
    ensures { Gives (λ p. (p.0, seen text.now p.1.now)) result (form.after piece.Star (form.said value.Star) (seen text.now tokens.now)) }
{
    match taken(text, tokens, Wanted::Star) {
        Some(rest) => Ok((ControlValue::Star, rest)),
        None => Err(Failure::Syntax),
    }
}

/// A label, as the value of a control.
#[tactic(auto, unfolding(grammar_laws::specs::FormReading::meant, grammar_laws::specs::FormReading::going_on))]
fn label_value<'a>(
    text: &[Character],
    tokens: &'a [Token],
) -> Result<(ControlValue, &'a [Token]), Failure>
    ensures { Gives (λ p. (p.0, seen text.now p.1.now)) result (form.meant value.Label form.a_label (seen text.now tokens.now)) }
{
    let (found, rest) = label(text, tokens)?;
    Ok((ControlValue::Label(found), rest))
}

/// An expression, as the value of a control.
#[tactic(auto, unfolding(grammar_laws::specs::FormReading::meant, grammar_laws::specs::FormReading::going_on))]
fn value<'a>(
    alloc: Global,
    text: &[Character],
    tokens: &'a [Token],
) -> Result<(ControlValue, &'a [Token]), Failure>
    ensures { Gives (λ p. (p.0, seen text.now p.1.now)) result (form.meant value.Value reading.read_expression (seen text.now tokens.now)) }
{
    let (found, rest) = read_expression(alloc, text, tokens)?;
    Ok((ControlValue::Value(found), rest))
}

/// The label of a FORMAT statement, or an expression. Section 12.4.
#[tactic(auto, unfolding(grammar_laws::specs::FormReading::choice))]
fn label_or_value<'a>(
    alloc: Global,
    text: &[Character],
    tokens: &'a [Token],
) -> Result<(ControlValue, &'a [Token]), Failure>
    ensures { Gives (λ p. (p.0, seen text.now p.1.now)) result (form.choice is_number_alone (form.meant value.Label form.a_label) (form.meant value.Value reading.read_expression) (seen text.now tokens.now)) }
{
    if number_alone(text, tokens) {
        label_value(text, tokens)
    } else {
        value(alloc, text, tokens)
    }
}

/// A format. Section 12.4.
#[tactic(auto, unfolding(grammar_laws::specs::FormReading::either, grammar_laws::specs::FormReading::otherwise))]
fn format<'a>(
    alloc: Global,
    text: &[Character],
    tokens: &'a [Token],
) -> Result<(ControlValue, &'a [Token]), Failure>
    ensures { Gives (λ p. (p.0, seen text.now p.1.now)) result (controls.format_of_form (seen text.now tokens.now)) }
{
    match star(text, tokens) {
        Ok(read) => Ok(read),
        Err(Failure::Syntax) => label_or_value(alloc, text, tokens),
        Err(Failure::NoMemory) => Err(Failure::NoMemory),
    }
}

/// A comma and a list.
#[tactic(auto, using(list_parse::proofs::ListLemmas::taken_steps), unfolding(expression_parse::specs::WantedPieces::sort_of, list_parse::specs::ListSteps::behind_taken))]
fn items_behind_comma<'a>(
    alloc: Global,
    text: &[Character],
    tokens: &'a [Token],
) -> Result<(Items<ListItem>, &'a [Token]), Failure>
    ensures { Gives (λ p. (p.0, seen text.now p.1.now)) result (form.after piece.Comma list.items_form (seen text.now tokens.now)) }
{
    match taken(text, tokens, Wanted::Comma) {
        Some(rest) => list_items(alloc, text, rest),
        None => Err(Failure::Syntax),
    }
}

/// A list behind a comma, if there is one.
#[tactic(auto, unfolding(grammar_laws::specs::FormReading::maybe, grammar_laws::specs::FormReading::maybe_read))]
fn list_behind_comma<'a>(
    alloc: Global,
    text: &[Character],
    tokens: &'a [Token],
) -> Result<(Option<Items<ListItem>>, &'a [Token]), Failure>
    ensures { Gives (λ p. (p.0, seen text.now p.1.now)) result (form.maybe (form.after piece.Comma list.items_form) (seen text.now tokens.now)) }
{
    match items_behind_comma(alloc, text, tokens) {
        Ok((found, rest)) => Ok((Some(found), rest)),
        Err(Failure::Syntax) => Ok((None, tokens)),
        Err(Failure::NoMemory) => Err(Failure::NoMemory),
    }
}

/// A format, and a list behind a comma. Section 12.8.
#[tactic(auto, unfolding(grammar_laws::specs::FormReading::both, grammar_laws::specs::FormReading::going_on, grammar_laws::specs::FormReading::paired))]
fn format_and_list<'a>(
    alloc: Global,
    text: &[Character],
    tokens: &'a [Token],
) -> Result<((ControlValue, Option<Items<ListItem>>), &'a [Token]), Failure>
    ensures { Gives (λ p. (p.0, seen text.now p.1.now)) result (controls.format_and_list_form (seen text.now tokens.now)) }
{
    let (format, rest) = format(alloc, text, tokens)?;
    match list_behind_comma(alloc, text, rest) {
        Ok((list, rest)) => Ok(((format, list), rest)),
        Err(failure) => failed(format, failure),
    }
}

/// What a list that may be left out says.
#[tactic(auto, unfolding(fortran_grammar::specs::Forms::listed))]
fn listed<T>(alloc: Global, list: Option<Items<T>>) -> Items<T>
    ensures { result ≡ listed list }
{
    match list {
        Some(list) => list,
        None => Items::new(alloc),
    }
}

/// A list of two.
fn two<T: Drop>(alloc: Global, first: T, second: T) -> Result<Items<T>, AllocError>
    ensures { IfOk result (λ made. made ≡ first ∷ second ∷ []) }
{
    match with(Items::new(alloc), first) {
        Ok(found) => with(found, second),
        Err(error) => Err(error),
    }
}

/// The unit `*` and a format.
#[tactic(auto, unfolding(fortran_grammar::specs::ControlForms::standard_unit, fortran_grammar::specs::ControlForms::control))]
fn standard_unit(alloc: Global, format: ControlValue) -> Result<Items<Control>, AllocError>
    ensures { IfOk result (λ made. made ≡ standard_unit format) }
{
    two(
        alloc,
        Control {
            word: ControlWord::Unit,
            value: ControlValue::Star,
        },
        Control {
            word: ControlWord::Format,
            value: format,
        },
    )
}

/// A transfer on the unit `*`.
fn standard_transfer(
    alloc: Global,
    way: Direction,
    format: ControlValue,
    list: Option<Items<ListItem>>,
) -> Result<Body, Failure>
    ensures { Gives (λ made. made) result (Some (body.Transfer way (standard_unit format) (listed list))) }
{
    match standard_unit(alloc, format) {
        Ok(controls) => Ok(Body::Transfer(way, controls, listed(alloc, list))),
        Err(_) => failed(list, Failure::NoMemory),
    }
}

/// PRINT. Section 12.8.
#[tactic(auto, unfolding(grammar_laws::specs::FormReading::meant, grammar_laws::specs::FormReading::going_on))]
pub fn print_statement<'a>(
    alloc: Global,
    text: &[Character],
    tokens: &'a [Token],
) -> Result<(Body, &'a [Token]), Failure>
    ensures { Gives (λ p. (p.0, seen text.now p.1.now)) result (controls.print_form (seen text.now tokens.now)) }
{
    let ((format, list), rest) = format_and_list(alloc, text, tokens)?;
    let made = standard_transfer(alloc, Direction::Write, format, list)?;
    Ok((made, rest))
}

/// Whether a text is one of some.
fn is_among(texts: &[&[u8]], text: &[u8]) -> bool
    ensures { result ≡ list_any (λ one. bytes_eq text.now one.now) texts.now }
{
    texts.iter().any(|one| text == *one)
}

/// Whether a control word of OPEN takes a constant.
#[tactic(auto, unfolding(fortran_grammar::specs::ControlForms::is_constant, fortran_grammar::specs::ControlForms::constants_of_open))]
fn is_constant_of_open(word: ControlWord, text: &[u8]) -> bool
    ensures { result ≡ is_constant (constants_of_open word) text.now }
{
    match word {
        ControlWord::FileStatus => is_among(&OPEN_STATUSES, text),
        ControlWord::Access => is_among(&ACCESSES, text),
        ControlWord::Form => is_among(&FORMS, text),
        ControlWord::Blank => is_among(&BLANKS, text),
        _ => false,
    }
}

/// Whether a control word of CLOSE takes a constant.
#[tactic(auto, unfolding(fortran_grammar::specs::ControlForms::is_constant, fortran_grammar::specs::ControlForms::constants_of_close))]
fn is_constant_of_close(word: ControlWord, text: &[u8]) -> bool
    ensures { result ≡ is_constant (constants_of_close word) text.now }
{
    match word {
        ControlWord::FileStatus => is_among(&CLOSE_STATUSES, text),
        _ => false,
    }
}

/// Whether a control word of a statement takes a constant.
#[tactic(auto, unfolding(crate::specs::ControlSteps::constants_of, fortran_grammar::specs::ControlForms::is_constant, fortran_grammar::specs::ControlForms::no_constants))]
fn is_constant(statement: ControlsOf, word: ControlWord, text: &[u8]) -> bool
    ensures { result ≡ is_constant (constants_of statement word) text.now }
{
    match statement {
        ControlsOf::Open => is_constant_of_open(word, text),
        ControlsOf::Close => is_constant_of_close(word, text),
        _ => false,
    }
}

/// The control word that a name is.
#[tactic(auto, unfolding(fortran_grammar::specs::ControlForms::first_word))]
fn word_of(name: &[u8]) -> Option<ControlWord>
    ensures { result ≡ first_word name.now control_words }
{
    if name == b"unit".as_slice() {
        Some(ControlWord::Unit)
    } else if name == b"fmt".as_slice() {
        Some(ControlWord::Format)
    } else if name == b"iostat".as_slice() {
        Some(ControlWord::Status)
    } else if name == b"err".as_slice() {
        Some(ControlWord::OnError)
    } else if name == b"end".as_slice() {
        Some(ControlWord::OnEnd)
    } else if name == b"file".as_slice() {
        Some(ControlWord::File)
    } else if name == b"status".as_slice() {
        Some(ControlWord::FileStatus)
    } else if name == b"access".as_slice() {
        Some(ControlWord::Access)
    } else if name == b"form".as_slice() {
        Some(ControlWord::Form)
    } else if name == b"blank".as_slice() {
        Some(ControlWord::Blank)
    } else {
        None
    }
}

/// The control word that stands first.
#[tactic(auto, unfolding(grammar_laws::specs::FormReading::piece, grammar_laws::specs::FormReading::with_rest, fortran_grammar::specs::Forms::says_first, fortran_grammar::specs::Forms::behind, fortran_grammar::specs::ControlForms::control_word, stmt_lex::specs::SeenTokens::seen, stmt_lex::specs::SeenTokens::lexeme_of))]
fn word_piece<'a>(
    alloc: Global,
    text: &[Character],
    tokens: &'a [Token],
) -> Result<(ControlWord, &'a [Token]), Failure>
    ensures { Gives (λ p. (p.0, seen text.now p.1.now)) result (form.piece control_word (seen text.now tokens.now)) }
{
    match tokens {
        [Token::Name(span), rest @ ..] => {
            let word = name_text(alloc, text, *span)?;
            match word_of(word.as_slice()) {
                Some(word) => Ok((word, rest)),
                None => Err(Failure::Syntax),
            }
        }
        _ => Err(Failure::Syntax),
    }
}

/// A control word and `=`.
#[tactic(auto, unfolding(grammar_laws::specs::FormReading::up_to, grammar_laws::specs::FormReading::going_on, expression_parse::specs::WantedPieces::sort_of))]
fn keyed_word<'a>(
    alloc: Global,
    text: &[Character],
    tokens: &'a [Token],
) -> Result<(ControlWord, &'a [Token]), Failure>
    ensures { Gives (λ p. (p.0, seen text.now p.1.now)) result (form.up_to (form.piece control_word) piece.Equals (seen text.now tokens.now)) }
{
    let (word, rest) = word_piece(alloc, text, tokens)?;
    behind_piece(text, word, rest, Wanted::Equals)
}

/// A constant that a control word takes.
#[tactic(auto, using(crate::proofs::ControlLemmas::where_steps), unfolding(grammar_laws::specs::FormReading::going_on, grammar_laws::specs::FormReading::where_passes))]
fn constant<'a>(
    alloc: Global,
    text: &[Character],
    tokens: &'a [Token],
    statement: ControlsOf,
    word: ControlWord,
) -> Result<(Items<u8>, &'a [Token]), Failure>
    ensures { Gives (λ p. (p.0, seen text.now p.1.now)) result (form.where' (is_constant (constants_of statement word)) form.a_quoted (seen text.now tokens.now)) }
{
    let (found, rest) = quoted(alloc, text, tokens)?;
    if is_constant(statement, word, found.as_slice()) {
        Ok((found, rest))
    } else {
        Err(Failure::Syntax)
    }
}

/// A constant, as the value of a control.
#[tactic(auto, unfolding(grammar_laws::specs::FormReading::meant, grammar_laws::specs::FormReading::going_on))]
fn constant_value<'a>(
    alloc: Global,
    text: &[Character],
    tokens: &'a [Token],
    statement: ControlsOf,
    word: ControlWord,
) -> Result<(ControlValue, &'a [Token]), Failure>
    ensures { Gives (λ p. (p.0, seen text.now p.1.now)) result (form.meant (λ text. value.Value (expr.Text text)) (form.where' (is_constant (constants_of statement word)) form.a_quoted) (seen text.now tokens.now)) }
{
    let (found, rest) = constant(alloc, text, tokens, statement, word)?;
    Ok((ControlValue::Value(Expr::Text(found)), rest))
}

/// Expressions in parentheses, if they stand there.
#[tactic(auto, unfolding(grammar_laws::specs::FormReading::maybe, grammar_laws::specs::FormReading::maybe_read))]
fn subscripts<'a>(
    alloc: Global,
    text: &[Character],
    tokens: &'a [Token],
) -> Result<(Option<Items<Expr>>, &'a [Token]), Failure>
    ensures { Gives (λ p. (p.0, seen text.now p.1.now)) result (form.maybe (form.enclosed (form.separated reading.read_expression)) (seen text.now tokens.now)) }
{
    match enclosed_expressions(alloc, text, tokens) {
        Ok((found, rest)) => Ok((Some(found), rest)),
        Err(Failure::Syntax) => Ok((None, tokens)),
        Err(Failure::NoMemory) => Err(Failure::NoMemory),
    }
}

/// A name, and its subscripts.
#[tactic(auto, unfolding(grammar_laws::specs::FormReading::both, grammar_laws::specs::FormReading::going_on, grammar_laws::specs::FormReading::paired))]
fn name_and_subscripts<'a>(
    alloc: Global,
    text: &[Character],
    tokens: &'a [Token],
) -> Result<((Items<u8>, Option<Items<Expr>>), &'a [Token]), Failure>
    ensures { Gives (λ p. (p.0, seen text.now p.1.now)) result (form.both form.a_name (form.maybe (form.enclosed (form.separated reading.read_expression))) (seen text.now tokens.now)) }
{
    let (name, rest) = name(alloc, text, tokens)?;
    match subscripts(alloc, text, rest) {
        Ok((subscripts, rest)) => Ok(((name, subscripts), rest)),
        Err(failure) => failed(name, failure),
    }
}

/// A variable, or an element by its subscripts.
#[tactic(auto, unfolding(fortran_grammar::specs::ControlForms::variable_or_element))]
fn variable_or_element(name: Items<u8>, subscripts: Option<Items<Expr>>) -> ControlValue
    ensures { result ≡ variable_or_element (name, subscripts) }
{
    match subscripts {
        Some(subscripts) => ControlValue::Value(Expr::Apply(name, subscripts)),
        None => ControlValue::Value(Expr::Name(name)),
    }
}

/// The variable or element of IOSTAT. Section 12.7.
#[tactic(auto, unfolding(grammar_laws::specs::FormReading::meant, grammar_laws::specs::FormReading::going_on))]
fn status<'a>(
    alloc: Global,
    text: &[Character],
    tokens: &'a [Token],
) -> Result<(ControlValue, &'a [Token]), Failure>
    ensures { Gives (λ p. (p.0, seen text.now p.1.now)) result (form.meant variable_or_element (form.both form.a_name (form.maybe (form.enclosed (form.separated reading.read_expression)))) (seen text.now tokens.now)) }
{
    let ((name, subscripts), rest) = name_and_subscripts(alloc, text, tokens)?;
    Ok((variable_or_element(name, subscripts), rest))
}

/// The unit. Section 12.9.
#[tactic(auto, unfolding(grammar_laws::specs::FormReading::either, grammar_laws::specs::FormReading::otherwise))]
fn unit<'a>(
    alloc: Global,
    text: &[Character],
    tokens: &'a [Token],
) -> Result<(ControlValue, &'a [Token]), Failure>
    ensures { Gives (λ p. (p.0, seen text.now p.1.now)) result (controls.unit_form (seen text.now tokens.now)) }
{
    match star(text, tokens) {
        Ok(read) => Ok(read),
        Err(Failure::Syntax) => value(alloc, text, tokens),
        Err(Failure::NoMemory) => Err(Failure::NoMemory),
    }
}

/// What stands behind a control word and `=`. Sections 12.8.1 and 12.10.
#[tactic(auto, unfolding(grammar_laws::specs::ControlReading::value_form))]
fn value_of<'a>(
    alloc: Global,
    text: &[Character],
    tokens: &'a [Token],
    statement: ControlsOf,
    word: ControlWord,
) -> Result<(ControlValue, &'a [Token]), Failure>
    ensures { Gives (λ p. (p.0, seen text.now p.1.now)) result (controls.value_form (constants_of statement) word (seen text.now tokens.now)) }
{
    match word {
        ControlWord::Unit => unit(alloc, text, tokens),
        ControlWord::Format => format(alloc, text, tokens),
        ControlWord::Status => status(alloc, text, tokens),
        ControlWord::OnError | ControlWord::OnEnd => label_value(text, tokens),
        ControlWord::File => value(alloc, text, tokens),
        _ => constant_value(alloc, text, tokens, statement, word),
    }
}

/// A control word with `=`, and its value.
#[tactic(auto, unfolding(grammar_laws::specs::FormReading::led, grammar_laws::specs::FormReading::going_on, grammar_laws::specs::FormReading::paired))]
fn word_and_value<'a>(
    alloc: Global,
    text: &[Character],
    tokens: &'a [Token],
    statement: ControlsOf,
) -> Result<((ControlWord, ControlValue), &'a [Token]), Failure>
    ensures { Gives (λ p. (p.0, seen text.now p.1.now)) result (form.led (form.up_to (form.piece control_word) piece.Equals) (controls.value_form (constants_of statement)) (seen text.now tokens.now)) }
{
    let (word, rest) = keyed_word(alloc, text, tokens)?;
    let (value, rest) = value_of(alloc, text, rest, statement, word)?;
    Ok(((word, value), rest))
}

/// A control with its word.
#[tactic(auto, unfolding(grammar_laws::specs::FormReading::meant, grammar_laws::specs::FormReading::going_on, fortran_grammar::specs::ControlForms::control_of, fortran_grammar::specs::ControlForms::control))]
fn keyed_control<'a>(
    alloc: Global,
    text: &[Character],
    tokens: &'a [Token],
    statement: ControlsOf,
) -> Result<(Control, &'a [Token]), Failure>
    ensures { Gives (λ p. (p.0, seen text.now p.1.now)) result (controls.keyed_form (constants_of statement) (seen text.now tokens.now)) }
{
    let ((word, value), rest) = word_and_value(alloc, text, tokens, statement)?;
    Ok((Control { word, value }, rest))
}

/// Controls with their words.
#[tactic(auto, using(expression_parse::proofs::ReadingSteps::seen_lengths), unfolding(grammar_laws::specs::FormReading::separated))]
fn keyed_controls<'a>(
    alloc: Global,
    text: &[Character],
    tokens: &'a [Token],
    statement: ControlsOf,
) -> Result<(Items<Control>, &'a [Token]), Failure>
    ensures { Gives (λ p. (p.0, seen text.now p.1.now)) result (form.separated (controls.keyed_form (constants_of statement)) (seen text.now tokens.now)) }
{
    keyed_controls_from(
        alloc,
        text,
        Items::new(alloc),
        tokens,
        statement,
        tokens.len() + 1,
    )
}

/// More of them behind those that were found.
#[cycle(keyed_controls)]
#[tactic(auto, using(list_parse::proofs::ListLemmas::items_steps), unfolding(grammar_laws::specs::FormReading::going_on))]
fn keyed_controls_from<'a>(
    alloc: Global,
    text: &[Character],
    found: Items<Control>,
    tokens: &'a [Token],
    statement: ControlsOf,
    fuel: usize,
) -> Result<(Items<Control>, &'a [Token]), Failure>
    ensures { Gives (λ p. (p.0, seen text.now p.1.now)) result (form.items fuel (controls.keyed_form (constants_of statement)) found (seen text.now tokens.now)) }
{
    if fuel == 0 {
        return failed(found, Failure::Syntax);
    }
    match keyed_control(alloc, text, tokens, statement) {
        Ok((item, rest)) => keyed_controls_onward(
            alloc,
            text,
            with(found, item)?,
            rest,
            statement,
            fuel - 1,
        ),
        Err(failure) => failed(found, failure),
    }
}

/// More of them where a comma goes on.
#[cycle(keyed_controls)]
#[tactic(auto, unfolding(expression_parse::specs::WantedPieces::sort_of, list_parse::specs::ListSteps::items_on, list_parse::specs::ListSteps::items_by))]
fn keyed_controls_onward<'a>(
    alloc: Global,
    text: &[Character],
    found: Items<Control>,
    tokens: &'a [Token],
    statement: ControlsOf,
    fuel: usize,
) -> Result<(Items<Control>, &'a [Token]), Failure>
    ensures { Gives (λ p. (p.0, seen text.now p.1.now)) result (items_on fuel (controls.keyed_form (constants_of statement)) found (seen text.now tokens.now)) }
{
    match taken(text, tokens, Wanted::Comma) {
        Some(rest) => keyed_controls_from(alloc, text, found, rest, statement, fuel),
        None => Ok((found, tokens)),
    }
}

/// The unit without its word.
#[tactic(auto, unfolding(grammar_laws::specs::FormReading::meant, grammar_laws::specs::FormReading::going_on, fortran_grammar::specs::ControlForms::control))]
fn unit_control<'a>(
    alloc: Global,
    text: &[Character],
    tokens: &'a [Token],
) -> Result<(Control, &'a [Token]), Failure>
    ensures { Gives (λ p. (p.0, seen text.now p.1.now)) result (form.meant (control word.Unit) controls.unit_form (seen text.now tokens.now)) }
{
    let (value, rest) = unit(alloc, text, tokens)?;
    Ok((
        Control {
            word: ControlWord::Unit,
            value,
        },
        rest,
    ))
}

/// A format without its word.
#[tactic(auto, unfolding(grammar_laws::specs::FormReading::meant, grammar_laws::specs::FormReading::going_on, fortran_grammar::specs::ControlForms::control))]
fn format_control<'a>(
    alloc: Global,
    text: &[Character],
    tokens: &'a [Token],
) -> Result<(Control, &'a [Token]), Failure>
    ensures { Gives (λ p. (p.0, seen text.now p.1.now)) result (form.meant (control word.Format) controls.format_of_form (seen text.now tokens.now)) }
{
    let (value, rest) = format(alloc, text, tokens)?;
    Ok((
        Control {
            word: ControlWord::Format,
            value,
        },
        rest,
    ))
}

/// A comma and controls with their words.
#[tactic(auto, using(list_parse::proofs::ListLemmas::taken_steps), unfolding(expression_parse::specs::WantedPieces::sort_of, list_parse::specs::ListSteps::behind_taken))]
fn keyed_controls_behind_comma<'a>(
    alloc: Global,
    text: &[Character],
    tokens: &'a [Token],
    statement: ControlsOf,
) -> Result<(Items<Control>, &'a [Token]), Failure>
    ensures { Gives (λ p. (p.0, seen text.now p.1.now)) result (form.after piece.Comma (controls.keyed_list_form (constants_of statement)) (seen text.now tokens.now)) }
{
    match taken(text, tokens, Wanted::Comma) {
        Some(rest) => keyed_controls(alloc, text, rest, statement),
        None => Err(Failure::Syntax),
    }
}

/// A comma and controls with their words, if they stand there.
#[tactic(auto, unfolding(grammar_laws::specs::FormReading::maybe, grammar_laws::specs::FormReading::maybe_read))]
fn maybe_keyed_controls<'a>(
    alloc: Global,
    text: &[Character],
    tokens: &'a [Token],
    statement: ControlsOf,
) -> Result<(Option<Items<Control>>, &'a [Token]), Failure>
    ensures { Gives (λ p. (p.0, seen text.now p.1.now)) result (form.maybe (form.after piece.Comma (controls.keyed_list_form (constants_of statement))) (seen text.now tokens.now)) }
{
    match keyed_controls_behind_comma(alloc, text, tokens, statement) {
        Ok((found, rest)) => Ok((Some(found), rest)),
        Err(Failure::Syntax) => Ok((None, tokens)),
        Err(Failure::NoMemory) => Err(Failure::NoMemory),
    }
}

/// A format, and controls with their words behind a comma.
#[tactic(auto, unfolding(grammar_laws::specs::FormReading::both, grammar_laws::specs::FormReading::going_on, grammar_laws::specs::FormReading::paired))]
fn format_and_keyed_controls<'a>(
    alloc: Global,
    text: &[Character],
    tokens: &'a [Token],
    statement: ControlsOf,
) -> Result<((Control, Option<Items<Control>>), &'a [Token]), Failure>
    ensures { Gives (λ p. (p.0, seen text.now p.1.now)) result (form.both (form.meant (control word.Format) controls.format_of_form) (form.maybe (form.after piece.Comma (controls.keyed_list_form (constants_of statement)))) (seen text.now tokens.now)) }
{
    let (first, rest) = format_control(alloc, text, tokens)?;
    match maybe_keyed_controls(alloc, text, rest, statement) {
        Ok((others, rest)) => Ok(((first, others), rest)),
        Err(failure) => failed(first, failure),
    }
}

/// A format, and controls with their words behind a comma, in one list.
#[tactic(auto, unfolding(grammar_laws::specs::FormReading::meant, grammar_laws::specs::FormReading::going_on, fortran_grammar::specs::ControlForms::before_others))]
fn format_first<'a>(
    alloc: Global,
    text: &[Character],
    tokens: &'a [Token],
    statement: ControlsOf,
) -> Result<(Items<Control>, &'a [Token]), Failure>
    ensures { Gives (λ p. (p.0, seen text.now p.1.now)) result (form.meant before_others (form.both (form.meant (control word.Format) controls.format_of_form) (form.maybe (form.after piece.Comma (controls.keyed_list_form (constants_of statement))))) (seen text.now tokens.now)) }
{
    let ((first, others), rest) = format_and_keyed_controls(alloc, text, tokens, statement)?;
    Ok((first_and_others(alloc, first, others)?, rest))
}

/// The controls behind the unit. Section 12.8.1.
#[tactic(auto, unfolding(grammar_laws::specs::FormReading::choice))]
fn behind_unit<'a>(
    alloc: Global,
    text: &[Character],
    tokens: &'a [Token],
    statement: ControlsOf,
) -> Result<(Items<Control>, &'a [Token]), Failure>
    ensures { Gives (λ p. (p.0, seen text.now p.1.now)) result (controls.behind_unit_form (constants_of statement) (seen text.now tokens.now)) }
{
    if keyed(text, tokens) {
        keyed_controls(alloc, text, tokens, statement)
    } else {
        format_first(alloc, text, tokens, statement)
    }
}

/// A comma and the controls behind it.
#[tactic(auto, using(list_parse::proofs::ListLemmas::taken_steps), unfolding(expression_parse::specs::WantedPieces::sort_of, list_parse::specs::ListSteps::behind_taken))]
fn others_behind_comma<'a>(
    alloc: Global,
    text: &[Character],
    tokens: &'a [Token],
    statement: ControlsOf,
) -> Result<(Items<Control>, &'a [Token]), Failure>
    ensures { Gives (λ p. (p.0, seen text.now p.1.now)) result (form.after piece.Comma (controls.behind_unit_form (constants_of statement)) (seen text.now tokens.now)) }
{
    match taken(text, tokens, Wanted::Comma) {
        Some(rest) => behind_unit(alloc, text, rest, statement),
        None => Err(Failure::Syntax),
    }
}

/// A comma and the controls behind it, if they stand there.
#[tactic(auto, unfolding(grammar_laws::specs::FormReading::maybe, grammar_laws::specs::FormReading::maybe_read))]
fn maybe_others<'a>(
    alloc: Global,
    text: &[Character],
    tokens: &'a [Token],
    statement: ControlsOf,
) -> Result<(Option<Items<Control>>, &'a [Token]), Failure>
    ensures { Gives (λ p. (p.0, seen text.now p.1.now)) result (form.maybe (form.after piece.Comma (controls.behind_unit_form (constants_of statement))) (seen text.now tokens.now)) }
{
    match others_behind_comma(alloc, text, tokens, statement) {
        Ok((found, rest)) => Ok((Some(found), rest)),
        Err(Failure::Syntax) => Ok((None, tokens)),
        Err(Failure::NoMemory) => Err(Failure::NoMemory),
    }
}

/// The unit, and the controls behind it behind a comma.
#[tactic(auto, unfolding(grammar_laws::specs::FormReading::both, grammar_laws::specs::FormReading::going_on, grammar_laws::specs::FormReading::paired))]
fn unit_and_others<'a>(
    alloc: Global,
    text: &[Character],
    tokens: &'a [Token],
    statement: ControlsOf,
) -> Result<((Control, Option<Items<Control>>), &'a [Token]), Failure>
    ensures { Gives (λ p. (p.0, seen text.now p.1.now)) result (form.both (form.meant (control word.Unit) controls.unit_form) (form.maybe (form.after piece.Comma (controls.behind_unit_form (constants_of statement)))) (seen text.now tokens.now)) }
{
    let (first, rest) = unit_control(alloc, text, tokens)?;
    match maybe_others(alloc, text, rest, statement) {
        Ok((others, rest)) => Ok(((first, others), rest)),
        Err(failure) => failed(first, failure),
    }
}

/// The unit, and the controls behind it behind a comma, in one list.
#[tactic(auto, unfolding(grammar_laws::specs::FormReading::meant, grammar_laws::specs::FormReading::going_on, fortran_grammar::specs::ControlForms::before_others))]
fn unit_first<'a>(
    alloc: Global,
    text: &[Character],
    tokens: &'a [Token],
    statement: ControlsOf,
) -> Result<(Items<Control>, &'a [Token]), Failure>
    ensures { Gives (λ p. (p.0, seen text.now p.1.now)) result (form.meant before_others (form.both (form.meant (control word.Unit) controls.unit_form) (form.maybe (form.after piece.Comma (controls.behind_unit_form (constants_of statement))))) (seen text.now tokens.now)) }
{
    let ((first, others), rest) = unit_and_others(alloc, text, tokens, statement)?;
    Ok((first_and_others(alloc, first, others)?, rest))
}

/// A list of controls. Sections 12.8.1 and 12.10.
#[tactic(auto, unfolding(grammar_laws::specs::FormReading::choice))]
fn control_list<'a>(
    alloc: Global,
    text: &[Character],
    tokens: &'a [Token],
    statement: ControlsOf,
) -> Result<(Items<Control>, &'a [Token]), Failure>
    ensures { Gives (λ p. (p.0, seen text.now p.1.now)) result (controls.control_list_form (constants_of statement) (seen text.now tokens.now)) }
{
    if keyed(text, tokens) {
        keyed_controls(alloc, text, tokens, statement)
    } else {
        unit_first(alloc, text, tokens, statement)
    }
}

/// The controls of a statement, which fit it as a whole.
#[tactic(auto, using(crate::proofs::ControlLemmas::where_steps), unfolding(grammar_laws::specs::FormReading::going_on, grammar_laws::specs::FormReading::where_passes))]
fn fitting_controls<'a>(
    alloc: Global,
    text: &[Character],
    tokens: &'a [Token],
    statement: ControlsOf,
) -> Result<(Items<Control>, &'a [Token]), Failure>
    ensures { Gives (λ p. (p.0, seen text.now p.1.now)) result (form.where' (fits_of statement) (controls.control_list_form (constants_of statement)) (seen text.now tokens.now)) }
{
    let (found, rest) = control_list(alloc, text, tokens, statement)?;
    if is_of_statement(statement, found.as_slice()) {
        Ok((found, rest))
    } else {
        failed(found, Failure::Syntax)
    }
}

/// The controls of a statement and `)`.
#[tactic(auto, unfolding(grammar_laws::specs::FormReading::up_to, grammar_laws::specs::FormReading::going_on, expression_parse::specs::WantedPieces::sort_of))]
fn closed_controls<'a>(
    alloc: Global,
    text: &[Character],
    tokens: &'a [Token],
    statement: ControlsOf,
) -> Result<(Items<Control>, &'a [Token]), Failure>
    ensures { Gives (λ p. (p.0, seen text.now p.1.now)) result (form.up_to (form.where' (fits_of statement) (controls.control_list_form (constants_of statement))) piece.Close (seen text.now tokens.now)) }
{
    let (found, rest) = fitting_controls(alloc, text, tokens, statement)?;
    behind_piece(text, found, rest, Wanted::Close)
}

/// The controls of a statement, in parentheses.
#[tactic(auto, using(list_parse::proofs::ListLemmas::taken_steps), unfolding(grammar_laws::specs::FormReading::enclosed, expression_parse::specs::WantedPieces::sort_of, list_parse::specs::ListSteps::behind_taken))]
fn enclosed_controls<'a>(
    alloc: Global,
    text: &[Character],
    tokens: &'a [Token],
    statement: ControlsOf,
) -> Result<(Items<Control>, &'a [Token]), Failure>
    ensures { Gives (λ p. (p.0, seen text.now p.1.now)) result (form.enclosed (form.where' (fits_of statement) (controls.control_list_form (constants_of statement))) (seen text.now tokens.now)) }
{
    match taken(text, tokens, Wanted::Open) {
        Some(rest) => closed_controls(alloc, text, rest, statement),
        None => Err(Failure::Syntax),
    }
}

/// A list, if there is one.
#[tactic(auto, unfolding(grammar_laws::specs::FormReading::maybe, grammar_laws::specs::FormReading::maybe_read))]
fn maybe_items<'a>(
    alloc: Global,
    text: &[Character],
    tokens: &'a [Token],
) -> Result<(Option<Items<ListItem>>, &'a [Token]), Failure>
    ensures { Gives (λ p. (p.0, seen text.now p.1.now)) result (form.maybe list.items_form (seen text.now tokens.now)) }
{
    match list_items(alloc, text, tokens) {
        Ok((found, rest)) => Ok((Some(found), rest)),
        Err(Failure::Syntax) => Ok((None, tokens)),
        Err(Failure::NoMemory) => Err(Failure::NoMemory),
    }
}

/// The controls of a statement in parentheses, and a list.
#[tactic(auto, unfolding(grammar_laws::specs::FormReading::both, grammar_laws::specs::FormReading::going_on, grammar_laws::specs::FormReading::paired))]
fn controls_and_list<'a>(
    alloc: Global,
    text: &[Character],
    tokens: &'a [Token],
    statement: ControlsOf,
) -> Result<((Items<Control>, Option<Items<ListItem>>), &'a [Token]), Failure>
    ensures { Gives (λ p. (p.0, seen text.now p.1.now)) result (form.both (form.enclosed (form.where' (fits_of statement) (controls.control_list_form (constants_of statement)))) (form.maybe list.items_form) (seen text.now tokens.now)) }
{
    let (controls, rest) = enclosed_controls(alloc, text, tokens, statement)?;
    match maybe_items(alloc, text, rest) {
        Ok((list, rest)) => Ok(((controls, list), rest)),
        Err(failure) => failed(controls, failure),
    }
}

/// READ with controls in parentheses. Section 12.8.
#[tactic(auto, unfolding(grammar_laws::specs::FormReading::meant, grammar_laws::specs::FormReading::going_on, crate::specs::ControlSteps::constants_of, crate::specs::ControlSteps::fits_of))]
fn read_with_controls<'a>(
    alloc: Global,
    text: &[Character],
    tokens: &'a [Token],
) -> Result<(Body, &'a [Token]), Failure>
    ensures { Gives (λ p. (p.0, seen text.now p.1.now)) result (controls.read_controls_form (seen text.now tokens.now)) }
{
    let ((controls, list), rest) = controls_and_list(alloc, text, tokens, ControlsOf::Read)?;
    Ok((
        Body::Transfer(Direction::Read, controls, listed(alloc, list)),
        rest,
    ))
}

/// READ with a format alone. Section 12.8.
#[tactic(auto, unfolding(grammar_laws::specs::FormReading::meant, grammar_laws::specs::FormReading::going_on))]
fn read_without_controls<'a>(
    alloc: Global,
    text: &[Character],
    tokens: &'a [Token],
) -> Result<(Body, &'a [Token]), Failure>
    ensures { Gives (λ p. (p.0, seen text.now p.1.now)) result (form.meant (λ p. body.Transfer way.Read (standard_unit p.0) (listed p.1)) controls.format_and_list_form (seen text.now tokens.now)) }
{
    let ((format, list), rest) = format_and_list(alloc, text, tokens)?;
    let made = standard_transfer(alloc, Direction::Read, format, list)?;
    Ok((made, rest))
}

/// Whether `(` stands first.
#[tactic(auto, unfolding(fortran_grammar::specs::ControlForms::is_opened, stmt_lex::specs::SeenTokens::seen, stmt_lex::specs::SeenTokens::lexeme_of))]
fn opened(text: &[Character], tokens: &[Token]) -> bool
    ensures { result ≡ is_opened (seen text.now tokens.now) }
{
    matches!(tokens, [Token::Mark(Sign::Open), ..])
}

/// READ. Section 12.8.
#[tactic(auto, unfolding(grammar_laws::specs::FormReading::choice))]
pub fn read_statement<'a>(
    alloc: Global,
    text: &[Character],
    tokens: &'a [Token],
) -> Result<(Body, &'a [Token]), Failure>
    ensures { Gives (λ p. (p.0, seen text.now p.1.now)) result (controls.read_form (seen text.now tokens.now)) }
{
    if opened(text, tokens) {
        read_with_controls(alloc, text, tokens)
    } else {
        read_without_controls(alloc, text, tokens)
    }
}

/// WRITE. Section 12.8.
#[tactic(auto, unfolding(grammar_laws::specs::FormReading::meant, grammar_laws::specs::FormReading::going_on, crate::specs::ControlSteps::constants_of, crate::specs::ControlSteps::fits_of))]
pub fn write_statement<'a>(
    alloc: Global,
    text: &[Character],
    tokens: &'a [Token],
) -> Result<(Body, &'a [Token]), Failure>
    ensures { Gives (λ p. (p.0, seen text.now p.1.now)) result (controls.write_form (seen text.now tokens.now)) }
{
    let ((controls, list), rest) = controls_and_list(alloc, text, tokens, ControlsOf::Write)?;
    Ok((
        Body::Transfer(Direction::Write, controls, listed(alloc, list)),
        rest,
    ))
}

/// OPEN. Section 12.10.1.
#[tactic(auto, unfolding(grammar_laws::specs::FormReading::meant, grammar_laws::specs::FormReading::going_on, crate::specs::ControlSteps::constants_of, crate::specs::ControlSteps::fits_of))]
pub fn open_statement<'a>(
    alloc: Global,
    text: &[Character],
    tokens: &'a [Token],
) -> Result<(Body, &'a [Token]), Failure>
    ensures { Gives (λ p. (p.0, seen text.now p.1.now)) result (controls.open_form (seen text.now tokens.now)) }
{
    let (controls, rest) = enclosed_controls(alloc, text, tokens, ControlsOf::Open)?;
    Ok((Body::Auxiliary(AuxiliaryKind::OpenUnit, controls), rest))
}

/// CLOSE. Section 12.10.2.
#[tactic(auto, unfolding(grammar_laws::specs::FormReading::meant, grammar_laws::specs::FormReading::going_on, crate::specs::ControlSteps::constants_of, crate::specs::ControlSteps::fits_of))]
pub fn close_statement<'a>(
    alloc: Global,
    text: &[Character],
    tokens: &'a [Token],
) -> Result<(Body, &'a [Token]), Failure>
    ensures { Gives (λ p. (p.0, seen text.now p.1.now)) result (controls.close_form (seen text.now tokens.now)) }
{
    let (controls, rest) = enclosed_controls(alloc, text, tokens, ControlsOf::Close)?;
    Ok((Body::Auxiliary(AuxiliaryKind::CloseUnit, controls), rest))
}

/// A list of one control: the unit.
#[tactic(auto, unfolding(fortran_grammar::specs::ControlForms::unit_alone, fortran_grammar::specs::ControlForms::control))]
fn unit_list(alloc: Global, unit: Expr) -> Result<Items<Control>, AllocError>
    ensures { IfOk result (λ made. made ≡ unit_alone unit) }
{
    let unit = Control {
        word: ControlWord::Unit,
        value: ControlValue::Value(unit),
    };
    with(Items::new(alloc), unit)
}

/// The unit alone.
#[tactic(auto, unfolding(grammar_laws::specs::FormReading::meant, grammar_laws::specs::FormReading::going_on))]
fn unit_without_controls<'a>(
    alloc: Global,
    text: &[Character],
    tokens: &'a [Token],
) -> Result<(Items<Control>, &'a [Token]), Failure>
    ensures { Gives (λ p. (p.0, seen text.now p.1.now)) result (form.meant unit_alone reading.read_expression (seen text.now tokens.now)) }
{
    let (unit, rest) = read_expression(alloc, text, tokens)?;
    Ok((unit_list(alloc, unit)?, rest))
}

/// Controls of BACKSPACE, ENDFILE or REWIND in parentheses.
#[tactic(auto, unfolding(crate::specs::ControlSteps::constants_of, crate::specs::ControlSteps::fits_of))]
fn position_with_controls<'a>(
    alloc: Global,
    text: &[Character],
    tokens: &'a [Token],
) -> Result<(Items<Control>, &'a [Token]), Failure>
    ensures { Gives (λ p. (p.0, seen text.now p.1.now)) result (form.enclosed (form.where' (fits_auxiliary words_of_position) (controls.control_list_form no_constants)) (seen text.now tokens.now)) }
{
    enclosed_controls(alloc, text, tokens, ControlsOf::Position)
}

/// Controls in parentheses, or the unit alone. Section 12.10.4.
#[tactic(auto, unfolding(grammar_laws::specs::FormReading::choice))]
fn position_controls<'a>(
    alloc: Global,
    text: &[Character],
    tokens: &'a [Token],
) -> Result<(Items<Control>, &'a [Token]), Failure>
    ensures { Gives (λ p. (p.0, seen text.now p.1.now)) result (form.choice is_opened (form.enclosed (form.where' (fits_auxiliary words_of_position) (controls.control_list_form no_constants))) (form.meant unit_alone reading.read_expression) (seen text.now tokens.now)) }
{
    if opened(text, tokens) {
        position_with_controls(alloc, text, tokens)
    } else {
        unit_without_controls(alloc, text, tokens)
    }
}

/// BACKSPACE, ENDFILE or REWIND. Section 12.10.4.
#[tactic(auto, unfolding(grammar_laws::specs::FormReading::meant, grammar_laws::specs::FormReading::going_on))]
fn position_statement<'a>(
    alloc: Global,
    text: &[Character],
    tokens: &'a [Token],
    kind: AuxiliaryKind,
) -> Result<(Body, &'a [Token]), Failure>
    ensures { Gives (λ p. (p.0, seen text.now p.1.now)) result (controls.position_form kind (seen text.now tokens.now)) }
{
    let (controls, rest) = position_controls(alloc, text, tokens)?;
    Ok((Body::Auxiliary(kind, controls), rest))
}

/// BACKSPACE. Section 12.10.4.
pub fn backspace_statement<'a>(
    alloc: Global,
    text: &[Character],
    tokens: &'a [Token],
) -> Result<(Body, &'a [Token]), Failure>
    ensures { Gives (λ p. (p.0, seen text.now p.1.now)) result (controls.position_form auxiliary.Backspace (seen text.now tokens.now)) }
{
    position_statement(alloc, text, tokens, AuxiliaryKind::Backspace)
}

/// ENDFILE. Section 12.10.4.
pub fn endfile_statement<'a>(
    alloc: Global,
    text: &[Character],
    tokens: &'a [Token],
) -> Result<(Body, &'a [Token]), Failure>
    ensures { Gives (λ p. (p.0, seen text.now p.1.now)) result (controls.position_form auxiliary.EndFile (seen text.now tokens.now)) }
{
    position_statement(alloc, text, tokens, AuxiliaryKind::EndFile)
}

/// REWIND. Section 12.10.4.
pub fn rewind_statement<'a>(
    alloc: Global,
    text: &[Character],
    tokens: &'a [Token],
) -> Result<(Body, &'a [Token]), Failure>
    ensures { Gives (λ p. (p.0, seen text.now p.1.now)) result (controls.position_form auxiliary.Rewind (seen text.now tokens.now)) }
{
    position_statement(alloc, text, tokens, AuxiliaryKind::Rewind)
}
