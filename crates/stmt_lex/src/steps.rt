//! What is cut at a place of a statement: a word where one may stand, or else the piece. Sections 2.2 and 3.3, and MIL-STD-1753.

ghost use Rattle.std.specs.Prelude.{◌≡◌, ◌+◌, ◌<◌, ◌≤◌, ◌^◌, ◌∷◌, ◌++◌, ◌==◌, suc, length, drop, codes, option_map, IfOk, IfSome, OnSome, None, Some, true, not, IsTrue, false};
ghost use Rattle.fortran_lexemes.specs.KindsOfStatements.{word_of, types};
ghost use Rattle.fortran_lexemes.specs.Lexemes.{Word, Then, To, Other};
ghost use Rattle.fortran_lexemes.specs.PiecesOfText.{begins, constant_end};
ghost use Rattle.fortran_lexemes.specs.PiecesOfStatements.{word_step, plain_step, depth_behind, left_behind, within, opened_step, behind_word, type_at, typed_step, statement_step, begin_step, function_step, then_step, behind_type_step, to_step, while_step, inner_step, behind_if_step, label_step, condition_step, within_step, is_then, awaiting_step, type_step, expected_step, part_step, behind_constant, behind_part, is_format, format_step, step, step_past_blank};
ghost use Rattle.fortran_lexemes.specs.declared.modes.Expected.TheVariants as expected;
ghost use Rattle.fortran_lexemes.specs.declared.modes.Mode.TheVariants as mode;
ghost use Rattle.stmt_lex.specs.declared.token.Token.TheVariants as token;
ghost use Rattle.stmt_lex.specs.SeenTokens.{lexeme_of, seen_cut, seen_step, IsStep};

use crate::classes::{begins, is_digit, is_mark};
use crate::cuts::{constant_end, cut_at};
use crate::kinds::kind_of_characters;
use crate::token::{Span, Step, Token};
use crate::words::word_of;
use fortran_lexemes::{Expected, Mode, Sign, StmtKind};
use fortran_text::Character;
use std::alloc::{AllocError, Global};

/// The most parentheses that may be open.
const DEEPEST: usize = 64;

/// Whether a word stands at the beginning of a text, of which the first character is given apart.
#[tactic(auto, unfolding(fortran_lexemes::specs::PiecesOfText::begins))]
fn begins_here(word: &[u8], first: Character, rest: &[Character]) -> bool
    ensures value { result ≡ begins word.now (first ∷ rest.now) }
    ensures fits { IsTrue result → length word.now ≤ suc (length rest.now) }
{
    match word {
        [] => true,
        [code, more @ ..] => is_mark(*code, first) && begins(more, rest),
    }
}

/// A piece that is no word of a statement.
#[tactic(auto, using(crate::proofs::StepLemmas::plain_seen))]
fn plain_step(next: Mode, first: Character, rest: &[Character]) -> Step
    ensures value { seen_step (first ∷ rest.now) result ≡ plain_step next first rest.now }
    ensures within { result.len ≤ suc (length rest.now) }
{
    let cut = cut_at(first, rest);
    Step {
        token: Some(cut.token),
        len: cut.len,
        next,
    }
}

/// A step of one token.
fn token_step(token: Token, len: usize, next: Mode) -> Step
    ensures { result ≡ record { token = Some token; len = len; next = next } }
{
    Step {
        token: Some(token),
        len,
        next,
    }
}

/// How many parentheses are open behind a character.
#[tactic(auto, unfolding(fortran_lexemes::specs::PiecesOfStatements::depth_behind))]
fn depth_behind(depth: usize, c: Character) -> usize
    requires { depth < 2 ^ 63 }
    ensures value { result ≡ depth_behind depth c }
    ensures within { result ≤ depth + 1 }
{
    if is_mark(b'(', c) {
        depth + 1
    } else if is_mark(b')', c) {
        depth.saturating_sub(1)
    } else {
        depth
    }
}

/// How many characters are left behind the parenthesis that closes the one open before a text; none where none does.
fn left_behind(text: &[Character]) -> Option<usize>
    ensures { result ≡ left_behind 1 text.now }
{
    let mut depth = 1;
    let mut rest = text;
    while depth > 0 {
        let [c, behind @ ..] = rest else {
            return None;
        };
        depth = depth_behind(depth, *c);
        rest = behind;
    }
    Some(rest.len())
}

/// A word may stand where so many characters are left.
#[tactic(auto, unfolding(fortran_lexemes::specs::PiecesOfStatements::within))]
fn within(wanted: Expected, left: Option<usize>) -> Mode
    ensures { result ≡ within wanted left }
{
    match left {
        Some(left) => Mode::Within(wanted, left),
        None => Mode::Plain,
    }
}

/// A parenthesis that opens, and behind its partner the word that is expected.
#[tactic(auto, unfolding(fortran_lexemes::specs::PiecesOfStatements::opened_step, crate::specs::SeenTokens::seen_step, crate::specs::SeenTokens::lexeme_of))]
fn opened_step(wanted: Expected, first: Character, rest: &[Character]) -> Step
    ensures value { seen_step (first ∷ rest.now) result ≡ opened_step wanted rest.now }
    ensures within { result.len ≤ suc (length rest.now) }
{
    token_step(
        Token::Mark(Sign::Open),
        1,
        within(wanted, left_behind(rest)),
    )
}

/// The mode behind the word of a statement.
#[tactic(auto, unfolding(fortran_lexemes::specs::PiecesOfStatements::behind_word))]
fn behind_word(kind: StmtKind) -> Mode
    ensures { result ≡ behind_word kind }
{
    match kind {
        StmtKind::Assign => Mode::Label,
        StmtKind::DoWhile => Mode::While,
        StmtKind::ElseIf => Mode::Condition(Expected::Then),
        StmtKind::If => Mode::Condition(Expected::ThenOrStatement),
        StmtKind::Format => Mode::Format,
        StmtKind::Implicit => Mode::Awaits(Expected::Type),
        _ => Mode::Plain,
    }
}

/// The first of these types whose word begins a text.
#[tactic(auto, unfolding(fortran_lexemes::specs::PiecesOfStatements::type_at))]
fn first_type(kinds: &[StmtKind], first: Character, rest: &[Character]) -> Option<StmtKind>
    ensures value { result ≡ type_at kinds.now (first ∷ rest.now) }
    ensures fits { IfSome result (λ kind. length (word_of kind) ≤ suc (length rest.now)) }
{
    let [kind, more @ ..] = kinds else {
        return None;
    };
    if begins_here(word_of(*kind), first, rest) {
        return Some(*kind);
    }
    first_type(more, first, rest)
}

/// The type whose word begins a text.
#[tactic(auto, unfolding(fortran_lexemes::specs::KindsOfStatements::types))]
fn type_at(first: Character, rest: &[Character]) -> Option<StmtKind>
    ensures value { result ≡ type_at types (first ∷ rest.now) }
    ensures fits { IfSome result (λ kind. length (word_of kind) ≤ suc (length rest.now)) }
{
    let types = [
        StmtKind::Integer,
        StmtKind::Real,
        StmtKind::DoublePrecision,
        StmtKind::Complex,
        StmtKind::Logical,
        StmtKind::Character,
    ];
    first_type(&types, first, rest)
}

/// The word of a statement of a kind, and which words may stand behind it.
fn word_step(kind: StmtKind, next: Mode) -> Step
    ensures { result ≡ record { token = Some (token.Word kind); len = length (word_of kind); next = next } }
{
    token_step(Token::Word(kind), word_of(kind).len(), next)
}

/// The beginning of a statement of a kind that has a word: the word, if it stands there.
#[tactic(auto, unfolding(fortran_lexemes::specs::PiecesOfStatements::statement_step, crate::specs::SeenTokens::seen_step, crate::specs::SeenTokens::lexeme_of))]
fn statement_step(kind: StmtKind, first: Character, rest: &[Character]) -> Step
    ensures value { seen_step (first ∷ rest.now) result ≡ statement_step kind first rest.now }
    ensures within { result.len ≤ suc (length rest.now) }
{
    if begins_here(word_of(kind), first, rest) {
        word_step(kind, behind_word(kind))
    } else {
        plain_step(Mode::Plain, first, rest)
    }
}

/// The beginning of FUNCTION with or without a type.
#[tactic(auto, unfolding(fortran_lexemes::specs::PiecesOfStatements::typed_step, crate::specs::SeenTokens::seen_step, crate::specs::SeenTokens::lexeme_of))]
fn typed_step(first: Character, rest: &[Character]) -> Step
    ensures value { seen_step (first ∷ rest.now) result ≡ typed_step (type_at types (first ∷ rest.now)) first rest.now }
    ensures within { result.len ≤ suc (length rest.now) }
{
    match type_at(first, rest) {
        Some(kind) => word_step(kind, Mode::Awaits(Expected::Function)),
        None => plain_step(Mode::Plain, first, rest),
    }
}

/// The beginning of a function.
#[tactic(auto, unfolding(fortran_lexemes::specs::PiecesOfStatements::function_step))]
fn function_step(first: Character, rest: &[Character]) -> Step
    ensures value { seen_step (first ∷ rest.now) result ≡ function_step first rest.now }
    ensures within { result.len ≤ suc (length rest.now) }
{
    if begins_here(word_of(StmtKind::Function), first, rest) {
        statement_step(StmtKind::Function, first, rest)
    } else {
        typed_step(first, rest)
    }
}

/// The beginning of a statement.
#[tactic(auto, unfolding(fortran_lexemes::specs::PiecesOfStatements::begin_step))]
fn begin_step(kind: StmtKind, first: Character, rest: &[Character]) -> Step
    ensures value { seen_step (first ∷ rest.now) result ≡ begin_step kind first rest.now }
    ensures within { result.len ≤ suc (length rest.now) }
{
    match kind {
        StmtKind::Assignment => plain_step(Mode::Plain, first, rest),
        StmtKind::Function => function_step(first, rest),
        _ => statement_step(kind, first, rest),
    }
}

/// Whether a text is THEN alone.
#[tactic(auto, unfolding(fortran_lexemes::specs::PiecesOfStatements::is_then))]
fn is_then(first: Character, rest: &[Character]) -> bool
    ensures value { result ≡ is_then (first ∷ rest.now) }
    ensures alone { IsTrue result → length rest.now ≡ 3 }
{
    begins_here(b"then", first, rest) && rest.len() == 3
}

/// A word that may stand further on.
#[tactic(auto, unfolding(fortran_lexemes::specs::PiecesOfStatements::awaiting_step))]
fn awaiting_step(wanted: Expected, first: Character, rest: &[Character]) -> Step
    ensures value { seen_step (first ∷ rest.now) result ≡ awaiting_step wanted first rest.now }
    ensures within { result.len ≤ suc (length rest.now) }
{
    if is_mark(b'(', first) {
        opened_step(wanted, first, rest)
    } else {
        plain_step(Mode::Awaits(wanted), first, rest)
    }
}

/// A type in IMPLICIT.
#[tactic(auto, unfolding(fortran_lexemes::specs::PiecesOfStatements::type_step, crate::specs::SeenTokens::seen_step, crate::specs::SeenTokens::lexeme_of))]
fn type_step(first: Character, rest: &[Character]) -> Step
    ensures value { seen_step (first ∷ rest.now) result ≡ type_step (type_at types (first ∷ rest.now)) first rest.now }
    ensures within { result.len ≤ suc (length rest.now) }
{
    match type_at(first, rest) {
        Some(kind) => word_step(kind, Mode::Awaits(Expected::Type)),
        None => awaiting_step(Expected::Type, first, rest),
    }
}

/// FUNCTION behind a type.
#[tactic(auto, unfolding(fortran_lexemes::specs::PiecesOfStatements::behind_type_step))]
fn behind_type_step(first: Character, rest: &[Character]) -> Step
    ensures value { seen_step (first ∷ rest.now) result ≡ behind_type_step first rest.now }
    ensures within { result.len ≤ suc (length rest.now) }
{
    if begins_here(word_of(StmtKind::Function), first, rest) {
        statement_step(StmtKind::Function, first, rest)
    } else {
        awaiting_step(Expected::Function, first, rest)
    }
}

/// THEN alone, or a piece.
#[tactic(auto, unfolding(fortran_lexemes::specs::PiecesOfStatements::then_step, crate::specs::SeenTokens::seen_step, crate::specs::SeenTokens::lexeme_of))]
fn then_step(first: Character, rest: &[Character]) -> Step
    ensures value { seen_step (first ∷ rest.now) result ≡ then_step first rest.now }
    ensures within { result.len ≤ suc (length rest.now) }
{
    if is_then(first, rest) {
        token_step(Token::Then, 4, Mode::Plain)
    } else {
        plain_step(Mode::Plain, first, rest)
    }
}

/// TO, or a piece.
#[tactic(auto, unfolding(fortran_lexemes::specs::PiecesOfStatements::to_step, crate::specs::SeenTokens::seen_step, crate::specs::SeenTokens::lexeme_of))]
fn to_step(first: Character, rest: &[Character]) -> Step
    ensures value { seen_step (first ∷ rest.now) result ≡ to_step first rest.now }
    ensures within { result.len ≤ suc (length rest.now) }
{
    if begins_here(b"to", first, rest) {
        token_step(Token::To, 2, Mode::Plain)
    } else {
        plain_step(Mode::Plain, first, rest)
    }
}

/// WHILE, which is passed over, or a piece.
#[tactic(auto, unfolding(fortran_lexemes::specs::PiecesOfStatements::while_step, crate::specs::SeenTokens::seen_step, crate::specs::SeenTokens::lexeme_of))]
fn while_step(first: Character, rest: &[Character]) -> Step
    ensures value { seen_step (first ∷ rest.now) result ≡ while_step first rest.now }
    ensures within { result.len ≤ suc (length rest.now) }
{
    if begins_here(b"while", first, rest) {
        Step {
            token: None,
            len: 5,
            next: Mode::Plain,
        }
    } else {
        plain_step(Mode::While, first, rest)
    }
}

/// The beginning of the statement that an IF may have in it.
#[tactic(auto, unfolding(fortran_lexemes::specs::PiecesOfStatements::inner_step))]
fn inner_step(kind: Option<StmtKind>, first: Character, rest: &[Character]) -> Step
    ensures value { seen_step (first ∷ rest.now) result ≡ inner_step kind first rest.now }
    ensures within { result.len ≤ suc (length rest.now) }
{
    match kind {
        Some(kind) => begin_step(kind, first, rest),
        None => plain_step(Mode::Plain, first, rest),
    }
}

/// What stands behind the condition of IF: the text, also by its first character and the others.
#[tactic(auto, using(crate::proofs::StepLemmas::then_behind_if, crate::proofs::StepLemmas::inner_behind_if))]
fn behind_if_step(
    alloc: Global,
    text: &[Character],
    first: Character,
    rest: &[Character],
) -> Result<Step, AllocError>
    requires { text.now ≡ first ∷ rest.now }
    ensures { IfOk result (IsStep first rest.now (behind_if_step first rest.now)) }
{
    if is_then(first, rest) {
        return Ok(token_step(Token::Then, 4, Mode::Plain));
    }
    Ok(inner_step(kind_of_characters(false, text), first, rest))
}

/// The word that is expected, if it stands there.
#[tactic(auto, unfolding(fortran_lexemes::specs::PiecesOfStatements::expected_step))]
fn expected_step(
    alloc: Global,
    wanted: Expected,
    text: &[Character],
    first: Character,
    rest: &[Character],
) -> Result<Step, AllocError>
    requires { text.now ≡ first ∷ rest.now }
    ensures { IfOk result (IsStep first rest.now (expected_step wanted first rest.now)) }
{
    match wanted {
        Expected::Then => Ok(then_step(first, rest)),
        Expected::ThenOrStatement => behind_if_step(alloc, text, first, rest),
        Expected::Type => Ok(type_step(first, rest)),
        Expected::Function => Ok(behind_type_step(first, rest)),
    }
}

/// What stands in a FORMAT statement whose text is no format.
#[tactic(auto, unfolding(fortran_lexemes::specs::PiecesOfStatements::part_step, crate::specs::SeenTokens::seen_step, crate::specs::SeenTokens::lexeme_of))]
fn part_step(first: Character, rest: &[Character]) -> Step
    ensures value { seen_step (first ∷ rest.now) result ≡ part_step first rest.now }
    ensures within { result.len ≤ suc (length rest.now) }
{
    if is_mark(b'\'', first) || is_mark(b'(', first) || is_mark(b')', first) {
        plain_step(Mode::FormatParts, first, rest)
    } else {
        token_step(Token::Other(first.code), 1, Mode::FormatParts)
    }
}

/// What is left behind a constant, by the text behind its first apostrophe; none where it is empty or not closed.
#[tactic(auto, using(crate::proofs::StepLemmas::constant_open, crate::proofs::StepLemmas::constant_empty, crate::proofs::StepLemmas::constant_full))]
fn behind_constant(rest: &[Character]) -> Option<&[Character]>
    ensures { option_map (λ left. left.now) result ≡ behind_constant (constant_end 0 rest.now) rest.now }
{
    let Some(n) = constant_end(rest) else {
        return None;
    };
    if n == 0 {
        return None;
    }
    Some(&rest[n + 1..])
}

/// What is left behind a character of a format, or behind the constant that it opens.
#[tactic(auto, unfolding(fortran_lexemes::specs::PiecesOfStatements::behind_part))]
fn behind_part(first: Character, rest: &[Character]) -> Option<&[Character]>
    ensures { option_map (λ left. left.now) result ≡ behind_part first rest.now }
{
    if is_mark(b'\'', first) {
        behind_constant(rest)
    } else {
        Some(rest)
    }
}

/// Whether a text is that of a format behind its opening parenthesis.
fn is_format(text: &[Character]) -> bool
    ensures { result ≡ is_format (suc (length text.now)) 1 (Some text.now) }
{
    let mut depth = 1;
    let mut rest = text;
    for _ in 0..text.len() + 1 {
        let [c, behind @ ..] = rest else {
            return depth == 0;
        };
        if depth == 0 {
            return false;
        }
        if depth > DEEPEST {
            return false;
        }
        let Some(left) = behind_part(*c, behind) else {
            return false;
        };
        depth = depth_behind(depth, *c);
        rest = left;
    }
    false
}

/// The text of a FORMAT statement.
#[tactic(auto, using(crate::proofs::StepLemmas::whole_format, crate::proofs::StepLemmas::no_format))]
fn format_step(first: Character, rest: &[Character]) -> Step
    ensures value { seen_step (first ∷ rest.now) result ≡ format_step first rest.now }
    ensures within { result.len ≤ suc (length rest.now) }
{
    if is_mark(b'(', first) && is_format(rest) {
        let len = rest.len() + 1;
        return token_step(Token::FormatText(Span { from: 0, len }), len, Mode::Plain);
    }
    part_step(first, rest)
}

/// A label, and TO behind it.
#[tactic(auto, unfolding(fortran_lexemes::specs::PiecesOfStatements::label_step))]
fn label_step(first: Character, rest: &[Character]) -> Step
    ensures value { seen_step (first ∷ rest.now) result ≡ label_step first rest.now }
    ensures within { result.len ≤ suc (length rest.now) }
{
    if is_digit(first) {
        plain_step(Mode::To, first, rest)
    } else {
        plain_step(Mode::Plain, first, rest)
    }
}

/// A condition in parentheses.
#[tactic(auto, unfolding(fortran_lexemes::specs::PiecesOfStatements::condition_step))]
fn condition_step(wanted: Expected, first: Character, rest: &[Character]) -> Step
    ensures value { seen_step (first ∷ rest.now) result ≡ condition_step wanted first rest.now }
    ensures within { result.len ≤ suc (length rest.now) }
{
    if is_mark(b'(', first) {
        opened_step(wanted, first, rest)
    } else {
        plain_step(Mode::Plain, first, rest)
    }
}

/// What is cut where a word may need a look at all that follows.
#[tactic(auto, unfolding(fortran_lexemes::specs::PiecesOfStatements::step))]
fn step(
    alloc: Global,
    mode: Mode,
    text: &[Character],
    first: Character,
    rest: &[Character],
) -> Result<Step, AllocError>
    requires { text.now ≡ first ∷ rest.now }
    ensures { IfOk result (IsStep first rest.now (step mode first rest.now)) }
{
    match mode {
        Mode::Begins(kind) => Ok(begin_step(kind, first, rest)),
        Mode::Plain => Ok(plain_step(Mode::Plain, first, rest)),
        Mode::Label => Ok(label_step(first, rest)),
        Mode::To => Ok(to_step(first, rest)),
        Mode::While => Ok(while_step(first, rest)),
        Mode::Condition(wanted) => Ok(condition_step(wanted, first, rest)),
        Mode::Awaits(wanted) => expected_step(alloc, wanted, text, first, rest),
        Mode::Within(wanted, left) => within_step(alloc, wanted, left, text, first, rest),
        Mode::Format => Ok(format_step(first, rest)),
        Mode::FormatParts => Ok(part_step(first, rest)),
    }
}

/// The word that is expected behind the parentheses in which a place stands.
#[tactic(auto, unfolding(fortran_lexemes::specs::PiecesOfStatements::within_step))]
fn within_step(
    alloc: Global,
    wanted: Expected,
    left: usize,
    text: &[Character],
    first: Character,
    rest: &[Character],
) -> Result<Step, AllocError>
    requires { text.now ≡ first ∷ rest.now }
    ensures { IfOk result (IsStep first rest.now (within_step wanted left first rest.now)) }
{
    if rest.len() + 1 == left {
        expected_step(alloc, wanted, text, first, rest)
    } else {
        Ok(plain_step(Mode::Within(wanted, left), first, rest))
    }
}

/// What is cut at a place: the blank that stays between two constants is no piece.
#[tactic(auto, unfolding(fortran_lexemes::specs::PiecesOfStatements::step_past_blank, crate::specs::SeenTokens::seen_step))]
pub(crate) fn step_past_blank(
    alloc: Global,
    mode: Mode,
    text: &[Character],
    first: Character,
    rest: &[Character],
) -> Result<Step, AllocError>
    requires { text.now ≡ first ∷ rest.now }
    ensures { IfOk result (IsStep first rest.now (step_past_blank mode first rest.now)) }
{
    if is_mark(b' ', first) {
        return Ok(Step {
            token: None,
            len: 1,
            next: mode,
        });
    }
    step(alloc, mode, text, first, rest)
}
