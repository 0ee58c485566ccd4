//! Whether a list of controls is one of a statement. Sections 12.8.1, 12.9 and 12.10 of the standard, ANSI X3.9-1978.

ghost use Rattle.std.specs.Prelude.{◌≡◌};
ghost use Rattle.std.specs.List.{list_any};
ghost use Rattle.fortran_grammar.specs.ControlForms.{same_word, has_word, no_word_twice, has_only, fits, is_star_unit, fits_read, fits_write, fits_auxiliary};
ghost use Rattle.control_parse.specs.ControlSteps.{fits_of};

use super::controls::ControlsOf;
use f_tree::{Control, ControlValue, ControlWord};

/// The words of READ. Section 12.8.1.
static READ_WORDS: [ControlWord; 5] = [
    ControlWord::Unit,
    ControlWord::Format,
    ControlWord::Status,
    ControlWord::OnError,
    ControlWord::OnEnd,
];

/// The words of WRITE. Section 12.8.1.
static WRITE_WORDS: [ControlWord; 4] = [
    ControlWord::Unit,
    ControlWord::Format,
    ControlWord::Status,
    ControlWord::OnError,
];

/// The words of OPEN. Section 12.10.1.
static OPEN_WORDS: [ControlWord; 8] = [
    ControlWord::Unit,
    ControlWord::Status,
    ControlWord::OnError,
    ControlWord::File,
    ControlWord::FileStatus,
    ControlWord::Access,
    ControlWord::Form,
    ControlWord::Blank,
];

/// The words of CLOSE. Section 12.10.2.
static CLOSE_WORDS: [ControlWord; 4] = [
    ControlWord::Unit,
    ControlWord::Status,
    ControlWord::OnError,
    ControlWord::FileStatus,
];

/// The words of BACKSPACE, ENDFILE and REWIND. Section 12.10.4.
static POSITION_WORDS: [ControlWord; 3] = [
    ControlWord::Unit,
    ControlWord::Status,
    ControlWord::OnError,
];

/// Whether two control words are one.
#[tactic(auto, unfolding(fortran_grammar::specs::ControlForms::same_word))]
fn same_word(one: ControlWord, other: ControlWord) -> bool
    ensures { result ≡ same_word one other }
{
    match one {
        ControlWord::Unit => matches!(other, ControlWord::Unit),
        ControlWord::Format => matches!(other, ControlWord::Format),
        ControlWord::Status => matches!(other, ControlWord::Status),
        ControlWord::OnError => matches!(other, ControlWord::OnError),
        ControlWord::OnEnd => matches!(other, ControlWord::OnEnd),
        ControlWord::File => matches!(other, ControlWord::File),
        ControlWord::FileStatus => matches!(other, ControlWord::FileStatus),
        ControlWord::Access => matches!(other, ControlWord::Access),
        ControlWord::Form => matches!(other, ControlWord::Form),
        ControlWord::Blank => matches!(other, ControlWord::Blank),
    }
}

/// Whether a control word stands in a list.
#[tactic(auto, unfolding(fortran_grammar::specs::ControlForms::has_word))]
fn has_word(word: ControlWord, controls: &[Control]) -> bool
    ensures { result ≡ has_word word controls.now }
{
    controls.iter().any(|control| same_word(word, control.word))
}

/// Whether no control word stands in a list twice.
#[tactic(auto, unfolding(fortran_grammar::specs::ControlForms::no_word_twice))]
fn no_word_twice(controls: &[Control]) -> bool
    ensures { result ≡ no_word_twice controls.now }
{
    match controls {
        [] => true,
        [first, rest @ ..] => !has_word(first.word, rest) && no_word_twice(rest),
    }
}

/// Whether a control word is one of some.
fn is_one_of(words: &[ControlWord], word: ControlWord) -> bool
    ensures { result ≡ list_any (same_word word) words.now }
{
    words.iter().any(|one| same_word(word, *one))
}

/// Whether a list has only some control words.
#[tactic(auto, unfolding(fortran_grammar::specs::ControlForms::has_only))]
fn has_only(words: &[ControlWord], controls: &[Control]) -> bool
    ensures { result ≡ has_only words.now controls.now }
{
    controls
        .iter()
        .all(|control| is_one_of(words, control.word))
}

/// Whether a list as a whole has words of the statement, each once at most, and the unit.
#[tactic(auto, unfolding(fortran_grammar::specs::ControlForms::fits))]
fn fits(words: &[ControlWord], controls: &[Control]) -> bool
    ensures { result ≡ fits words.now controls.now }
{
    has_only(words, controls) && (no_word_twice(controls) && has_word(ControlWord::Unit, controls))
}

/// Whether a control is a unit that is `*`.
#[tactic(auto, unfolding(fortran_grammar::specs::ControlForms::is_star_unit))]
fn is_star_unit(control: &Control) -> bool
    ensures { result ≡ is_star_unit control.now }
{
    matches!(control.word, ControlWord::Unit) && matches!(control.value, ControlValue::Star)
}

/// Whether a list has a unit that is `*`.
fn has_star_unit(controls: &[Control]) -> bool
    ensures { result ≡ list_any is_star_unit controls.now }
{
    controls.iter().any(|control| is_star_unit(control))
}

/// Whether a list is one of READ. Section 12.8.1.
#[tactic(auto, unfolding(fortran_grammar::specs::ControlForms::fits_read))]
fn fits_read(controls: &[Control]) -> bool
    ensures { result ≡ fits_read controls.now }
{
    fits(&READ_WORDS, controls) && has_word(ControlWord::Format, controls)
}

/// Whether a list is one of WRITE. Section 12.8.1.
#[tactic(auto, unfolding(fortran_grammar::specs::ControlForms::fits_write))]
fn fits_write(controls: &[Control]) -> bool
    ensures { result ≡ fits_write controls.now }
{
    fits(&WRITE_WORDS, controls) && has_word(ControlWord::Format, controls)
}

/// Whether a list is one of a statement on a unit that transfers no item. Section 12.10.
#[tactic(auto, unfolding(fortran_grammar::specs::ControlForms::fits_auxiliary))]
fn fits_auxiliary(words: &[ControlWord], controls: &[Control]) -> bool
    ensures { result ≡ fits_auxiliary words.now controls.now }
{
    fits(words, controls) && !has_star_unit(controls)
}

/// Whether a list is one of a statement.
#[tactic(auto, unfolding(crate::specs::ControlSteps::fits_of))]
pub(super) fn is_of_statement(statement: ControlsOf, controls: &[Control]) -> bool
    ensures { result ≡ fits_of statement controls.now }
{
    match statement {
        ControlsOf::Read => fits_read(controls),
        ControlsOf::Write => fits_write(controls),
        ControlsOf::Open => fits_auxiliary(&OPEN_WORDS, controls),
        ControlsOf::Close => fits_auxiliary(&CLOSE_WORDS, controls),
        ControlsOf::Position => fits_auxiliary(&POSITION_WORDS, controls),
    }
}
