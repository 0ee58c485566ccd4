//! The lists of OPEN, CLOSE, BACKSPACE, REWIND and ENDFILE (ANSI X3.9-1978, 12.10).

ghost use Rattle.std.specs.Prelude.{◌≡◌, ℤ, option_map};
ghost use Rattle.c_tree.specs.LibraryUnits as statements;
ghost use Rattle.run_bytes.specs.Answers.{answered};
ghost use Rattle.control_lists.specs.Files.{opening, closing, positioning, name_shown, open_shown, close_shown, position_shown};

use crate::fields::{field, list_at, number_field, text_field};
use crate::values::{as_number, length_from};
use c_tree::outcome::{CFault, CValue};
use c_tree::types::ListType;
use run_bytes::{AccessType, FieldType, RunBytes};

/// What an `olist` says (12.10.1).
#[derive(Clone, Copy, Debug, PartialEq, Eq)]
pub struct OpenList<'a> {
    /// Other than 0 where the number of an error is answered to the caller.
    pub on_error: i32,
    /// The unit.
    pub unit: i32,
    /// The name of the file without the blanks at its end; where none is given, the file has the name of the unit.
    pub name: Option<&'a [u8]>,
    /// Whether blanks in a number are read as zeros.
    pub zero_blanks: bool,
}

/// What a `cllist` says (12.10.2).
#[derive(Clone, Copy, Debug, PartialEq, Eq)]
pub struct CloseList {
    /// Other than 0 where the number of an error is answered to the caller.
    pub on_error: i32,
    /// The unit.
    pub unit: i32,
}

/// What an `alist` says, which BACKSPACE, REWIND and ENDFILE take (12.10.4).
#[derive(Clone, Copy, Debug, PartialEq, Eq)]
pub struct PositionList {
    /// Other than 0 where the number of an error is answered to the caller.
    pub on_error: i32,
    /// The unit.
    pub unit: i32,
}

/// A name without the blanks at its end.
fn trimmed(name: &[u8]) -> &[u8]
    ensures { result.now ≡ statements.trimmed name.now }
{
    let mut end = name.len();
    while end > 0 && name[end - 1] == b' ' {
        end -= 1;
    }
    &name[..end]
}

/// The name of a file, where one is given.
fn name_given(run: &RunBytes, name: CValue, size: CValue) -> Result<Option<&[u8]>, CFault>
    ensures { (unit : ℤ) → answered (λ given. name_shown unit (option_map (λ name. name.now) given)) result ≡ statements.name_given run.now unit name size }
{
    if matches!(name, CValue::Null) {
        return Ok(None);
    }
    let count = length_from(size)?;
    let text = run.text(name, count)?;
    Ok(Some(trimmed(text)))
}

/// Whether blanks in a number are read as zeros: the text that says so begins with Z or z.
fn zero_blanks_given(run: &RunBytes, blanks: CValue) -> Result<bool, CFault>
    ensures { answered (λ given. given) result ≡ statements.zero_blanks_given run.now blanks }
{
    if matches!(blanks, CValue::Null) {
        return Ok(false);
    }
    let typed = run.fetch(blanks, AccessType::Byte)?;
    let byte = as_number(typed.value)?;
    Ok(byte == 90 || byte == 122)
}

/// What the list of OPEN says.
///
/// # Errors
/// `Outside` and `Kind` for what is no `olist`, `Unset` for a field or a byte of a text that was not set, `Library` for a negative length
/// of the name, and the fault of the access to the name, or to the text that says what blanks are.
pub fn open_list(run: &RunBytes, pointer: CValue) -> Result<OpenList<'_>, CFault>
    ensures { answered open_shown result ≡ opening run.now pointer }
{
    let list = list_at(run, ListType::Open, pointer)?;
    let on_error = number_field(run, list, 0)?;
    let unit = number_field(run, list, 1)?;
    let start = text_field(run, list, 2)?;
    let size = field(run, list, 3, FieldType::Number)?;
    let name = name_given(run, start, size)?;
    let blanks = text_field(run, list, 8)?;
    let zero_blanks = zero_blanks_given(run, blanks)?;
    Ok(OpenList {
        on_error,
        unit,
        name,
        zero_blanks,
    })
}

/// What the list of CLOSE says.
///
/// # Errors
/// `Outside` and `Kind` for what is no `cllist`, `Unset` for a field that was not set.
pub fn close_list(run: &RunBytes, pointer: CValue) -> Result<CloseList, CFault>
    ensures { answered close_shown result ≡ closing run.now pointer }
{
    let list = list_at(run, ListType::Close, pointer)?;
    let on_error = number_field(run, list, 0)?;
    let unit = number_field(run, list, 1)?;
    Ok(CloseList { on_error, unit })
}

/// What the list of BACKSPACE, REWIND or ENDFILE says.
///
/// # Errors
/// `Outside` and `Kind` for what is no `alist`, `Unset` for a field that was not set.
pub fn position_list(run: &RunBytes, pointer: CValue) -> Result<PositionList, CFault>
    ensures { answered position_shown result ≡ positioning run.now pointer }
{
    let list = list_at(run, ListType::Position, pointer)?;
    let on_error = number_field(run, list, 0)?;
    let unit = number_field(run, list, 1)?;
    Ok(PositionList { on_error, unit })
}
