//! The control list of a transfer (ANSI X3.9-1978, 12.8).

ghost use Rattle.std.specs.Prelude.{◌≡◌, ◌<◌, codes, IfOk};
ghost use Rattle.c_tree.specs.declared.types.ListType.TheVariants as list_type;
ghost use Rattle.c_tree.specs.Transfers as transfers;
ghost use Rattle.run_bytes.specs.Answers.{answered};
ghost use Rattle.control_lists.specs.Controls.{unit_shown, internal_shown, internal_fields, file_start};

use crate::fields::{list_at, number_field, text_field};
use crate::values::count_from;
use c_tree::outcome::{CFault, CValue};
use c_tree::types::ListType;
use run_bytes::RunBytes;

/// What a `cilist` says: the unit, and whether an error and the end of the file are answered to the caller, where it is not 0.
#[derive(Clone, Copy, Debug, PartialEq, Eq)]
pub struct UnitControl {
    /// The unit.
    pub unit: i32,
    /// Other than 0 where the number of an error is answered to the caller.
    pub on_error: i32,
    /// Other than 0 where the end of the file is answered to the caller.
    pub on_end: i32,
}

/// What an `icilist` says: the records of the internal file, and whether an error and its end are answered to the caller.
#[derive(Clone, Copy, Debug, PartialEq, Eq)]
pub struct InternalControl {
    /// The object in which the first record stands.
    pub object: usize,
    /// Where the first record begins.
    pub offset: usize,
    /// The bytes of a record.
    pub size: usize,
    /// How many records there are.
    pub count: usize,
    /// Other than 0 where the number of an error is answered to the caller.
    pub on_error: i32,
    /// Other than 0 where the end of the file is answered to the caller.
    pub on_end: i32,
}

/// The number of the field of the format in a `cilist` and in an `icilist`.
const FORMAT: usize = 3;

/// What a control list says of a transfer on a unit.
///
/// # Errors
/// `Outside` and `Kind` for what is no `cilist`, `Unset` for a field that was not set.
pub fn unit_control(run: &RunBytes, pointer: CValue) -> Result<UnitControl, CFault>
    ensures { answered unit_shown result ≡ transfers.unit_control run.now pointer }
{
    let list = list_at(run, ListType::Transfer, pointer)?;
    let on_error = number_field(run, list, 0)?;
    let unit = number_field(run, list, 1)?;
    let on_end = number_field(run, list, 2)?;
    Ok(UnitControl {
        unit,
        on_error,
        on_end,
    })
}

/// The fields of an `icilist` behind which the internal file is known.
#[derive(Clone, Copy)]
struct InternalFields {
    on_error: i32,
    start: CValue,
    on_end: i32,
    record_length: i32,
    record_count: i32,
}

/// The fields of an `icilist`, without its format.
fn internal_fields(run: &RunBytes, pointer: CValue) -> Result<InternalFields, CFault>
    ensures { answered (λ fields. fields) result ≡ internal_fields run.now pointer }
{
    let list = list_at(run, ListType::Internal, pointer)?;
    let on_error = number_field(run, list, 0)?;
    let start = text_field(run, list, 1)?;
    let on_end = number_field(run, list, 2)?;
    let record_length = number_field(run, list, 4)?;
    let record_count = number_field(run, list, 5)?;
    Ok(InternalFields {
        on_error,
        start,
        on_end,
        record_length,
        record_count,
    })
}

/// The object and the offset at which an internal file begins.
fn file_start(start: CValue) -> Result<(usize, usize), CFault>
    ensures { answered (λ place. (place.0, place.1)) result ≡ file_start start }
{
    match start {
        CValue::Pointer { object, offset } => Ok((object, offset)),
        CValue::Null => Err(CFault::Outside),
        _ => Err(CFault::Kind),
    }
}

/// What a control list says of a transfer on an internal file.
///
/// # Errors
/// `Outside` and `Kind` for what is no `icilist`, `Unset` for a field that was not set, `Library` for a negative length or count, and
/// `Outside` for null in place of the file.
pub fn internal_control(run: &RunBytes, pointer: CValue) -> Result<InternalControl, CFault>
    ensures { answered internal_shown result ≡ transfers.internal_control run.now pointer }
{
    let fields = internal_fields(run, pointer)?;
    let size = count_from(fields.record_length)?;
    let count = count_from(fields.record_count)?;
    let (object, offset) = file_start(fields.start)?;
    Ok(InternalControl {
        object,
        offset,
        size,
        count,
        on_error: fields.on_error,
        on_end: fields.on_end,
    })
}

/// The pointer to the format that a `cilist` names, or null.
///
/// # Errors
/// `Outside` and `Kind` for what is no `cilist`, `Unset` for a field that was not set.
pub fn unit_format(run: &RunBytes, pointer: CValue) -> Result<CValue, CFault>
    ensures { answered (λ format. format) result ≡ transfers.format_field list_type.Transfer (codes "cifmt") run.now pointer }
{
    let list = list_at(run, ListType::Transfer, pointer)?;
    text_field(run, list, FORMAT)
}

/// The pointer to the format that an `icilist` names, or null.
///
/// # Errors
/// `Outside` and `Kind` for what is no `icilist`, `Unset` for a field that was not set.
pub fn internal_format(run: &RunBytes, pointer: CValue) -> Result<CValue, CFault>
    ensures { answered (λ format. format) result ≡ transfers.format_field list_type.Internal (codes "icifmt") run.now pointer }
{
    let list = list_at(run, ListType::Internal, pointer)?;
    text_field(run, list, FORMAT)
}
