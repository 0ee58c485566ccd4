//! The fields of the control lists that calls of the library take (C89, 3.3.2.3, and f2c.h). No name is a field of two lists.

ghost use Rattle.std.specs.Prelude.{◌≡◌, IfSome};
ghost use Rattle.linked_terms.specs.ListFields.{name_of_field, all_fields, first_named};

/// A field of a control list.
#[derive(Clone, Copy, Debug, PartialEq, Eq)]
pub enum ListField {
    /// Whether an error is left to the program, of a transfer on a unit: `cierr`.
    TransferError,
    /// The unit of a transfer: `ciunit`.
    TransferUnit,
    /// Whether the end of the file is left to the program, of a transfer on a unit: `ciend`.
    TransferEnd,
    /// The format of a transfer on a unit: `cifmt`.
    TransferFormat,
    /// The number of the record of a transfer on a unit: `cirec`.
    TransferRecord,
    /// Whether an error is left to the program, of a transfer on an internal file: `icierr`.
    InternalError,
    /// The internal file of a transfer: `iciunit`.
    InternalUnit,
    /// Whether the end of the file is left to the program, of a transfer on an internal file: `iciend`.
    InternalEnd,
    /// The format of a transfer on an internal file: `icifmt`.
    InternalFormat,
    /// The length of a record of an internal file: `icirlen`.
    InternalLength,
    /// The number of records of an internal file: `icirnum`.
    InternalCount,
    /// Whether an error of OPEN is left to the program: `oerr`.
    OpenError,
    /// The unit of OPEN: `ounit`.
    OpenUnit,
    /// The name of the file of OPEN: `ofnm`.
    OpenFile,
    /// The length of the name of the file of OPEN: `ofnmlen`.
    OpenFileLength,
    /// The status of the file of OPEN: `osta`.
    OpenStatus,
    /// The access of OPEN: `oacc`.
    OpenAccess,
    /// The form of OPEN: `ofm`.
    OpenForm,
    /// The length of a record of OPEN: `orl`.
    OpenLength,
    /// What blanks mean, of OPEN: `oblnk`.
    OpenBlank,
    /// Whether an error of CLOSE is left to the program: `cerr`.
    CloseError,
    /// The unit of CLOSE: `cunit`.
    CloseUnit,
    /// The status of the file of CLOSE: `csta`.
    CloseStatus,
    /// Whether an error of BACKSPACE, REWIND or ENDFILE is left to the program: `aerr`.
    PositionError,
    /// The unit of BACKSPACE, REWIND or ENDFILE: `aunit`.
    PositionUnit,
}

/// The fields of all control lists.
static FIELDS: [ListField; 25] = [
    ListField::TransferError,
    ListField::TransferUnit,
    ListField::TransferEnd,
    ListField::TransferFormat,
    ListField::TransferRecord,
    ListField::InternalError,
    ListField::InternalUnit,
    ListField::InternalEnd,
    ListField::InternalFormat,
    ListField::InternalLength,
    ListField::InternalCount,
    ListField::OpenError,
    ListField::OpenUnit,
    ListField::OpenFile,
    ListField::OpenFileLength,
    ListField::OpenStatus,
    ListField::OpenAccess,
    ListField::OpenForm,
    ListField::OpenLength,
    ListField::OpenBlank,
    ListField::CloseError,
    ListField::CloseUnit,
    ListField::CloseStatus,
    ListField::PositionError,
    ListField::PositionUnit,
];

/// The name of a field.
fn name_of(field: ListField) -> &'static [u8]
    ensures { result.now ≡ name_of_field field }
{
    match field {
        ListField::TransferError => b"cierr",
        ListField::TransferUnit => b"ciunit",
        ListField::TransferEnd => b"ciend",
        ListField::TransferFormat => b"cifmt",
        ListField::TransferRecord => b"cirec",
        ListField::InternalError => b"icierr",
        ListField::InternalUnit => b"iciunit",
        ListField::InternalEnd => b"iciend",
        ListField::InternalFormat => b"icifmt",
        ListField::InternalLength => b"icirlen",
        ListField::InternalCount => b"icirnum",
        ListField::OpenError => b"oerr",
        ListField::OpenUnit => b"ounit",
        ListField::OpenFile => b"ofnm",
        ListField::OpenFileLength => b"ofnmlen",
        ListField::OpenStatus => b"osta",
        ListField::OpenAccess => b"oacc",
        ListField::OpenForm => b"ofm",
        ListField::OpenLength => b"orl",
        ListField::OpenBlank => b"oblnk",
        ListField::CloseError => b"cerr",
        ListField::CloseUnit => b"cunit",
        ListField::CloseStatus => b"csta",
        ListField::PositionError => b"aerr",
        ListField::PositionUnit => b"aunit",
    }
}

/// The one of these fields that has a name.
#[tactic(auto, unfolding(crate::specs::ListFields::first_named))]
fn field_in(fields: &[ListField], name: &[u8]) -> Option<ListField>
    ensures first { result ≡ first_named name.now fields.now }
    ensures named { IfSome result (λ field. name_of_field field ≡ name.now) }
{
    match fields {
        [] => None,
        [first, ..] if name == name_of(*first) => Some(*first),
        [_, rest @ ..] => field_in(rest, name),
    }
}

/// The field of a control list that has a name.
pub fn list_field(name: &[u8]) -> Option<ListField>
    ensures first { result ≡ first_named name.now all_fields }
    ensures named { IfSome result (λ field. name_of_field field ≡ name.now) }
{
    field_in(&FIELDS, name)
}
