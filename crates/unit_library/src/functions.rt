//! The functions of the library by their numbers (CSTR 149, appendix on the run time library).

ghost use Rattle.std.specs.Prelude.{◌≡◌, map, option_map, slice_get};
ghost use Rattle.c_tree.specs.Builtins.{signatures};
ghost use Rattle.unit_library.specs.Functions.{form_of, listed_form};

/// A function of two numbers.
#[derive(Clone, Copy)]
pub(crate) enum NumberFunction {
    Power,
    Sign,
    Difference,
    EitherBit,
    BothBits,
    OneBit,
    Shift,
    BitTest,
    BitSet,
    BitClear,
}

/// A function of two texts that gives a number.
#[derive(Clone, Copy)]
pub(crate) enum TextFunction {
    Compare,
    Index,
    NotBelow,
    Above,
    NotAbove,
    Below,
}

/// A statement on a unit.
#[derive(Clone, Copy)]
pub(crate) enum UnitStatement {
    Open,
    Close,
    Back,
    Rewind,
    End,
}

/// What a transfer is: formatted or list-directed, on a unit or on an internal file.
#[derive(Clone, Copy, PartialEq, Eq)]
pub(crate) enum TransferType {
    FormattedOutput,
    FormattedInput,
    ListedOutput,
    ListedInput,
    InternalFormattedOutput,
    InternalFormattedInput,
    InternalListedOutput,
    InternalListedInput,
}

/// A function of the library.
#[derive(Clone, Copy)]
pub(crate) enum LibraryFunction {
    /// The assignment of a text.
    Assign,
    /// The assignment of a concatenation.
    Join,
    Texts(TextFunction),
    Numbers(NumberFunction),
    /// NOT.
    Complement,
    Stop,
    /// The report of a place outside its bounds.
    Range,
    Begin(TransferType),
    Finish(TransferType),
    FormattedItems,
    ListedItems,
    Statement(UnitStatement),
}

/// The functions in the order of their numbers.
static FUNCTIONS: [LibraryFunction; 44] = [
    LibraryFunction::Assign,
    LibraryFunction::Texts(TextFunction::Compare),
    LibraryFunction::Join,
    LibraryFunction::Texts(TextFunction::Index),
    LibraryFunction::Numbers(NumberFunction::Power),
    LibraryFunction::Numbers(NumberFunction::Sign),
    LibraryFunction::Numbers(NumberFunction::Difference),
    LibraryFunction::Texts(TextFunction::NotBelow),
    LibraryFunction::Texts(TextFunction::Above),
    LibraryFunction::Texts(TextFunction::NotAbove),
    LibraryFunction::Texts(TextFunction::Below),
    LibraryFunction::Stop,
    LibraryFunction::Begin(TransferType::FormattedOutput),
    LibraryFunction::Begin(TransferType::FormattedInput),
    LibraryFunction::Begin(TransferType::ListedOutput),
    LibraryFunction::Begin(TransferType::ListedInput),
    LibraryFunction::Begin(TransferType::InternalFormattedOutput),
    LibraryFunction::Begin(TransferType::InternalFormattedInput),
    LibraryFunction::Begin(TransferType::InternalListedOutput),
    LibraryFunction::Begin(TransferType::InternalListedInput),
    LibraryFunction::FormattedItems,
    LibraryFunction::ListedItems,
    LibraryFunction::Finish(TransferType::FormattedOutput),
    LibraryFunction::Finish(TransferType::FormattedInput),
    LibraryFunction::Finish(TransferType::ListedOutput),
    LibraryFunction::Finish(TransferType::ListedInput),
    LibraryFunction::Finish(TransferType::InternalFormattedOutput),
    LibraryFunction::Finish(TransferType::InternalFormattedInput),
    LibraryFunction::Finish(TransferType::InternalListedOutput),
    LibraryFunction::Finish(TransferType::InternalListedInput),
    LibraryFunction::Statement(UnitStatement::Open),
    LibraryFunction::Statement(UnitStatement::Close),
    LibraryFunction::Statement(UnitStatement::Back),
    LibraryFunction::Statement(UnitStatement::Rewind),
    LibraryFunction::Statement(UnitStatement::End),
    LibraryFunction::Numbers(NumberFunction::EitherBit),
    LibraryFunction::Numbers(NumberFunction::BothBits),
    LibraryFunction::Numbers(NumberFunction::OneBit),
    LibraryFunction::Complement,
    LibraryFunction::Numbers(NumberFunction::Shift),
    LibraryFunction::Numbers(NumberFunction::BitTest),
    LibraryFunction::Numbers(NumberFunction::BitSet),
    LibraryFunction::Numbers(NumberFunction::BitClear),
    LibraryFunction::Range,
];

/// The functions in the order of their numbers.
fn functions() -> &'static [LibraryFunction]
    ensures { map form_of result.now ≡ map listed_form signatures }
{
    &FUNCTIONS
}

/// The function at a place, if there is one.
fn function_at(all: &[LibraryFunction], place: usize) -> Option<LibraryFunction>
    ensures { result ≡ slice_get all.now place }
{
    all.get(place).copied()
}

/// The function of a number, if there is one.
pub(crate) fn function_of(number: usize) -> Option<LibraryFunction>
    ensures { option_map form_of result ≡ option_map listed_form (slice_get signatures number) }
{
    function_at(functions(), number)
}
