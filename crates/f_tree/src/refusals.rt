//! The rows by which a file is refused.
#![tactic(auto)]

ghost use Rattle.std.specs.Prelude.{◌≡◌};
ghost use Rattle.f_tree.specs.RefusalRows.{number_of, text_of};
ghost use Rattle.f_tree.specs.declared.refusals.Fail.TheVariants.{NoMemory};

use std::alloc::AllocError;

/// Why a file is refused, one variant for each row of the table of refusals.
#[derive(Clone, Copy, Debug, PartialEq, Eq)]
pub enum Kind {
    /// F01 `character outside the set`
    CharacterOutsideSet,
    /// F02 `bad label field`
    BadLabelField,
    /// F03 `more than 19 continuations`
    TooManyContinuations,
    /// F04 `continuation without statement`
    ContinuationWithoutStatement,
    /// F05 `text past column 72`
    TextPastColumn72,
    /// F06 `no END`
    NoEnd,
    /// F07 `file too long`
    FileTooLong,
    /// F10 `unknown statement`
    UnknownStatement,
    /// F11 `syntax error`
    SyntaxError,
    /// F12 `integer too large`
    IntegerTooLarge,
    /// F13 `name too long`
    NameTooLong,
    /// F14 `bad character constant`
    BadCharacterConstant,
    /// F15 `type not supported`
    TypeNotSupported,
    /// F16 `statement or specifier not supported`
    StatementOrSpecifierNotSupported,
    /// F17 `nesting too deep`
    NestingTooDeep,
    /// F20 `name has type REAL`
    NameHasTypeReal,
    /// F21 `name not declared`
    NameNotDeclared,
    /// F22 `conflicting attributes`
    ConflictingAttributes,
    /// F23 `bound not constant`
    BoundNotConstant,
    /// F24 `array of no element`
    ArrayOfNoElement,
    /// F25 `statement out of order`
    StatementOutOfOrder,
    /// F26 `bad PARAMETER value`
    BadParameterValue,
    /// F27 `label missing or twice`
    LabelMissingOrTwice,
    /// F28 `branch into a block`
    BranchIntoBlock,
    /// F29 `bad DO nest`
    BadDoNest,
    /// F30 `bad IF nest`
    BadIfNest,
    /// F31 `operand types`
    OperandTypes,
    /// F32 `number of subscripts`
    NumberOfSubscripts,
    /// F33 `not assignable`
    NotAssignable,
    /// F34 `bad DATA`
    BadData,
    /// F35 `EQUIVALENCE contradiction`
    EquivalenceContradiction,
    /// F36 `common joined or extended`
    CommonJoinedOrExtended,
    /// F38 `common initialised`
    CommonInitialised,
    /// F39 `use of (*)`
    UseOfAssumedLength,
    /// F40 `bad statement function`
    BadStatementFunction,
    /// F41 `bad ENTRY`
    BadEntry,
    /// F42 `character function as argument`
    CharacterFunctionAsArgument,
    /// F43 `two shapes of call`
    TwoShapesOfCall,
    /// F44 `bad format`
    BadFormat,
    /// F45 `edit descriptor not supported`
    EditDescriptorNotSupported,
    /// F46 `numeric place not on a word`
    NumericPlaceNotOnAWord,
    /// F47 `END or INCLUDE in an included file`
    EndOrIncludeInAnIncludedFile,
    /// F50 `common lengths differ`
    CommonLengthsDiffer,
    /// F51 `global name twice`
    GlobalNameTwice,
    /// F52 `two main programs`
    TwoMainPrograms,
    /// F53 `storage too large`
    StorageTooLarge,
    /// F54 `common initialised twice`
    CommonInitialisedTwice,
    /// F99 `not built yet`
    NotBuiltYet,
}

impl Kind {
    /// The number of the row: 1 for F01.
    pub fn number(self) -> u8
        ensures { result ≡ number_of self }
    {
        match self {
            Kind::CharacterOutsideSet => 1,
            Kind::BadLabelField => 2,
            Kind::TooManyContinuations => 3,
            Kind::ContinuationWithoutStatement => 4,
            Kind::TextPastColumn72 => 5,
            Kind::NoEnd => 6,
            Kind::FileTooLong => 7,
            Kind::UnknownStatement => 10,
            Kind::SyntaxError => 11,
            Kind::IntegerTooLarge => 12,
            Kind::NameTooLong => 13,
            Kind::BadCharacterConstant => 14,
            Kind::TypeNotSupported => 15,
            Kind::StatementOrSpecifierNotSupported => 16,
            Kind::NestingTooDeep => 17,
            Kind::NameHasTypeReal => 20,
            Kind::NameNotDeclared => 21,
            Kind::ConflictingAttributes => 22,
            Kind::BoundNotConstant => 23,
            Kind::ArrayOfNoElement => 24,
            Kind::StatementOutOfOrder => 25,
            Kind::BadParameterValue => 26,
            Kind::LabelMissingOrTwice => 27,
            Kind::BranchIntoBlock => 28,
            Kind::BadDoNest => 29,
            Kind::BadIfNest => 30,
            Kind::OperandTypes => 31,
            Kind::NumberOfSubscripts => 32,
            Kind::NotAssignable => 33,
            Kind::BadData => 34,
            Kind::EquivalenceContradiction => 35,
            Kind::CommonJoinedOrExtended => 36,
            Kind::CommonInitialised => 38,
            Kind::UseOfAssumedLength => 39,
            Kind::BadStatementFunction => 40,
            Kind::BadEntry => 41,
            Kind::CharacterFunctionAsArgument => 42,
            Kind::TwoShapesOfCall => 43,
            Kind::BadFormat => 44,
            Kind::EditDescriptorNotSupported => 45,
            Kind::NumericPlaceNotOnAWord => 46,
            Kind::EndOrIncludeInAnIncludedFile => 47,
            Kind::CommonLengthsDiffer => 50,
            Kind::GlobalNameTwice => 51,
            Kind::TwoMainPrograms => 52,
            Kind::StorageTooLarge => 53,
            Kind::CommonInitialisedTwice => 54,
            Kind::NotBuiltYet => 99,
        }
    }

    /// The words of the row, as a message prints them after its number.
    pub fn text(self) -> &'static [u8]
        ensures { result.now ≡ text_of self }
    {
        match self {
            Kind::CharacterOutsideSet => b"character outside the set",
            Kind::BadLabelField => b"bad label field",
            Kind::TooManyContinuations => b"more than 19 continuations",
            Kind::ContinuationWithoutStatement => b"continuation without statement",
            Kind::TextPastColumn72 => b"text past column 72",
            Kind::NoEnd => b"no END",
            Kind::FileTooLong => b"file too long",
            Kind::UnknownStatement => b"unknown statement",
            Kind::SyntaxError => b"syntax error",
            Kind::IntegerTooLarge => b"integer too large",
            Kind::NameTooLong => b"name too long",
            Kind::BadCharacterConstant => b"bad character constant",
            Kind::TypeNotSupported => b"type not supported",
            Kind::StatementOrSpecifierNotSupported => b"statement or specifier not supported",
            Kind::NestingTooDeep => b"nesting too deep",
            Kind::NameHasTypeReal => b"name has type REAL",
            Kind::NameNotDeclared => b"name not declared",
            Kind::ConflictingAttributes => b"conflicting attributes",
            Kind::BoundNotConstant => b"bound not constant",
            Kind::ArrayOfNoElement => b"array of no element",
            Kind::StatementOutOfOrder => b"statement out of order",
            Kind::BadParameterValue => b"bad PARAMETER value",
            Kind::LabelMissingOrTwice => b"label missing or twice",
            Kind::BranchIntoBlock => b"branch into a block",
            Kind::BadDoNest => b"bad DO nest",
            Kind::BadIfNest => b"bad IF nest",
            Kind::OperandTypes => b"operand types",
            Kind::NumberOfSubscripts => b"number of subscripts",
            Kind::NotAssignable => b"not assignable",
            Kind::BadData => b"bad DATA",
            Kind::EquivalenceContradiction => b"EQUIVALENCE contradiction",
            Kind::CommonJoinedOrExtended => b"common joined or extended",
            Kind::CommonInitialised => b"common initialised",
            Kind::UseOfAssumedLength => b"use of (*)",
            Kind::BadStatementFunction => b"bad statement function",
            Kind::BadEntry => b"bad ENTRY",
            Kind::CharacterFunctionAsArgument => b"character function as argument",
            Kind::TwoShapesOfCall => b"two shapes of call",
            Kind::BadFormat => b"bad format",
            Kind::EditDescriptorNotSupported => b"edit descriptor not supported",
            Kind::NumericPlaceNotOnAWord => b"numeric place not on a word",
            Kind::EndOrIncludeInAnIncludedFile => b"END or INCLUDE in an included file",
            Kind::CommonLengthsDiffer => b"common lengths differ",
            Kind::GlobalNameTwice => b"global name twice",
            Kind::TwoMainPrograms => b"two main programs",
            Kind::StorageTooLarge => b"storage too large",
            Kind::CommonInitialisedTwice => b"common initialised twice",
            Kind::NotBuiltYet => b"not built yet",
        }
    }
}

/// A refusal: the number of the file, from 0, the number of the card in it, from 1, and the row.
#[derive(Clone, Copy, Debug, PartialEq, Eq)]
pub struct Refusal {
    pub file: usize,
    pub card: u32,
    pub kind: Kind,
}

/// Why a call that reads or judges a file has no answer.
#[derive(Clone, Copy, Debug, PartialEq, Eq)]
pub enum Fail {
    /// Memory ran out.
    NoMemory,
    /// The file is refused.
    Refused(Refusal),
}

impl From<AllocError> for Fail {
    ghost from_gives = { λ _ fail. fail ≡ NoMemory };

    fn from(_error: AllocError) -> Fail {
        Fail::NoMemory
    }
}
