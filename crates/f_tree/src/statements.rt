//! Statements. Sections 7 to 13 and 15 of the standard, ANSI X3.9-1978.
#![tactic(auto)]

use crate::expressions::{Expr, Text};
use crate::names::Basic;
use plain_data::{Boxed, Items};

/// A statement with its label, if it has one, the number of its file, from 0, and the number of its
/// initial card in the file, from 1. An included statement has the file and the card that it stands on.
#[derive(Drop)]
pub struct Stmt {
    pub label: Option<u32>,
    pub file: usize,
    pub card: u32,
    pub body: Body,
}

/// What a program unit is. Section 2.4.
#[derive(Drop)]
pub enum UnitKind {
    /// A main program, with a PROGRAM statement or without one.
    Main,
    /// A subroutine.
    Subroutine,
    /// An external function, with the type that its FUNCTION statement writes.
    Function(TypeSpec),
    /// A block data subprogram.
    BlockData,
}

/// A dummy argument in the list of a SUBROUTINE, FUNCTION or ENTRY statement. Section 15.9.2.
#[derive(Drop)]
pub enum DummyArgument {
    /// A name.
    Named(Text),
    /// `*`: the place of an alternate return.
    AlternateReturn,
}

/// A type as a statement writes it: `Untyped` where it writes none. Section 8.4.
#[derive(Drop)]
pub struct TypeSpec {
    pub basic: Basic,
    pub length: Option<LengthSpec>,
}

/// A length of character items. Section 8.4.2.
#[derive(Drop)]
pub enum LengthSpec {
    /// `*n` or `*(n)`, in characters.
    Value(Expr),
    /// `*(*)`
    Star,
}

/// One dimension of an array. Section 5.1.1.1.
#[derive(Drop)]
pub struct Dimension {
    pub lower: Option<Expr>,
    pub upper: UpperBound,
}

/// The last subscript of a dimension.
#[derive(Drop)]
pub enum UpperBound {
    /// An expression.
    Value(Expr),
    /// `*`: the array is as long as its actual argument.
    Star,
}

/// A name in a COMMON or DIMENSION statement; no dimensions where it has no parentheses.
#[derive(Drop)]
pub struct ArrayDeclarator {
    pub name: Text,
    pub dimensions: Items<Dimension>,
}

/// A name in a type statement, with its dimensions and with the length that stands after it.
#[derive(Drop)]
pub struct Declarator {
    pub name: Text,
    pub dimensions: Items<Dimension>,
    pub length: Option<LengthSpec>,
}

/// A block of a COMMON statement, blank common without a name, and its items. Section 8.3.
#[derive(Drop)]
pub struct CommonGroup {
    pub block: Option<Text>,
    pub items: Items<ArrayDeclarator>,
}

/// Places that share their storage. Section 8.2.
#[derive(Drop)]
pub struct EquivalenceGroup {
    pub places: Items<Expr>,
}

/// The letters from `first` to `last`, in lower case.
#[derive(Clone, Copy, Debug, PartialEq, Eq)]
pub struct LetterRange {
    pub first: u8,
    pub last: u8,
}

/// A type and the first letters of the names that have it. Section 8.5.
#[derive(Drop)]
pub struct ImplicitGroup {
    pub spec: TypeSpec,
    pub letters: Items<LetterRange>,
}

/// A name of a PARAMETER statement and its value. Section 8.6.
#[derive(Drop)]
pub struct ConstantDefinition {
    pub name: Text,
    pub value: Expr,
}

/// An item of a SAVE statement. Section 8.9.
#[derive(Drop)]
pub enum SavedItem {
    /// A variable or an array.
    Named(Text),
    /// A common block.
    Block(Text),
}

/// The places of a DATA statement and their values. Section 9.1.
#[derive(Drop)]
pub struct DataGroup {
    pub places: Items<ListItem>,
    pub values: Items<DataValue>,
}

/// A value in a DATA statement, with how often it stands.
#[derive(Drop)]
pub struct DataValue {
    pub count: Option<Expr>,
    pub value: Expr,
}

/// The variable of a loop with its first value, its limit and its step. Section 11.10.
#[derive(Drop)]
pub struct LoopControl {
    pub variable: Text,
    pub first: Expr,
    pub limit: Expr,
    pub step: Option<Expr>,
}

/// An item in a list of READ, WRITE, PRINT or DATA. Section 12.8.2.
#[derive(Drop)]
pub enum ListItem {
    /// An expression, which is a variable, an array, an element or a substring where it is defined.
    Item(Expr),
    /// An implied DO: its items and its loop.
    Loop(Items<ListItem>, LoopControl),
}

/// Whether a transfer reads or writes. Section 12.8.
#[derive(Clone, Copy, Debug, PartialEq, Eq)]
pub enum Direction {
    /// READ
    Read,
    /// WRITE or PRINT
    Write,
}

/// A word of a list of control information. Sections 12.8.1 and 12.10.
#[derive(Clone, Copy, Debug, PartialEq, Eq)]
pub enum ControlWord {
    /// UNIT
    Unit,
    /// FMT
    Format,
    /// IOSTAT
    Status,
    /// ERR
    OnError,
    /// END
    OnEnd,
    /// FILE
    File,
    /// STATUS of OPEN and CLOSE
    FileStatus,
    /// ACCESS
    Access,
    /// FORM
    Form,
    /// BLANK
    Blank,
}

/// What stands after a control word.
#[derive(Drop)]
pub enum ControlValue {
    /// `*`: the standard unit, or list-directed.
    Star,
    /// The label of a FORMAT statement, or of the statement that ERR or END goes to.
    Label(u32),
    /// An expression.
    Value(Expr),
}

/// A control word with its value. A word that is left out by its place stands here too.
#[derive(Drop)]
pub struct Control {
    pub word: ControlWord,
    pub value: ControlValue,
}

/// A statement on a unit that transfers no item. Section 12.10.
#[derive(Clone, Copy, Debug, PartialEq, Eq)]
pub enum AuxiliaryKind {
    /// OPEN
    OpenUnit,
    /// CLOSE
    CloseUnit,
    /// BACKSPACE
    Backspace,
    /// ENDFILE
    EndFile,
    /// REWIND
    Rewind,
}

/// What a statement says. Labels are numbers from 1 to 99999.
#[derive(Drop)]
pub enum Body {
    /// A PROGRAM, SUBROUTINE, FUNCTION or BLOCK DATA statement that does not begin its unit.
    Header(UnitKind, Option<Text>, Items<DummyArgument>),
    /// A type statement. Section 8.4.
    Declare(TypeSpec, Items<Declarator>),
    /// DIMENSION. Section 8.1.
    Dimension(Items<ArrayDeclarator>),
    /// COMMON. Section 8.3.
    Common(Items<CommonGroup>),
    /// EQUIVALENCE. Section 8.2.
    Equivalence(Items<EquivalenceGroup>),
    /// IMPLICIT. Section 8.5.
    Implicit(Items<ImplicitGroup>),
    /// IMPLICIT NONE: each name has a type statement. MIL-STD-1753.
    ImplicitNone,
    /// PARAMETER. Section 8.6.
    Parameter(Items<ConstantDefinition>),
    /// EXTERNAL. Section 8.7.
    External(Items<Text>),
    /// INTRINSIC. Section 8.8.
    Intrinsic(Items<Text>),
    /// SAVE; without an item it speaks of all. Section 8.9.
    Save(Items<SavedItem>),
    /// DATA. Section 9.
    Init(Items<DataGroup>),
    /// FORMAT, with its text from the opening parenthesis to the closing one. Section 13.
    Format(Text),
    /// ENTRY. Section 15.7.
    Entry(Text, Items<DummyArgument>),
    /// An assignment of the second to the first, or the definition of a statement function: the
    /// names tell which. Sections 10.1 to 10.4 and 15.4.
    Assign(Expr, Expr),
    /// ASSIGN of a label to a variable. Section 10.3.
    AssignLabel(u32, Text),
    /// GO TO a label. Section 11.1.
    Goto(u32),
    /// GO TO one of the labels, by a number from 1. Section 11.2.
    GotoList(Items<u32>, Expr),
    /// GO TO the label that was assigned to the variable; no list where none is written. Section
    /// 11.3.
    GotoName(Text, Items<u32>),
    /// The arithmetic IF: the labels for a negative value, for 0 and for a positive one. Section
    /// 11.4.
    IfSign(Expr, u32, u32, u32),
    /// The logical IF with its statement. Section 11.5.
    IfOne(Expr, Boxed<Body>),
    /// IF .. THEN. Section 11.6.
    IfThen(Expr),
    /// ELSE IF .. THEN. Section 11.7.
    ElseIf(Expr),
    /// ELSE. Section 11.8.
    Else,
    /// END IF. Section 11.9.
    EndIf,
    /// DO up to the statement with the label (section 11.10), or, without a label, up to its END DO
    /// (MIL-STD-1753).
    Do(Option<u32>, LoopControl),
    /// DO WHILE, up to the statement with the label or to its END DO. MIL-STD-1753.
    DoWhile(Option<u32>, Expr),
    /// END DO. MIL-STD-1753.
    EndDo,
    /// CONTINUE. Section 11.11.
    Continue,
    /// CALL, with its arguments. Section 15.6.
    Call(Text, Items<Expr>),
    /// RETURN, with the number of the alternate return. Section 15.8.
    Return(Option<Expr>),
    /// STOP, with its digits or characters, which may be none. Section 11.12.
    Stop(Text),
    /// READ, WRITE or PRINT. PRINT and a READ without parentheses have the unit `*`. Section 12.8.
    Transfer(Direction, Items<Control>, Items<ListItem>),
    /// OPEN, CLOSE, BACKSPACE, ENDFILE or REWIND. Section 12.10.
    Auxiliary(AuxiliaryKind, Items<Control>),
    /// INCLUDE of the file with this name, before its statements take its place. MIL-STD-1753.
    Include(Text),
    /// END. Section 11.14.
    End,
}
