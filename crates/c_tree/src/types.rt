//! The types that a text of the subset can name (C89, 3.1.2.5 and 3.5.2, and the typedefs of
//! `f2c.h`).

/// The type of numbers that a name is declared with. Both have 32 bits.
#[derive(Clone, Copy, Debug, PartialEq, Eq)]
pub enum NumberType {
    /// `integer`
    Integer,
    /// `logical`
    Logical,
}

/// What a function gives its caller.
#[derive(Clone, Copy, Debug, PartialEq, Eq)]
pub enum ResultType {
    /// `int`, the number of an alternate return, 0 for none.
    Int,
    /// `integer`
    Integer,
    /// `logical`
    Logical,
    /// `VOID`, no value.
    Void,
}

/// A pointer to a function.
#[derive(Clone, Copy, Debug, PartialEq, Eq)]
pub enum FunctionType {
    /// `S_fp`, to one that stands for a subroutine.
    Subroutine,
    /// `I_fp`, to one whose value is an `integer`.
    Integer,
    /// `L_fp`, to one whose value is a `logical`.
    Logical,
    /// `U_fp`, to one whose result is not known.
    Unknown,
}

/// The lists that calls of the library take.
#[derive(Clone, Copy, Debug, PartialEq, Eq)]
pub enum ListType {
    /// `cilist`, of a transfer on a unit.
    Transfer,
    /// `icilist`, of a transfer on an internal file.
    Internal,
    /// `olist`, of OPEN.
    Open,
    /// `cllist`, of CLOSE.
    Close,
    /// `alist`, of BACKSPACE, REWIND and ENDFILE.
    Position,
}

/// The type of a parameter of a function that the text defines.
#[derive(Clone, Copy, Debug, PartialEq, Eq)]
pub enum ParameterType {
    /// `integer *`
    Integers,
    /// `logical *`
    Logicals,
    /// `char *`
    Chars,
    /// `ftnlen`, a length by value.
    Length,
    /// `int`, a number by value.
    Int,
    /// A pointer to a function.
    Function(FunctionType),
}

/// The type of an argument in an `extern` declaration of a function.
#[derive(Clone, Copy, Debug, PartialEq, Eq)]
pub enum ArgumentType {
    /// A type that a parameter can have too.
    Parameter(ParameterType),
    /// A pointer to a list of the library.
    List(ListType),
    /// `address *`
    Addresses,
}

/// What stands between the parentheses of a cast.
#[derive(Clone, Copy, Debug, PartialEq, Eq)]
pub enum CastType {
    /// `char *`
    Chars,
    /// `unsigned char *`
    UnsignedChars,
    /// `integer *`
    Integers,
    /// `logical *`
    Logicals,
    /// `ftnlen`
    Length,
    /// `ftnint`
    Number,
    /// A pointer to a function.
    Function(FunctionType),
}
