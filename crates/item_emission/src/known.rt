//! What is known of a program unit where its items are written.

use c_tree::expression::Text;

/// The lower bound of a dimension. ANSI X3.9-1978, section 5.1.1.
#[derive(Clone, Copy, Debug, PartialEq, Eq)]
pub enum LowerBound {
    /// A constant.
    Written(i32),
    /// What a variable of its own keeps since the procedure began.
    Kept,
}

/// How many elements a dimension has. ANSI X3.9-1978, section 5.1.2.1.
#[derive(Clone, Copy, Debug, PartialEq, Eq)]
pub enum Size {
    /// A constant.
    Written(u64),
    /// What a variable of its own keeps since the procedure began.
    Kept,
}

/// A dimension of an array. ANSI X3.9-1978, section 5.1.
#[derive(Clone, Copy, Debug, PartialEq, Eq)]
pub struct Dimension {
    /// Its lower bound.
    pub lower: LowerBound,
    /// How many elements it has.
    pub size: Size,
}

/// How a name stands in C. ANSI X3.9-1978, sections 2.4, 15.5.1 and 15.9.
#[derive(Clone, Copy, Debug, PartialEq, Eq)]
pub enum Standing {
    /// By an object of its own.
    Own,
    /// By the parameter that points to it: a dummy argument.
    Parameter,
    /// By the variable for the result of a function.
    Result,
}

/// What END and RETURN give. ANSI X3.9-1978, sections 14.1, 15.5.3, 15.6.3 and 15.8.
#[derive(Drop)]
pub enum Giving {
    /// 0, in a main program.
    Zero,
    /// 0, or the number of an alternate return, in a subroutine.
    Alternate,
    /// What a variable has, by its name, in a function.
    Value(Text),
    /// Nothing.
    Nothing,
}
