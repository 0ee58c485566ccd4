//! Values of a run, and the ways in which it ends.

ghost use Rattle.std.specs.Prelude.{◌≡◌};
ghost use Rattle.c_tree.specs.FaultNames.{fault_name};

/// A value of a run.
#[derive(Clone, Copy, Debug, PartialEq, Eq)]
pub enum CValue {
    /// A number of 32 bits.
    Number(i32),
    /// A pointer to the byte at `offset`, or to the element with that number, of an object.
    Pointer {
        /// The number of the object.
        object: usize,
        /// Bytes from its start, or elements of an object that holds values.
        offset: usize,
    },
    /// The null pointer.
    Null,
    /// A function, by its number.
    Function(usize),
}

/// An act that has no meaning in the subset, at which a run ends.
#[derive(Clone, Copy, Debug, PartialEq, Eq)]
pub enum CFault {
    /// A result outside 32 bits, or the least number `%` -1.
    Overflow,
    /// `/` or `%` by 0.
    ZeroDivide,
    /// A read of an automatic byte, or of an element of an `address` array, that was not set.
    Unset,
    /// An access outside its object, through null or at an offset that is no multiple of four,
    /// or a pointer moved out of its object.
    Outside,
    /// A number where a pointer or a function is needed or the reverse, a list field of another
    /// kind or that the list does not have, or no place where one is needed.
    Kind,
    /// A call whose arguments differ from the parameters in number or kind, or whose value is
    /// used and there is none.
    Disagree,
    /// A call of a function that is active.
    Active,
    /// A call of the library out of its order, or with a length or count that it does not take.
    Library,
}

impl CFault {
    /// The fault's name, as a message prints it.
    #[tactic(auto, unfolding(crate::specs::FaultNames::fault_name))]
    pub fn name(self) -> &'static [u8]
        ensures { result.now ≡ fault_name self }
    {
        match self {
            CFault::Overflow => b"Overflow",
            CFault::ZeroDivide => b"ZeroDivide",
            CFault::Unset => b"Unset",
            CFault::Outside => b"Outside",
            CFault::Kind => b"Kind",
            CFault::Disagree => b"Disagree",
            CFault::Active => b"Active",
            CFault::Library => b"Library",
        }
    }
}

/// A place in the bytes of a run.
#[derive(Clone, Copy, Debug, PartialEq, Eq)]
pub struct Span {
    /// The first byte.
    pub from: usize,
    /// How many bytes.
    pub len: usize,
}

/// A place outside its declared bounds.
#[derive(Clone, Copy, Debug, PartialEq, Eq)]
pub struct Report {
    /// The name of the variable.
    pub variable: Span,
    /// The subscript, or the place of a substring, that is out of bounds.
    pub number: i32,
    /// The name of the unit.
    pub unit: Span,
    /// The card of the statement.
    pub card: i32,
}

/// How a run ends that meets no fault.
#[derive(Clone, Copy, Debug, PartialEq, Eq)]
pub enum Stopped {
    /// At the end of the main program, or by STOP without a text.
    Plain,
    /// By STOP with the text that stands there.
    Stop(Span),
    /// By this number of an input or output statement that does not ask for it.
    Io(i32),
    /// At a place outside its declared bounds.
    Range(Report),
}
