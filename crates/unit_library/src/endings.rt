//! How a call ends a run (ANSI X3.9-1978, 11.12 and 12.7).

use c_tree::outcome::CValue;

/// How a call ends a run. It holds no text: a text stands among the objects of the run, which are left as they stand when the run ends.
#[derive(Clone, Copy)]
pub enum RunEnding {
    /// By STOP without a text.
    Plain,
    /// By STOP with the text that a pointer points to.
    Stop {
        /// The pointer to the text.
        pointer: CValue,
        /// The length of the text.
        size: CValue,
    },
    /// By the number of an input or output statement that does not ask for it.
    Io(i32),
    /// At a place outside its declared bounds.
    Range {
        /// The pointer to the name of the variable.
        variable: CValue,
        /// The subscript, or the place of a substring, that is out of bounds.
        number: CValue,
        /// The pointer to the name of the unit.
        unit: CValue,
        /// The card of the statement.
        card: CValue,
    },
}
