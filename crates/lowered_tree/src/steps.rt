//! Steps. Branches to statement labels go by the label; all other ways go forward or back by a number of steps. Sections 10, 11, 12 and 15.

use crate::pures::{Function, Pure, Text, Wanted};
use plain_data::Items;

/// Whether a transfer reads or writes. Section 12.8.
#[derive(Clone, Copy, Debug, PartialEq, Eq)]
pub enum Direction {
    /// READ
    Input,
    /// WRITE or PRINT
    Output,
}

/// How a transfer is laid out. Section 12.9.
#[derive(Clone, Copy, Debug, PartialEq, Eq)]
pub enum Layout {
    /// List-directed.
    Listed,
    /// By the FORMAT statement with this label.
    Labelled(u32),
    /// By the text of an operand.
    Computed,
    /// No format is written.
    Unformatted,
}

/// A control word whose operand stands among those of its statement. Sections 12.8.1 and 12.10.
#[derive(Clone, Copy, Debug, PartialEq, Eq)]
pub enum Word {
    /// UNIT
    Unit,
    /// FMT
    Format,
    /// IOSTAT
    Status,
    /// FILE
    File,
    /// STATUS of OPEN and CLOSE
    FileStatus,
    /// ACCESS
    Access,
    /// FORM
    Form,
    /// BLANK
    Blank,
}

/// The control words of a statement, and the labels of its ERR and END.
#[derive(Drop)]
pub struct Controls {
    pub words: Items<Word>,
    pub on_error: Option<u32>,
    pub on_end: Option<u32>,
}

/// A statement on a unit that transfers no item. Section 12.10.
#[derive(Clone, Copy, Debug, PartialEq, Eq)]
pub enum AuxiliaryKind {
    /// OPEN
    OpenUnit,
    /// CLOSE
    CloseUnit,
    /// BACKSPACE
    BackspaceUnit,
    /// ENDFILE
    EndFileUnit,
    /// REWIND
    RewindUnit,
}

/// What is done with a transfer, or with a unit. Section 12.
#[derive(Drop)]
pub enum Acting {
    /// A transfer begins.
    Starts(Direction, Layout, Controls),
    /// It takes one item of the list.
    Takes,
    /// It ends.
    Finishes,
    /// OPEN and its kin.
    Auxiliary(AuxiliaryKind, Controls),
}

/// A procedure that is called, and what is wanted of it.
#[derive(Drop)]
pub struct Callee {
    pub name: Text,
    pub want: Wanted,
}

/// A step.
#[derive(Drop)]
pub enum Step {
    /// A temporary gets a value.
    Keep(usize, Pure),
    /// The place, and the value that it gets. Sections 10.1 and 10.2.
    Put(Pure, Pure),
    /// The place, and the pieces of the text that it gets. Section 10.4.
    PutText(Pure, Items<Pure>),
    /// The place, and the label that it gets. Section 10.3.
    PutLabel(Pure, u32),
    /// A temporary gets the value of a function that is called from the library.
    Compute(usize, Function, Items<Pure>),
    /// Goes on, or passes so many steps where the condition does not hold.
    Unless(Pure, usize),
    /// Passes so many steps.
    Skip(usize),
    /// Goes so many steps back.
    Again(usize),
    /// Goes so many steps back where the condition holds.
    AgainIf(Pure, usize),
    /// To a label. Section 11.1.
    Jump(u32),
    /// To the step behind that the number picks, of so many that each go to a label, or past them all. Section 11.2.
    Select(Pure, usize),
    /// To the step behind that goes to the label which the place holds, of those allowed; where none are written, to that label. Section 11.3.
    JumpBy(Pure, Items<u32>),
    /// Does nothing.
    Pass,
    /// A temporary gets the answer of a function that is called, or the number of the alternate return of a subroutine. Sections 15.2, 15.5 and 15.8.
    CallFor(usize, Callee, Items<Pure>),
    /// A subroutine is called to which no label is passed; a temporary gets nothing. Section 15.6.
    CallSub(usize, Text, Items<Pure>),
    /// Behind the call of a subroutine to which labels are passed: to the step behind that the number in the temporary picks, of so many that each go to a
    /// label, or past them all. Section 15.6.2.3.
    Branch(usize, usize),
    /// Such a step: to the label of an alternate return.
    Way(u32),
    /// Answers the caller. Section 15.8.
    Back,
    /// Answers the caller by the number of an alternate return.
    BackBy(Pure),
    /// Ends the run, with the text of STOP. Section 11.12.
    Halt(Text),
    /// An act of a transfer, or of OPEN and its kin, with its operands; where the statement is done then, so many steps are passed.
    Acts(Acting, Items<Pure>, usize),
}
