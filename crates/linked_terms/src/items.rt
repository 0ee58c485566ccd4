//! The items of the flat form of a function, one for each step (C89, 3.6). A position is the number of an item, from 0.

use crate::terms::LinkedTerm;
use plain_data::Items;

/// A `case`: its number, and the position of its jump.
#[derive(Clone, Copy, Debug, PartialEq, Eq)]
pub struct LinkedCase {
    /// The number.
    pub number: i32,
    /// Where the jump stands.
    pub position: usize,
}

/// The cases of a `switch`.
#[derive(Drop)]
pub enum LinkedCases {
    /// Cases whose numbers grow by one from a first, and so do the positions of their jumps, as those of a computed GO TO and of a call with
    /// alternate returns. The place of a number among them is had from the number alone.
    Consecutive {
        /// The first number.
        first: i32,
        /// Where the jump of the first stands.
        position: u32,
        /// How many there are.
        count: u32,
    },
    /// Any cases, as those of a GO TO by a variable that ASSIGN defines, whose numbers are labels: a step goes over them in order.
    Listed(Items<LinkedCase>),
}

/// The function that a call names.
#[derive(Drop)]
pub enum LinkedCallee {
    /// A function by its number.
    Direct(usize),
    /// The function that a parameter holds.
    Through(LinkedTerm),
}

/// What is done with the value of a call.
#[derive(Drop)]
pub enum LinkedUse {
    /// Nothing.
    Ignored,
    /// A store at this place.
    Kept(LinkedTerm),
    /// The caller's own return.
    Returned,
}

/// An item.
#[derive(Drop)]
pub enum LinkedItem {
    /// A store of a value at a place.
    Assign {
        /// The place.
        target: LinkedTerm,
        /// The value.
        value: LinkedTerm,
    },
    /// A test.
    Branch {
        /// The condition.
        test: LinkedTerm,
        /// Where it goes on if the condition holds.
        on: usize,
        /// Where it goes on if it does not.
        off: usize,
    },
    /// A `switch`.
    Select {
        /// The number that chooses.
        value: LinkedTerm,
        /// The cases.
        cases: LinkedCases,
        /// Where it goes on if there is no case of that number.
        otherwise: usize,
    },
    /// A jump to a position.
    Jump(usize),
    /// A call.
    Invoke {
        /// What is done with its value.
        answer: LinkedUse,
        /// The function.
        callee: LinkedCallee,
        /// The arguments from the left.
        arguments: Items<LinkedTerm>,
    },
    /// A return, with its value if it has one.
    Return(Option<LinkedTerm>),
    /// The return of the value that the call before it gave.
    ReturnAnswer,
    /// An empty statement.
    Nothing,
}
