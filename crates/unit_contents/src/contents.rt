//! What a function has.

use library_functions::LibraryFunction;
use lowered_text::Kept;
use lowered_tree::Text;
use named_items::Layout;

/// The control list of an output.
#[derive(Clone, Copy, Debug, PartialEq, Eq)]
pub struct Listing {
    /// The position of the step that begins the output, from 0.
    pub step: usize,
    /// Its unit.
    pub unit: i32,
}

/// Which functions of the library are called.
#[derive(Drop)]
pub struct Calls {
    /// That which starts a list-directed output.
    pub starts: bool,
    /// That which takes an item.
    pub takes: bool,
    /// That which ends one.
    pub finishes: bool,
    /// That which stops the run.
    pub stops: bool,
    /// Those of functions of numbers, in the order of the library.
    pub functions: Vec<LibraryFunction>,
}

/// What the C function of a unit has.
#[derive(Drop)]
pub struct Contents {
    /// The control lists, in the order of their steps.
    pub lists: Vec<Listing>,
    /// How many temporaries there are.
    pub temporaries: usize,
    pub calls: Calls,
    /// The procedures that are called or passed by their names, each once, in the order in which they stand first.
    pub procedures: Vec<Text>,
    /// The positions of the steps that pass a string.
    pub strings: Vec<usize>,
    /// What a temporary keeps before each step.
    pub kinds: Vec<Option<Kept>>,
    /// Whether an output goes on at each step that takes an item or ends one, and none where the unit returns, and what is kept is of a type that is
    /// known.
    pub are_outputs_in_place: bool,
    /// Labels, arms and loops, by the positions of the steps.
    pub layout: Layout,
}
