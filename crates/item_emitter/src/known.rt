//! What is known of a program unit where its steps are written.

ghost use Rattle.std.specs.Prelude.{◌≡◌, option_copied, position, nat_eq};
ghost use Rattle.std.specs.List.{list_any};
ghost use Rattle.std.specs.Ordering.{int_eq};
ghost use Rattle.c_emit.specs.Numbers as numbers;
ghost use Rattle.lowered_text.specs.Texts.{kinds_of};
ghost use Rattle.item_emitter.specs.Knowing.{known_of, variable_in, routine_in, has_dimensions, is_number, is_numbers, basic_of, dimensions_of, standing_of};

use f_tree::Basic;
use indexmap::IndexMap;
use item_emission::{Dimension, Giving, Standing};
use lowered_text::Kept;
use named_items::Callee;

/// What is known of a name.
#[derive(Drop)]
pub struct Variable {
    /// Whether it is a variable or an array.
    pub is_variable: bool,
    /// Its type.
    pub basic: Basic,
    /// The dimensions of an array; none of a variable.
    pub dimensions: Vec<Dimension>,
    /// How it stands in C.
    pub standing: Standing,
}

/// What is known of the name of a procedure.
#[derive(Drop)]
pub struct Routine {
    /// The function that is called by the name.
    pub callee: Callee,
    /// Whether the procedure may be passed by its name.
    pub is_passed: bool,
}

/// What is known of a program unit.
#[derive(Drop)]
pub struct Known<'a> {
    /// What its names are.
    pub variables: IndexMap<&'a [u8], Variable>,
    /// The functions of its procedures.
    pub routines: IndexMap<&'a [u8], Routine>,
    /// What END and RETURN give.
    pub gives: Giving,
    /// How many temporaries it has.
    pub temporaries: usize,
    /// The constants that have an object of their own.
    pub constants: Vec<i32>,
    /// The steps that begin an output, in the order of their control lists.
    pub lists: Vec<usize>,
    /// The steps of the statement labels.
    pub labels: IndexMap<u32, usize>,
}

/// Whether values of a type are numbers or truth values.
#[tactic(auto, unfolding(c_emit::specs::Numbers::is_numeric))]
fn is_numeric(basic: Basic) -> bool
    ensures { result ≡ numbers.is_numeric basic }
{
    match basic {
        Basic::Integer | Basic::Logical => true,
        Basic::Character | Basic::Untyped => false,
    }
}

/// Whether there are dimensions.
#[tactic(auto, unfolding(crate::specs::Knowing::has_dimensions))]
fn has_dimensions(dimensions: &[Dimension]) -> bool
    ensures { result ≡ has_dimensions dimensions.now }
{
    match dimensions {
        [] => false,
        [_, ..] => true,
    }
}

/// The place of a step in a list of steps.
fn place_of(steps: &[usize], wanted: usize) -> Option<usize>
    ensures { result ≡ position (nat_eq wanted) steps.now }
{
    steps.iter().position(|step| wanted == *step)
}

/// Whether a number is in a list.
fn is_among(numbers: &[i32], wanted: i32) -> bool
    ensures { result ≡ list_any (int_eq wanted) numbers.now }
{
    numbers.iter().any(|number| wanted == *number)
}

impl<'a> Known<'a> {
    /// A variable or an array by its name.
    #[tactic(auto, unfolding(crate::specs::Knowing::variable_in))]
    fn variable(&self, name: &[u8]) -> Option<&Variable>
        ensures { option_copied result ≡ variable_in self.now name.now }
    {
        self.variables.get(name)
    }

    /// What is known of a procedure by its name.
    #[tactic(auto, unfolding(crate::specs::Knowing::routine_in))]
    pub(crate) fn routine(&self, name: &[u8]) -> Option<&Routine>
        ensures { option_copied result ≡ routine_in self.now name.now }
    {
        self.routines.get(name)
    }

    /// How a name stands.
    #[tactic(auto, unfolding(crate::specs::Knowing::standing_of))]
    pub(crate) fn standing(&self, name: &[u8]) -> Standing
        ensures { result ≡ (known_of self.now).standing name.now }
    {
        match self.variable(name) {
            Some(variable) => variable.standing,
            None => Standing::Own,
        }
    }

    /// Whether a name stands for one number.
    #[tactic(auto, unfolding(crate::specs::Knowing::is_number))]
    pub(crate) fn is_scalar(&self, name: &[u8]) -> bool
        ensures { result ≡ (known_of self.now).is_scalar name.now }
    {
        match self.variable(name) {
            Some(variable) => {
                variable.is_variable
                    && (is_numeric(variable.basic) && !has_dimensions(&variable.dimensions))
            }
            None => false,
        }
    }

    /// Whether a name stands for an array of numbers.
    #[tactic(auto, unfolding(crate::specs::Knowing::is_numbers))]
    pub(crate) fn is_array(&self, name: &[u8]) -> bool
        ensures { result ≡ (known_of self.now).is_array name.now }
    {
        match self.variable(name) {
            Some(variable) => {
                variable.is_variable
                    && (is_numeric(variable.basic) && has_dimensions(&variable.dimensions))
            }
            None => false,
        }
    }

    /// The type of a name.
    #[tactic(auto, unfolding(crate::specs::Knowing::basic_of))]
    pub(crate) fn basic(&self, name: &[u8]) -> Basic
        ensures { result ≡ (known_of self.now).basic name.now }
    {
        match self.variable(name) {
            Some(variable) => variable.basic,
            None => Basic::Untyped,
        }
    }

    /// The dimensions of a name.
    #[tactic(auto, unfolding(crate::specs::Knowing::dimensions_of))]
    pub(crate) fn dimensions(&self, name: &[u8]) -> &[Dimension]
        ensures { result.now ≡ dimensions_of (variable_in self.now name.now) }
    {
        match self.variable(name) {
            Some(variable) => variable.dimensions.as_slice(),
            None => &[],
        }
    }

    /// Whether a constant has an object of its own.
    pub(crate) fn has(&self, constant: i32) -> bool
        ensures { result ≡ (known_of self.now).has constant }
    {
        is_among(&self.constants, constant)
    }

    /// The place among the control lists of the one for the output that begins at a step.
    pub(crate) fn list(&self, step: usize) -> Option<usize>
        ensures { result ≡ (known_of self.now).list step }
    {
        place_of(&self.lists, step)
    }

    /// The step of a label.
    pub(crate) fn label(&self, label: u32) -> Option<usize>
        ensures { result ≡ (known_of self.now).label label }
    {
        self.labels.get(&label).copied()
    }
}

/// The type of what a temporary holds.
#[tactic(auto, unfolding(lowered_text::specs::Texts::kinds_of))]
pub(crate) fn kind(kept: Option<Kept>, temporary: usize) -> Option<Basic>
    ensures { result ≡ kinds_of kept temporary }
{
    match kept {
        Some(kept) => {
            if temporary == kept.temporary {
                Some(kept.basic)
            } else {
                None
            }
        }
        None => None,
    }
}
