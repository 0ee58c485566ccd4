//! What an expression is lowered for.

ghost use Rattle.std.specs.Prelude.{◌≡◌};
ghost use Rattle.lowering.specs.Expressions as low;
ghost use Rattle.expression_lowering.specs.Purposes.{purpose_of};

/// What a value is for.
#[derive(Clone, Copy, Debug, PartialEq, Eq)]
pub enum Purpose {
    /// It is used where it stands.
    ForUse,
    /// It is handed on by its address.
    ForCall,
    /// It is read through its address.
    ForReading,
    /// It is used behind further steps.
    ForLater,
}

/// What of an expression is lowered.
#[derive(Clone, Copy, Debug, PartialEq, Eq)]
pub enum Aspect {
    /// Its value.
    Value,
    /// What it is as an actual argument: a place or a procedure where it is one, else its value. Section 15.9.
    Actual,
}

/// What an operand is for, given whether one behind it has a reference to a function.
#[tactic(auto, unfolding(lowering::specs::Expressions::ahead))]
pub(crate) fn ahead(purpose: Purpose, refers: bool) -> Purpose
    ensures { purpose_of result ≡ low.ahead (purpose_of purpose) refers }
{
    if refers { Purpose::ForLater } else { purpose }
}

/// What the operands of a place are for: they are used when it is.
#[tactic(auto, unfolding(lowering::specs::Expressions::for_place))]
pub(crate) fn for_place(purpose: Purpose) -> Purpose
    ensures { purpose_of result ≡ low.for_place (purpose_of purpose) }
{
    match purpose {
        Purpose::ForLater => Purpose::ForLater,
        Purpose::ForUse | Purpose::ForCall | Purpose::ForReading => Purpose::ForUse,
    }
}

/// What the operands of a function are for, given whether it is one of the library.
#[tactic(auto, unfolding(lowering::specs::Expressions::for_function))]
pub(crate) fn for_function(is_library: bool) -> Purpose
    ensures { purpose_of result ≡ low.for_function is_library }
{
    if is_library {
        Purpose::ForReading
    } else {
        Purpose::ForUse
    }
}

/// What the value at a place is for: what stands there may be read there.
#[tactic(auto, unfolding(lowering::specs::Expressions::for_fetch))]
pub(crate) fn for_fetch(purpose: Purpose) -> Purpose
    ensures { purpose_of result ≡ low.for_fetch (purpose_of purpose) }
{
    match purpose {
        Purpose::ForReading => Purpose::ForUse,
        Purpose::ForUse | Purpose::ForCall | Purpose::ForLater => purpose,
    }
}

/// Whether a value is kept in a temporary: it is for more than use.
#[tactic(auto, unfolding(lowering::specs::Expressions::is_kept))]
pub(crate) fn is_kept(purpose: Purpose) -> bool
    ensures { result ≡ low.is_kept (purpose_of purpose) }
{
    match purpose {
        Purpose::ForUse => false,
        Purpose::ForCall | Purpose::ForReading | Purpose::ForLater => true,
    }
}
