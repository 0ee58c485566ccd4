//! What a statement needs to know of what stands around it.

ghost use Rattle.std.specs.Prelude.{◌≡◌};
ghost use Rattle.statement_lowering.specs.StatementOutcomes as spec;

/// What stands around a statement.
#[derive(Clone, Copy, Debug, PartialEq, Eq)]
pub struct Around {
    /// Whether the ranges of DO loops are run at least once.
    pub once: bool,
    /// The first temporary that is free.
    pub free: usize,
    /// How many steps are passed where the statement's condition does not hold.
    pub room: usize,
}

/// What stands around the statement of a logical IF.
#[tactic(auto, unfolding(crate::specs::StatementOutcomes::within))]
pub(crate) fn within(around: Around) -> Around
    ensures { result ≡ spec.within around }
{
    Around {
        once: around.once,
        free: around.free,
        room: 0,
    }
}
