//! The C statements for lowered steps over numbers, as the contract of a call that does nothing.

ghost use Rattle.c_emit_laws.specs.EmittedSteps.{EmittedNumbersFit, PutsAreEmitted, KeepsAreEmitted, ConditionsAreEmitted};

/// Each number that is emitted has 32 bits. Where a lowered step puts one at a place, or keeps it in a temporary, the C assignment goes on, and the
/// store behind the step stands in the objects; and a C test holds where the condition does.
pub fn steps_are_emitted()
    ensures fit { EmittedNumbersFit }
    ensures puts { PutsAreEmitted }
    ensures keeps { KeepsAreEmitted }
    ensures conditions { ConditionsAreEmitted }
{}
