//! Local simulation of texts whose target takes steps of its own before the first step of the source, as a C function that keeps the
//! bounds of its dummy arrays before its first statement. ANSI X3.9-1978, section 5.5.1.
//!
//! There is nothing to run here: the function has an empty body, and its contract is the law.
#![tactic(auto)]

ghost use Rattle.std.specs.Prelude.{ℕ, ◌≤◌};
ghost use Rattle.simulation.specs.Machine.{Lang};
ghost use Rattle.simulation.specs.LocalSimulation.{Kit, Couple};
ghost use Rattle.late_starts.specs.LateStarts.{late, Follows};

/// A source text and a target text that follows it once both have begun.
pub trait Beginning {
    /// how a run may end
    ghost ending: { Type 0 };

    ghost source_language: { Lang ending };

    ghost target_language: { Lang ending };

    ghost kit: { Kit source_language target_language };

    ghost couple: { Couple kit };
    /// what is said of the target while it is late
    ghost early: { kit.World → source_language.sorts.View → source_language.sorts.Shared → target_language.sorts.View → target_language.sorts.Shared → Type 0 };
    /// what a step of the source may cost where the target may be late
    ghost most: { source_language.sorts.View → ℕ };
    /// it is no less than where the target is not
    ghost more: { (v : source_language.sorts.View) → couple.most v ≤ most v };

    ghost follows: { Follows couple };
}

/// A target that is late follows each step of its source as well.
pub fn follows_late<M: Beginning>()
    ensures { Follows (late M.couple M.early M.most) }
{}
