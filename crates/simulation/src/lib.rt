//! Framed machines, local simulation, and the law that carries local simulation to whole runs.
//!
//! A framed machine is a language whose programs run as a list of active texts over a shared state.
//! Local simulation says of one source text and one target text, and of no program that holds them,
//! that the target does for every step of the source a bounded number of steps that keep the two
//! matched. The law says what follows for whole programs. Nothing is said of time, and nothing of a
//! run from the step on at which the source breaks.
//!
//! There is nothing to run here: the functions have empty bodies, and their contracts are theorems
//! about every pair of programs that meets the trait's members.
#![tactic(auto)]

ghost use Rattle.std.specs.Prelude.{◌≡◌, ℕ, Bool, List, [], Some, None};
ghost use Rattle.simulation.specs.Machine.{Lang, Program, Frame, State, begun};
ghost use Rattle.simulation.specs.LocalSimulation.{Kit, Couple, Local};
ghost use Rattle.simulation.specs.Law.{Linking, Linked, Home, Below, Grown, WaitingFrames, Alike, Faithful, EndsAlike, BreaksLater, Reports, SameTexts};
ghost use Rattle.simulation.specs.Composition.{Composable, below_of, composite_couple};

/// Two programs of two languages, with each text of the one simulated by a text of the other.
pub trait Simulation {
    /// how a run may end
    ghost ending: { Type 0 };

    ghost source_language: { Lang ending };

    ghost target_language: { Lang ending };

    ghost kit: { Kit source_language target_language };

    ghost source: { Program source_language.sorts };

    ghost target: { Program target_language.sorts };
    /// which text stands for which
    ghost linking: { Linking kit source target };
    /// how many steps of the target one step of the source may take
    ghost factor: { ℕ };
    /// each text is simulated, and names are found
    ghost linked: { Linked linking factor };
}

/// A run that begins by one call, with nothing active, begins alike, where the name has no wrapper.
pub fn begins<M: Simulation>()
    ensures { (w : M.kit.World) (n : M.source_language.sorts.Name) (a : M.source_language.sorts.Arg) (s : M.source_language.sorts.Shared)
        (m : M.target_language.sorts.Name) (b : M.target_language.sorts.Arg) (t : M.target_language.sorts.Shared) (i : ℕ) →
        M.source.find n ≡ Some i → M.linking.wrapper i m ≡ None → Home M.linking w [] → M.kit.Passed w s n a t m b →
        Alike M.linking (begun M.source_language M.source n a s) (begun M.target_language M.target m b t) }
{}

/// The law: from alike states, for every n there is an m with n ≤ m ≤ factor · n such that the source
/// after n steps and the target after m are alike.
pub fn law<M: Simulation>()
    ensures { (x : State M.ending M.source_language.sorts) (y : State M.ending M.target_language.sorts) → Alike M.linking x y → Faithful M.linking M.factor x y }
{}

/// In alike states the active texts of the target, wrappers left out, are the images of those of the
/// source, in their order.
pub fn same_texts<M: Simulation>()
    ensures { (x : State M.ending M.source_language.sorts) (y : State M.ending M.target_language.sorts) → Alike M.linking x y → SameTexts M.linking x y }
{}

/// Below a running text the source's texts wait beside their target texts, each in a world from which
/// the present one has grown; so what a waiting text stands on still stands.
pub fn waiting_frames<M: Simulation>()
    ensures { (b : Bool) (w v : M.kit.World) (i : ℕ) (us : List (Frame M.source_language.sorts)) (fs : List (Frame M.target_language.sorts)) →
        Below M.linking b w i us fs → Grown M.kit w v → WaitingFrames M.linking v us fs }
{}

/// Where the source has ended after n steps, the target has ended alike from factor · n steps on.
pub fn ends<M: Simulation>()
    ensures { (x : State M.ending M.source_language.sorts) (y : State M.ending M.target_language.sorts) → Alike M.linking x y → EndsAlike M.linking M.factor x y }
{}

/// Where the target is broken after m steps, the source is broken by then.
pub fn faults<M: Simulation>()
    ensures { (x : State M.ending M.source_language.sorts) (y : State M.ending M.target_language.sorts) → Alike M.linking x y → BreaksLater M.source_language M.target_language M.source M.target x y }
{}

/// Where the source breaks by a claimed fault, the target tells that fault within factor more steps.
pub fn reports<M: Simulation>()
    ensures { (x : State M.ending M.source_language.sorts) (y : State M.ending M.target_language.sorts) → Alike M.linking x y → Reports M.kit M.source M.target M.factor x y }
{}

/// Two layers: the target text of the first is the source text of the second.
pub trait Layers {
    /// how a run may end
    ghost ending: { Type 0 };

    ghost source_language: { Lang ending };

    ghost middle_language: { Lang ending };

    ghost target_language: { Lang ending };

    ghost upper_kit: { Kit source_language middle_language };

    ghost lower_kit: { Kit middle_language target_language };

    ghost upper: { Couple upper_kit };

    ghost lower: { Couple lower_kit };

    ghost composable: { Composable lower_kit upper };

    ghost upper_simulates: { Local upper };
    /// the lower layer may spend on a step what the step weighs in the upper layer
    ghost lower_simulates: { Local (below_of upper lower) };
}

/// Composition: the two layers together are one local simulation, and what a step of the source may
/// cost is what it may weigh in the upper layer, counted in steps of the target.
pub fn compose<M: Layers>()
    ensures { Local (composite_couple M.upper M.lower) }
{}
