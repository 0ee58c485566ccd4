//! How runs end (C89, 3.6.6.4; ANSI X3.9-1978, 11.12 and 12.7).

ghost use Rattle.std.specs.Prelude.{◌≡◌};
ghost use Rattle.loaded_runs.specs.RunEnds.{outcome_end, end_of, steps_of};

use c_tree::outcome::CFault;
use program_runner::{RunOutcome, RunTaken};
use run_library::RunBreak;
use unit_library::RunEnding;

/// How a run ended.
#[derive(Clone, Copy)]
pub enum RunEnd {
    /// It is not over after its steps.
    Running,
    /// The main program came to its end, or a function of the library ended the run.
    Ended(RunEnding),
    /// It cannot go on.
    Broken {
        /// Why.
        reason: RunBreak,
        /// The number of the function in which it breaks.
        function: usize,
    },
    /// Its main program did not begin.
    Unbegun(CFault),
    /// The device of this unit failed.
    Failed(i32),
    /// A call of the library was to count more than 64 bits tell.
    Uncounted,
}

/// How a run ended, and how many steps it took.
#[derive(Clone, Copy)]
pub(crate) struct EndTaken {
    /// How it ended.
    pub(crate) end: RunEnd,
    /// The steps.
    pub(crate) steps: usize,
}

/// How a run ended, by how it stands.
fn outcome_end(outcome: RunOutcome<RunEnding>) -> RunEnd
    ensures { result ≡ outcome_end outcome }
{
    match outcome {
        RunOutcome::Running => RunEnd::Running,
        RunOutcome::Returned => RunEnd::Ended(RunEnding::Plain),
        RunOutcome::Stopped(how) => RunEnd::Ended(how),
        RunOutcome::Broken { reason, function } => RunEnd::Broken { reason, function },
        RunOutcome::Failed(unit) => RunEnd::Failed(unit),
        RunOutcome::Uncounted => RunEnd::Uncounted,
    }
}

/// How a run ended that stands so, or whose main program did not begin, and how many steps it took.
pub(crate) fn end_of(ran: Result<RunTaken<RunEnding>, CFault>) -> EndTaken
    ensures end { result.end ≡ end_of ran }
    ensures steps { result.steps ≡ steps_of ran }
{
    match ran {
        Ok(taken) => EndTaken {
            end: outcome_end(taken.outcome),
            steps: taken.steps,
        },
        Err(fault) => EndTaken {
            end: RunEnd::Unbegun(fault),
            steps: 0,
        },
    }
}
