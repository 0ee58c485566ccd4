//! The functions of the library and what they answer (CSTR 149, appendix on the run time library).

ghost use Rattle.std.specs.Prelude.{◌≡◌, ℕ, ℤ, List, Option};
ghost use Rattle.c_tree.specs.Objects.{Object};
ghost use Rattle.c_tree.specs.run_state.Units.{Units};
ghost use Rattle.c_tree.specs.run_state.Endings as endings;
ghost use Rattle.c_tree.specs.World.{Transfer};
ghost use Rattle.item_deeds.specs.Deeds.{world_of};
ghost use Rattle.item_deeds.specs.Forms.{SameForms};
ghost use Rattle.run_library.specs.Signatures.{IsCall};
ghost use Rattle.run_library.specs.Replies.{Answers, IsOn, UncountedIf, CountsOn};
ghost use Rattle.run_library.specs.Room.{HasRoom};
ghost use Rattle.run_library.specs.Devices.{ToldOfCall};

use c_tree::outcome::{CFault, CValue};
use run_bytes::RunBytes;

/// Why a run cannot go on.
#[derive(Clone, Copy, Debug, PartialEq, Eq)]
pub enum RunBreak {
    /// By a fault of the subset.
    Fault(CFault),
    /// The definitions say nothing of what comes next. No program of well-formed files that break no rule of linking comes there.
    Meaningless,
}

/// What a function of the library gives.
#[derive(Drop)]
pub enum LibraryReply<E: Drop> {
    /// A number.
    Gives(i32),
    /// No value.
    Void,
    /// The end of the run.
    Stops(E),
}

/// Why a call gives nothing.
#[derive(Clone, Copy, Debug, PartialEq, Eq)]
pub enum CallBreak {
    /// The run cannot go on.
    Break(RunBreak),
    /// The device of this unit failed.
    Device(i32),
    /// More is to be counted of the unit of the call than 64 bits tell. Nothing is said of what such a call replies.
    Uncounted,
}

/// The functions of the library, with the external units and the transfer in progress.
///
/// What it holds may leave open which transfer of the definitions is in progress: it stands for each of some units and transfers.
///
/// `none_failed` says of the library before a call and after it that no device failed in the call, and `failed_on` that the device of a
/// unit failed and no other. A count for each unit would not do: a closed unit has no device, and an opened one has that of its file.
///
/// `uncounted` says what holds of a unit, and of the library behind a call, where more was to be counted of that unit than 64 bits tell, and
/// `room` how long the texts are that it can put together. An ending may name places among the objects: `ending` reads them at the end of the run.
pub trait Library {
    /// How a call ends a run.
    type Ending: Drop;

    ghost stands: { Self → Units → Option Transfer → Type 0 };

    ghost none_failed: { Self → Self → Type 0 };

    ghost failed_on: { ℤ → Self → Self → Type 0 };

    ghost ending: { List Object → Self.Ending → endings.Ending };

    ghost uncounted: { ℤ → Self → Type 0 };

    ghost room: { Self → ℕ };

    /// Calls the function of a number with the values of its arguments, which agree with what it takes in number and kind. Objects keep
    /// their forms. A call by which the run cannot go on leaves the units as they were, unless it is one of the transfer in progress, that is of
    /// its items or its end. Then all units but that of the transfer are as they were, and that one is connected exactly if it was; of the records
    /// that it holds and where it stands nothing is said, unless the transfer is on an internal file or list-directed output, when no unit has
    /// changed. A device that failed is that of the unit of the call: of the unit that its control list names, or of that of the transfer in
    /// progress; all other units are as they were. The unit of which more is to be counted than 64 bits tell is that of the call too.
    ///
    /// # Errors
    /// Why the run cannot go on, the unit whose device failed, or that more is to be counted than 64 bits tell.
    fn call(
        &mut self,
        number: usize,
        values: &[CValue],
        run: &mut RunBytes,
    ) -> Result<LibraryReply<Self::Ending>, CallBreak>
        requires call { IsCall number values.now }
        requires room { HasRoom (room self.old) run.old }
        ensures meaning { (units : Units) → (transfer : Option Transfer) → stands self.old units transfer →
            Answers ending number values.now (world_of run.old units transfer) (stands self.new) run.new result }
        ensures counted { UncountedIf result (CountsOn (IsOn number values.now) run.old (stands self.old) (λ unit. uncounted unit self.new)) }
        ensures room { room self.new ≡ room self.old }
        ensures devices { ToldOfCall none_failed failed_on self.old self.new result }
        ensures forms { SameForms run.old run.new };
}
