//! The functions of the library over a table of external units (CSTR 149, appendix on the run time library).

ghost use Rattle.std.specs.Prelude.{◌≡◌, length, None, Option};
ghost use Rattle.c_tree.specs.run_state.Units.{Units};
ghost use Rattle.c_tree.specs.World.{Transfer};
ghost use Rattle.item_deeds.specs.Deeds.{world_of};
ghost use Rattle.item_deeds.specs.Forms.{SameForms};
ghost use Rattle.f2c_outside.specs.Rows.{rows_of};
ghost use Rattle.run_library.specs.Signatures.{IsCall};
ghost use Rattle.run_library.specs.Replies.{Answers, IsOn, UncountedIf, CountsOn};
ghost use Rattle.run_library.specs.Room.{HasRoom};
ghost use Rattle.unit_library.specs.Calls.{DevicesTold};
ghost use Rattle.unit_answers.specs.Failing.{FailedOn, NoneFailed};
ghost use Rattle.unit_library.specs.Endings.{ending_of};
ghost use Rattle.unit_library.specs.Transfers.{Standing};
ghost use Rattle.unit_library.specs.Uncounted.{IsFarBehind};

use crate::calls::call_function;
use crate::endings::RunEnding;
use crate::functions::function_of;
use crate::transfers::TransferInProgress;
use c_tree::outcome::{CFault, CValue};
use f2c_outside::devices::Device;
use f2c_outside::unit_table::UnitTable;
use run_bytes::RunBytes;
use run_library::{CallBreak, Library, LibraryReply, RunBreak};
use std::marker::PhantomData;

/// The library over a table of external units, with the transfer in progress, and with room for the texts that it puts together.
#[derive(Drop)]
pub struct UnitLibrary {
    units: UnitTable,
    transfer: Option<TransferInProgress>,
    buffer: Vec<u8>,
    // The devices are those of the units: what is said of the library names them by this field.
    devices: PhantomData<Box<dyn Device>>,
}

impl UnitLibrary {
    ghost use Rattle.unit_library.specs.Held.{rows_in, transfer_in, room_in};

    /// A library over these units in which no transfer is in progress, with room for texts as long as the buffer.
    pub fn new(units: UnitTable, buffer: Vec<u8>) -> UnitLibrary
        ensures units { rows_in (λ b. (⟦<dyn Device as Device>⟧ b.vtable).device_state b.value) result ≡ rows_of (λ b. (⟦<dyn Device as Device>⟧ b.vtable).device_state b.value) units }
        ensures transfer { transfer_in result ≡ None }
        ensures room { room_in result ≡ length buffer.items }
    {
        UnitLibrary {
            units,
            transfer: None,
            buffer,
            devices: PhantomData,
        }
    }

    /// The units.
    pub fn into_units(self) -> UnitTable
        ensures { rows_of (λ b. (⟦<dyn Device as Device>⟧ b.vtable).device_state b.value) result ≡ rows_in (λ b. (⟦<dyn Device as Device>⟧ b.vtable).device_state b.value) self }
    {
        self.units
    }
}

impl Library for UnitLibrary {
    ghost use Rattle.unit_library.specs.Held.{rows_in, transfer_in, room_in};

    type Ending = RunEnding;

    ghost stands = { λ library units transfer. Standing (rows_in (λ b. (Device-box b).device_state b.value) library) (transfer_in library) units transfer };

    ghost none_failed = { λ old new. NoneFailed (rows_in (λ b. (Device-box b).device_state b.value) old) (rows_in (λ b. (Device-box b).device_state b.value) new) };

    ghost failed_on = { λ unit old new. FailedOn unit (rows_in (λ b. (Device-box b).device_state b.value) old) (rows_in (λ b. (Device-box b).device_state b.value) new) };

    ghost ending = { ending_of };

    ghost uncounted = { λ unit library. IsFarBehind unit (rows_in (λ b. (Device-box b).device_state b.value) library) };

    ghost room = { room_in };

    // These are the clauses of the trait, over the devices of the units. A function with a `requires` of its own is proved whatever devices
    // there are, and only so may a function of another crate that has one call it.
    fn call(
        &mut self,
        number: usize,
        values: &[CValue],
        run: &mut RunBytes,
    ) -> Result<LibraryReply<RunEnding>, CallBreak>
        requires call { IsCall number values.now }
        requires room { HasRoom (room_in self.old) run.old }
        ensures meaning { (units : Units) → (transfer : Option Transfer) → Standing (rows_in (λ b. (⟦<dyn Device as Device>⟧ b.vtable).device_state b.value) self.old) (transfer_in self.old) units transfer →
            Answers ending_of number values.now (world_of run.old units transfer) (Standing (rows_in (λ b. (⟦<dyn Device as Device>⟧ b.vtable).device_state b.value) self.new) (transfer_in self.new)) run.new result }
        ensures counted { UncountedIf result (CountsOn (IsOn number values.now) run.old (Standing (rows_in (λ b. (⟦<dyn Device as Device>⟧ b.vtable).device_state b.value) self.old) (transfer_in self.old))
            (λ unit. IsFarBehind unit (rows_in (λ b. (⟦<dyn Device as Device>⟧ b.vtable).device_state b.value) self.new))) }
        ensures room { room_in self.new ≡ room_in self.old }
        ensures devices { DevicesTold (rows_in (λ b. (⟦<dyn Device as Device>⟧ b.vtable).device_state b.value) self.old) (rows_in (λ b. (⟦<dyn Device as Device>⟧ b.vtable).device_state b.value) self.new) result }
        ensures forms { SameForms run.old run.new }
    {
        match function_of(number) {
            Some(function) => call_function(
                function,
                values,
                run,
                &mut self.units,
                &mut self.transfer,
                &mut self.buffer,
            ),
            None => Err(CallBreak::Break(RunBreak::Fault(CFault::Kind))),
        }
    }
}
