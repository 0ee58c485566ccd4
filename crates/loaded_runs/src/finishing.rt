//! The devices of external units at the end of a run (ANSI X3.9-1978, 12.10.2.1).

ghost use Rattle.std.specs.Prelude.{◌≡◌};
ghost use Rattle.f2c_outside.specs.Meaning.{units_of};
ghost use Rattle.f2c_outside.specs.Rows.{rows_of};
ghost use Rattle.loaded_runs.specs.RunEnds.{Finishes};

use crate::ends::RunEnd;
use f2c_outside::devices::Device;
use f2c_outside::unit_table::UnitTable;

/// Finishes the devices of the connected units, unless one of them failed in the run; how the run ended then.
pub(crate) fn finished(units: &mut UnitTable, end: RunEnd) -> RunEnd
    requires { Unit {0} }
    ensures { Finishes (rows_of (λ b. (⟦<dyn Device as Device>⟧ b.vtable).device_state b.value) units.old) (rows_of (λ b. (⟦<dyn Device as Device>⟧ b.vtable).device_state b.value) units.new) end result }
{
    match end {
        RunEnd::Failed(_) => end,
        _ => match units.finish_all() {
            Ok(()) => end,
            Err(fault) => RunEnd::Failed(fault.unit),
        },
    }
}
