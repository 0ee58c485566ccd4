//! Calls of a set that disagree with what they call.
#![tactic(auto)]

ghost use Rattle.std.specs.Prelude.{◌≡◌, IfOk};
ghost use Rattle.call_shapes.specs.Disagreements.{disagreeing};

use crate::findings::{Counterparts, findings_of};
use crate::order::in_order;
use crate::procedures::procedures_of;
use call_shapes::{Finding, NamedShape};
use f_tree::File;
use std::alloc::{AllocError, Global};

/// The calls of a set of files that disagree with the procedures that they call: with the procedure of the set that has the name, else with the first
/// line of prototypes that has it. They are listed by file, then card, then place in the statement from the left, a call in an included statement once
/// for each unit that it stands in. Sections 15.5.2.2, 15.6.2.2 and 15.9.3 of the standard, ANSI X3.9-1978.
///
/// # Errors
///
/// Want of memory.
pub fn check_calls(
    alloc: Global,
    files: &[File],
    lines: &[NamedShape],
) -> Result<Vec<Finding>, AllocError>
    ensures { IfOk result (λ findings. findings.items ≡ disagreeing files.now lines.now) }
{
    let shapes = procedures_of(alloc, files)?;
    let counterparts = Counterparts {
        procedures: shapes.as_slice(),
        lines,
    };
    let findings = findings_of(alloc, counterparts, files)?;
    in_order(alloc, findings)
}
