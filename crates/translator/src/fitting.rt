//! Whether a lowered text fits into memory. Sections 3.4, 10.3 and 11.12.

ghost use Rattle.std.specs.List.{list_all};
ghost use Rattle.std.specs.Prelude.{◌≡◌, ◌+◌, ◌^◌, ◌&&◌, nat_le, nat_lt, length};
ghost use Rattle.lowered_tree.specs.Shapes.{step_of};
ghost use Rattle.translator.specs.FittingSteps as spec;

use lowered_text::{LoweredText, Marked};
use lowered_tree::Step;

/// The length that no text of STOP has: it is passed with 31 bits. CSTR 149.
const TEXT_LIMIT: usize = 2_147_483_648;

/// Whether a text of STOP can be passed with its length.
fn stop_fits(text: &[u8]) -> bool
    ensures { result ≡ (list_all (λ byte. nat_lt byte 256) text.now && nat_lt (length text.now) 2147483648) }
{
    text.len() < TEXT_LIMIT
}

/// Whether a label is a number of 64 bits: each has 32.
fn label_fits(_label: u32) -> bool
    ensures { result ≡ nat_lt _label (2 ^ 64) }
{
    true
}

/// Whether a step fits into memory.
fn step_fits(step: &Step) -> bool
    ensures { result ≡ spec.step_fits (step_of step.now) }
{
    match step {
        Step::Keep(temporary, _) => *temporary < usize::MAX,
        Step::Compute(temporary, _, _) => *temporary < usize::MAX,
        Step::CallFor(temporary, _, _) => *temporary < usize::MAX,
        Step::Jump(label) => label_fits(*label),
        Step::Way(label) => label_fits(*label),
        Step::Halt(text) => stop_fits(text.as_slice()),
        _ => true,
    }
}

/// Whether steps fit into memory.
fn steps_fit(steps: &[Step]) -> bool
    ensures { result ≡ list_all (λ st. spec.step_fits (step_of st)) steps.now }
{
    steps.iter().all(|step| step_fits(step))
}

/// Whether a count leaves a number for what stands behind, as each count of what is in memory does.
fn count_fits(_count: usize) -> bool
    ensures { result ≡ nat_le (1 + _count) (2 ^ 64) }
{
    true
}

/// Whether steps with their marks fit into memory.
fn parts_fit(steps: &[Step], marks: &[Marked]) -> bool
    ensures { result
        ≡ (nat_le (1 + length steps.now) (2 ^ 64) && (nat_le (1 + length marks.now) (2 ^ 64) && list_all (λ st. spec.step_fits (step_of st)) steps.now)) }
{
    count_fits(steps.len()) && (count_fits(marks.len()) && steps_fit(steps))
}

/// Whether a lowered text fits into memory.
pub(crate) fn text_fits(text: &LoweredText) -> bool
    ensures { spec.FitsIf text.now result }
{
    parts_fit(text.steps.as_slice(), text.marks.as_slice())
}
