//! The lines of findings.

ghost use Rattle.std.specs.Prelude.{◌≡◌, ◌++◌, decimal, IfOk, OnOk};
ghost use Rattle.call_shapes.specs.declared.findings.Reason.TheVariants as reason_of;
ghost use Rattle.call_lines.specs.FindingLines.{reason_text, place_text, finding_line, name_at, finding_lines};

use call_shapes::{Finding, Reason};
use f_tree::Text;
use itoa::Buffer;
use std::alloc::{AllocError, Global};

/// Appends the digits of a number.
fn print_number(number: usize, out: &mut Vec<u8>) -> Result<(), AllocError>
    ensures { OnOk result (out.new.items ≡ out.old.items ++ decimal number) }
{
    let mut buffer = Buffer::new();
    out.extend_from_slice(buffer.format(number).as_bytes())
}

/// Appends both numbers of arguments.
#[tactic(auto, unfolding(crate::specs::FindingLines::reason_text))]
fn print_count(actual: usize, dummy: usize, out: &mut Vec<u8>) -> Result<(), AllocError>
    ensures { OnOk result (out.new.items ≡ out.old.items ++ reason_text (reason_of.Count actual dummy)) }
{
    print_number(actual, out)?;
    out.extend_from_slice(b" arguments for ")?;
    print_number(dummy, out)
}

/// Appends how a call differs.
#[tactic(auto, unfolding(crate::specs::FindingLines::reason_text))]
fn print_reason(reason: Reason, out: &mut Vec<u8>) -> Result<(), AllocError>
    ensures { OnOk result (out.new.items ≡ out.old.items ++ reason_text reason) }
{
    match reason {
        Reason::AsSubroutine => out.extend_from_slice(b"called as subroutine"),
        Reason::AsFunction => out.extend_from_slice(b"called as function"),
        Reason::ResultType => out.extend_from_slice(b"result type"),
        Reason::Count { actual, dummy } => print_count(actual, dummy, out),
        Reason::Argument(number) => {
            out.extend_from_slice(b"argument ")?;
            print_number(number, out)
        }
    }
}

/// Appends where a call stands.
#[tactic(auto, unfolding(crate::specs::FindingLines::place_text))]
fn print_place(file: &[u8], card: u32, out: &mut Vec<u8>) -> Result<(), AllocError>
    ensures { OnOk result (out.new.items ≡ out.old.items ++ place_text file.now card) }
{
    let mut buffer = Buffer::new();
    out.extend_from_slice(file)?;
    out.extend_from_slice(b":")?;
    out.extend_from_slice(buffer.format(card).as_bytes())
}

/// Appends the line of a finding, in the file with this name.
#[tactic(auto, unfolding(crate::specs::FindingLines::finding_line))]
fn print_finding(file: &[u8], finding: &Finding, out: &mut Vec<u8>) -> Result<(), AllocError>
    ensures { OnOk result (out.new.items ≡ out.old.items ++ finding_line file.now finding.now) }
{
    print_place(file, finding.card, out)?;
    out.extend_from_slice(b": ")?;
    out.extend_from_slice(finding.name.as_slice())?;
    out.extend_from_slice(b": ")?;
    print_reason(finding.reason, out)?;
    out.extend_from_slice(b"\n")
}

/// The name of the file with a number.
#[tactic(auto, unfolding(crate::specs::FindingLines::name_at))]
fn name_at(names: &[Text], file: usize) -> &[u8]
    ensures { result.now ≡ name_at names.now file }
{
    match names.get(file) {
        Some(name) => name.as_slice(),
        None => b"",
    }
}

/// The lines of findings, one for each, by the names of the files in their order: `FILE:CARD: NAME: REASON`.
///
/// # Errors
///
/// Want of memory.
#[tactic(auto, using(std::proofs::lemmas::Grind::common_steps), unfolding(crate::specs::FindingLines::finding_lines))]
pub fn finding_lines(
    alloc: Global,
    names: &[Text],
    findings: &[Finding],
) -> Result<Vec<u8>, AllocError>
    ensures { IfOk result (λ text. text.items ≡ finding_lines names.now findings.now) }
{
    let mut out = Vec::new(alloc);
    for finding in findings {
        print_finding(name_at(names, finding.file), finding, &mut out)?;
    }
    Ok(out)
}
