//! How much the lists of items of a format do, groups and all (ANSI X3.9-1978, section 13.1).
ghost use Rattle.std.specs.Prelude.{◌≡◌, ℕ, ◌≤◌, ◌<◌, ◌+◌, true, false, List, length, drop};
ghost use Rattle.edit_meaning.specs.Formats.{Format, pass};
ghost use Rattle.edit_meaning.specs.FormatGrammar.{Joint, SpellsList};
ghost use Rattle.edit_rules.specs.FormatParts.{part_of};
ghost use Rattle.edit_rules.specs.FormatScans.{weight_in, heaviest, Scanned, Scanning};
ghost use Rattle.edit_rules.specs.PartPlaces.{part_in};

use crate::edits::Edit;
use crate::format_parts::{Part, part_at};

/// The weight of the heaviest edit of a list, and the place behind its right parenthesis. An edit that takes an item weighs 3, another
/// that does something 2, a colon 1.
#[derive(Clone, Copy, Debug)]
pub struct Weighed {
    pub weight: usize,
    pub behind: usize,
}

// How many groups are open, and the weight of what stands before.
#[derive(Clone, Copy, Debug)]
struct Scan {
    depth: usize,
    weight: usize,
}

/// The weight of an edit of a format.
pub fn weight_of(edit: Edit) -> usize
    ensures { result ≡ weight_in edit }
{
    match edit {
        Edit::Int { .. } | Edit::Logical { .. } | Edit::Text { .. } => 3,
        Edit::Done | Edit::NoDescriptor => 0,
        _ => 2,
    }
}

/// Behind one more part, where it is not the end of the list.
fn over(text: &[u8], scan: Scan, part: Part) -> Scan
    requires room { scan.depth < length text.now }
    requires inner { part ≡ Part.Close → 0 < scan.depth }
    ensures goes_on { (total : ℕ) → (end before : List ℕ) → (part_of before).part ≡ part_in text.now part → Scanning total end scan.depth scan.weight before
        → Scanning total end result.depth result.weight (part_of before).behind }
    ensures depth { result.depth ≤ scan.depth + 1 }
{
    match part {
        Part::Joint => scan,
        Part::Open(_) => Scan {
            depth: scan.depth + 1,
            weight: scan.weight,
        },
        Part::Close => Scan {
            depth: scan.depth - 1,
            weight: scan.weight,
        },
        Part::Colon => Scan {
            depth: scan.depth,
            weight: scan.weight.max(1),
        },
        Part::Give { edit, .. } => Scan {
            depth: scan.depth,
            weight: scan.weight.max(weight_of(edit)),
        },
    }
}

/// What the rest of a list weighs, from a place of the format's text on.
pub fn weigh(text: &[u8], from: usize) -> Weighed
    requires { from ≤ length text.now }
    ensures value { (depth : ℕ) → (joint : Joint) → (format : Format) → (after : List ℕ) → SpellsList depth joint format (drop from text.now) after
        → Scanned (heaviest (pass format)) after result.weight (drop result.behind text.now) }
    ensures within { result.behind ≤ length text.now }
    ensures later { from ≤ result.behind }
{
    let mut at = from;
    let mut scan = Scan {
        depth: 0,
        weight: 0,
    };
    while at < text.len() {
        let parted = part_at(text, at);
        at = parted.behind;
        if is_end(parted.part, scan.depth) {
            return Weighed {
                weight: scan.weight,
                behind: at,
            };
        }
        scan = over(text, scan, parted.part);
    }
    Weighed {
        weight: scan.weight,
        behind: at,
    }
}

/// Whether the list ends.
fn is_end(part: Part, depth: usize) -> bool
    ensures yes { result ≡ true → part ≡ Part.Close }
    ensures outermost { result ≡ true → depth ≡ 0 }
    ensures no { result ≡ false → part ≡ Part.Close → 0 < depth }
{
    match part {
        Part::Close => depth == 0,
        _ => false,
    }
}
