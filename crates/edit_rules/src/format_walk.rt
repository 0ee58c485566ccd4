//! The walk through a format: the edits that items take, one by one (ANSI X3.9-1978, section 13.3).
ghost use Rattle.std.specs.Prelude.{◌≡◌, ℕ, ◌+◌, ◌-◌, ◌==◌, ◌≤◌, ◌<◌, if◌then◌else◌, true, false, List, length, drop};
ghost use Rattle.edit_meaning.specs.Formats as formats;
ghost use Rattle.edit_rules.specs.FormatParts as parts;
ghost use Rattle.edit_rules.specs.FormatParts.{part_of};
ghost use Rattle.edit_meaning.specs.FormatGrammar.{SpellsFormat};
ghost use Rattle.edit_rules.specs.PartPlaces.{part_in};
ghost use Rattle.edit_rules.specs.Walks.{Stands, StandsIn, Given, Steps, group_of, reach};

use crate::edits::Edit;
use crate::format_parts::{Part, begin, part_at};
use crate::format_scan::{weigh, weight_of};

/// A group that is open: the place of its list, and how many copies are left.
#[derive(Clone, Copy, Debug)]
pub struct Group {
    start: usize,
    left: usize,
}

/// A place in a format, in bytes of its text, and counts; it holds no text.
#[derive(Clone, Copy, Debug)]
pub struct FormatWalk {
    place: usize,
    left: usize,
    again: usize,
    depth: usize,
    groups: [Group; 20],
}

/// One part further: without an edit, or with one.
#[derive(Clone, Copy, Debug)]
pub enum Step {
    On(FormatWalk),
    Gives(Edit, FormatWalk),
}

impl FormatWalk {
    /// Stands at the start of the format that begins the text.
    ///
    /// `check_format` accepts the text; of another text nothing is said.
    pub fn start(text: &[u8]) -> FormatWalk
        ensures { (format : formats.Format) → (after : List ℕ) → SpellsFormat format text.now after
            → Stands text.now (formats.pass (formats.reverted format)) result (formats.pass format) }
    {
        let place = begin(text);
        FormatWalk {
            place,
            left: 0,
            again: place,
            depth: 0,
            groups: [Group { start: 0, left: 0 }; 20],
        }
    }

    /// The next edit of the format, for a transfer that wants an item or none.
    ///
    /// The walk stands in the text of a format, and goes on standing in it.
    pub fn next(&mut self, text: &[u8], wants_item: bool) -> Edit
        requires { StandsIn self.old text.now }
        ensures given { (again rest : List formats.Edit) → Stands text.now again self.old rest → Given wants_item text.now again rest self.new result }
        ensures stands { StandsIn self.new text.now }
    {
        for _turn in 0..text.len() + text.len() + 1 {
            match self.step(text, wants_item) {
                Step::On(walk) => *self = walk,
                Step::Gives(edit, walk) => {
                    *self = walk;
                    return edit;
                }
            }
        }
        Edit::Done
    }
}

impl FormatWalk {
    /// Before the part at a place.
    fn moved(&self, place: usize) -> FormatWalk
        ensures { result ≡ record self.now { place = place; left = 0 } }
    {
        let mut walk = *self;
        walk.place = place;
        walk.left = 0;
        walk
    }

    /// Behind a comma, a scale factor or the sign of one.
    fn joint(&self, text: &[u8], behind: usize, wants: bool) -> Step
        requires behind { self.now.place < behind }
        requires within { behind ≤ length text.now }
        ensures { (again rest : List formats.Edit) → (stands : Stands text.now again self.now rest)
            → part_of (drop self.now.place text.now) ≡ record { part = parts.Joint; behind = drop behind text.now }
            → Steps wants text.now again rest (reach stands) result }
    {
        Step::On(self.moved(behind))
    }

    /// At a colon.
    fn colon(&self, text: &[u8], behind: usize, wants: bool) -> Step
        requires behind { self.now.place < behind }
        requires within { behind ≤ length text.now }
        ensures { (again rest : List formats.Edit) → (stands : Stands text.now again self.now rest)
            → part_of (drop self.now.place text.now) ≡ record { part = parts.Giving 1 formats.Stop; behind = drop behind text.now }
            → Steps wants text.now again rest (reach stands) result }
    {
        if wants {
            Step::On(self.moved(behind))
        } else {
            Step::Gives(Edit::Done, *self)
        }
    }

    /// Behind one copy of an edit.
    fn given(&self, times: usize, behind: usize) -> FormatWalk
        ensures last { (if self.now.left == 0 then times else self.now.left) ≤ 1 → result ≡ record self.now { place = behind; left = 0 } }
        ensures more { 1 < (if self.now.left == 0 then times else self.now.left)
            → result ≡ record self.now { left = (if self.now.left == 0 then times else self.now.left) - 1 } }
    {
        let left = copies_left(self.left, times);
        if left <= 1 {
            return self.moved(behind);
        }
        let mut walk = *self;
        walk.left = left - 1;
        walk
    }

    /// At an edit.
    fn give(&self, text: &[u8], times: usize, edit: Edit, behind: usize, wants: bool) -> Step
        requires behind { self.now.place < behind }
        requires within { behind ≤ length text.now }
        ensures { (again rest : List formats.Edit) → (stands : Stands text.now again self.now rest)
            → part_of (drop self.now.place text.now) ≡ record { part = part_in text.now (Part.Give times edit); behind = drop behind text.now }
            → Steps wants text.now again rest (reach stands) result }
    {
        let weight = weight_of(edit);
        if weight == 0 {
            return Step::On(self.moved(behind));
        }
        if pauses(wants, weight, 3) {
            return Step::Gives(Edit::Done, *self);
        }
        Step::Gives(edit, self.given(times, behind))
    }

    /// Before a place behind a group that is passed as a whole.
    fn passed(&self, place: usize) -> FormatWalk
        ensures { result ≡ record self.now { place = place; left = 0; again = (if self.now.depth == 0 then self.now.place else self.now.again) } }
    {
        let mut walk = *self;
        walk.again = again_from(self.depth, self.place, self.again);
        walk.place = place;
        walk.left = 0;
        walk
    }

    /// In a group, from its start on.
    fn entered(&self, start: usize, times: usize) -> FormatWalk
        requires { self.now.depth < 20 }
        ensures fields { result ≡ record {
          place = start;
          left = 0;
          again = (if self.now.depth == 0 then self.now.place else self.now.again);
          depth = self.now.depth + 1;
          groups = result.groups;
        } }
        ensures this { group_of result.groups self.now.depth ≡ record { start = start; left = times - 1 } }
        ensures others { (i : ℕ) → i < self.now.depth → group_of result.groups i ≡ group_of self.now.groups i }
    {
        let mut walk = *self;
        walk.again = again_from(self.depth, self.place, self.again);
        walk.place = start;
        walk.left = 0;
        walk.groups[self.depth] = Group {
            start,
            left: times.saturating_sub(1),
        };
        walk.depth += 1;
        walk
    }

    /// At a left parenthesis.
    fn open(&self, text: &[u8], times: usize, behind: usize, wants: bool) -> Step
        requires behind { self.now.place < behind }
        requires within { behind ≤ length text.now }
        requires deep { self.now.depth < 20 }
        ensures { (again rest : List formats.Edit) → (stands : Stands text.now again self.now rest)
            → part_of (drop self.now.place text.now) ≡ record { part = parts.Opening times; behind = drop behind text.now }
            → Steps wants text.now again rest (reach stands) result }
    {
        let group = weigh(text, behind);
        if group.weight > 1 {
            return Step::On(self.entered(behind, times));
        }
        if pauses(wants, group.weight, 1) {
            return Step::Gives(Edit::Done, *self);
        }
        Step::On(self.passed(group.behind))
    }

    /// Behind the innermost group.
    fn left_group(&self, place: usize) -> FormatWalk
        ensures { result ≡ record self.now { place = place; left = 0; depth = self.now.depth - 1 } }
    {
        let mut walk = *self;
        walk.place = place;
        walk.left = 0;
        walk.depth = self.depth.saturating_sub(1);
        walk
    }

    /// At the start of an open group, of which one copy fewer is left.
    fn turned(&self, depth: usize, group: Group) -> FormatWalk
        requires { depth < 20 }
        ensures fields { result ≡ record self.now { place = group.start; left = 0; groups = result.groups } }
        ensures this { group_of result.groups depth ≡ record { start = group.start; left = group.left - 1 } }
        ensures others { (i : ℕ) → i < depth → group_of result.groups i ≡ group_of self.now.groups i }
    {
        let mut walk = *self;
        walk.place = group.start;
        walk.left = 0;
        walk.groups[depth] = Group {
            start: group.start,
            left: group.left.saturating_sub(1),
        };
        walk
    }

    /// At the right parenthesis of a group.
    fn close(&self, text: &[u8], behind: usize, wants: bool) -> Step
        requires behind { self.now.place < behind }
        requires within { behind ≤ length text.now }
        requires inside { 0 < self.now.depth }
        requires deep { self.now.depth < 20 }
        ensures { (again rest : List formats.Edit) → (stands : Stands text.now again self.now rest)
            → part_of (drop self.now.place text.now) ≡ record { part = parts.Closing; behind = drop behind text.now }
            → Steps wants text.now again rest (reach stands) result }
    {
        let depth = self.depth - 1;
        let group = self.groups[depth];
        if group.left == 0 {
            return Step::On(self.left_group(behind));
        }
        Step::On(self.turned(depth, group))
    }

    /// At the right parenthesis of the format.
    fn end(&self, text: &[u8], behind: usize, wants: bool) -> Step
        requires again { self.now.again ≤ length text.now }
        requires outside { self.now.depth ≡ 0 }
        ensures { (again rest : List formats.Edit) → (stands : Stands text.now again self.now rest)
            → part_of (drop self.now.place text.now) ≡ record { part = parts.Closing; behind = drop behind text.now }
            → Steps wants text.now again rest (reach stands) result }
    {
        if !wants {
            return Step::Gives(Edit::Done, *self);
        }
        let list = weigh(text, self.again);
        if list.weight == 3 {
            return Step::Gives(Edit::NextRecord, self.moved(self.again));
        }
        Step::Gives(Edit::NoDescriptor, *self)
    }

    /// One part further.
    fn step(&self, text: &[u8], wants: bool) -> Step
        requires place { self.now.place ≤ length text.now }
        requires again { self.now.again ≤ length text.now }
        requires deep { self.now.depth < 20 }
        ensures { (again rest : List formats.Edit) → (stands : Stands text.now again self.now rest) → Steps wants text.now again rest (reach stands) result }
    {
        if self.place >= text.len() {
            return Step::Gives(Edit::Done, *self);
        }
        let parted = part_at(text, self.place);
        let behind = parted.behind;
        match parted.part {
            Part::Joint => self.joint(text, behind, wants),
            Part::Colon => self.colon(text, behind, wants),
            Part::Give { times, edit } => self.give(text, times, edit, behind, wants),
            Part::Open(times) => self.open(text, times, behind, wants),
            Part::Close => {
                if self.depth == 0 {
                    self.end(text, behind, wants)
                } else {
                    self.close(text, behind, wants)
                }
            }
        }
    }
}

/// Where the format is gone on with, behind a group at a place.
fn again_from(depth: usize, place: usize, again: usize) -> usize
    ensures { result ≡ (if depth == 0 then place else again) }
{
    if depth == 0 { place } else { again }
}

/// Whether a walk that wants no item ends at an edit of a weight.
fn pauses(wants: bool, weight: usize, at: usize) -> bool
    ensures wants { result ≡ true → wants ≡ false }
    ensures weight { result ≡ true → weight ≡ at }
    ensures no { result ≡ false → wants ≡ false → ¬ weight ≡ at }
{
    !wants && weight == at
}

/// How many copies of an edit are left, all where none was given.
fn copies_left(left: usize, times: usize) -> usize
    ensures { result ≡ (if left == 0 then times else left) }
{
    if left == 0 { times } else { left }
}
