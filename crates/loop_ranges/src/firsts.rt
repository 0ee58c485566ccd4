//! The first of the loops whose ranges end at a place, looked up without a walk over all of them.
#![tactic(auto)]

ghost use Rattle.std.specs.Prelude.{◌≡◌, ℕ, None, Some, nat_eq, OnOk, if◌then◌else◌};
ghost use Rattle.f_tree.specs.Attributes.{first_of_two};
ghost use Rattle.loop_ranges.specs.FirstLoops.{first_at};

use indexmap::IndexMap;
use std::alloc::{AllocError, Global};

/// Where the first of the loops begins whose ranges end at a place.
#[derive(Drop)]
pub(crate) struct FirstLoops {
    begins: IndexMap<usize, usize>,
}

impl FirstLoops {
    /// No loops.
    #[tactic(auto, unfolding(crate::specs::FirstLoops::first_at))]
    pub(crate) fn new(alloc: Global) -> FirstLoops
        ensures { (k : ℕ) → first_at result k ≡ None }
    {
        FirstLoops {
            begins: IndexMap::new(alloc),
        }
    }

    /// Where the first of the loops begins whose ranges end at a place.
    #[tactic(auto, unfolding(crate::specs::FirstLoops::first_at))]
    pub(crate) fn get(&self, place: usize) -> Option<usize>
        ensures { result ≡ first_at self.now place }
    {
        self.begins.get(&place).copied()
    }

    /// Gives a place the loop that begins at `first`.
    fn put(&mut self, place: usize, first: usize) -> Result<(), AllocError>
        ensures { OnOk result ((k : ℕ) → first_at self.new k ≡ (if nat_eq place k then Some first else first_at self.old k)) }
    {
        match self.begins.insert(place, first) {
            Ok(_) => Ok(()),
            Err(_) => Err(AllocError),
        }
    }

    /// Notes a loop whose range ends at a place, where that place has none yet.
    pub(crate) fn note(&mut self, place: usize, first: usize) -> Result<(), AllocError>
        ensures { OnOk result ((k : ℕ) → first_at self.new k ≡ first_of_two (first_at self.old k) (if nat_eq place k then Some first else None)) }
    {
        match self.get(place) {
            Some(_) => Ok(()),
            None => self.put(place, first),
        }
    }
}
