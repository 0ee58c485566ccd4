//! Where the steps of statements stand.

ghost use Rattle.std.specs.Prelude.{◌≡◌, IfOk};
ghost use Rattle.statement_places.specs.StepPositions.{position_from, position_in, ArePositions};

use crate::sizes::Size;
use crate::sums::add;
use std::alloc::{AllocError, Global};

/// Where the steps of a statement stand. Positions are counted from 0.
#[derive(Clone, Copy, Debug, PartialEq, Eq)]
pub(crate) struct Position {
    /// Where its steps begin.
    pub start: usize,
    /// Where they begin behind those that pass the other arms.
    pub own_start: usize,
    /// Where they end, before those of loops that end with it.
    pub own_end: usize,
}

/// Where the steps of statements stand, and where those of the last one end.
#[derive(Drop)]
pub(crate) struct Positions {
    pub places: Vec<Position>,
    pub end: usize,
}

/// Where the steps of a statement stand, given where they begin and how many they are.
#[tactic(auto, unfolding(crate::specs::StepPositions::position_from))]
fn position_from(start: usize, size: Size) -> Result<Position, AllocError>
    ensures { IfOk result (λ position. position ≡ position_from start size) }
{
    let own_start = add(start, size.skip)?;
    let own_end = add(own_start, size.form)?;
    Ok(Position {
        start,
        own_start,
        own_end,
    })
}

/// Where the steps of statements stand that take so many.
pub(crate) fn positions_of(alloc: Global, sizes: &[Size]) -> Result<Positions, AllocError>
    ensures { IfOk result (ArePositions sizes.now) }
{
    let mut places = Vec::new(alloc);
    let mut end = 0;
    for size in sizes {
        let position = position_from(end, *size)?;
        places.push(position)?;
        end = add(position.own_end, size.turns)?;
    }
    Ok(Positions { places, end })
}

impl Positions {
    /// Where the steps of the statement at a place stand.
    #[tactic(auto, using(std::proofs::lemmas::Option::gets), unfolding(crate::specs::StepPositions::position_in, crate::specs::StepPositions::position_or))]
    pub(crate) fn get(&self, place: usize) -> Position
        ensures { result ≡ position_in self.now place }
    {
        match self.places.as_slice().get(place) {
            Some(position) => *position,
            None => Position {
                start: self.end,
                own_start: self.end,
                own_end: self.end,
            },
        }
    }
}
