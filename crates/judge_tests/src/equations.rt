//! Equations between a few numbers.

use offset_classes::{Equation, Solution, solve};
use std::test::Fail;

const TIED: [Equation; 3] = [
    Equation {
        one: 0,
        other: 1,
        by: 4,
    },
    Equation {
        one: 2,
        other: 1,
        by: -8,
    },
    Equation {
        one: 0,
        other: 2,
        by: 12,
    },
];

const APART: [Equation; 3] = [
    Equation {
        one: 0,
        other: 1,
        by: 4,
    },
    Equation {
        one: 1,
        other: 2,
        by: 4,
    },
    Equation {
        one: 2,
        other: 0,
        by: -9,
    },
];

#[test]
fn numbers_stand_in_classes(rt: HostRuntime) -> Result<(), Fail> {
    let distance = match solve(rt.alloc(), 4, &TIED)? {
        Solution::Solved(places) => match (places.get(2), places.get(3)) {
            (Some(tied), Some(alone)) => (tied.offset, alone.offset),
            _ => (0, 1),
        },
        Solution::Contradicts(_) => (0, 2),
    };
    assert_eq!(rt; distance, (12, 0));
    let first = match solve(rt.alloc(), 3, &APART)? {
        Solution::Solved(_) => 0,
        Solution::Contradicts(at) => at,
    };
    assert_eq!(rt; first, 2);
    Ok(())
}
