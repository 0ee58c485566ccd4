//! Rows that stand where a condition does not hold, and the laws of the least row of a list.
#![tactic(auto)]

ghost use Rattle.std.specs.Prelude.{◌≡◌};
ghost use Rattle.kind_order.specs.Unless as spec;

use f_tree::Kind;

/// The row that stands where a condition does not hold.
#[tactic(auto, unfolding(crate::specs::Unless::unless_least))]
pub fn unless(holds: bool, kind: Kind) -> Option<Kind>
    ensures { result ≡ spec.unless_least holds kind }
{
    if holds { None } else { Some(kind) }
}
