//! How a statement stands in the nest of IF blocks. Sections 11.6 to 11.9.
#![tactic(auto)]

ghost use Rattle.std.specs.Prelude.{◌≡◌};
ghost use Rattle.f_tree.specs.Lines.{mark_of as mark_read};
ghost use Rattle.order_judge.specs.NestSteps.{mark_in};

use f_tree::Body;

/// How a statement stands in the nest of IF blocks.
#[derive(Clone, Copy, Debug, PartialEq, Eq)]
pub enum BlockMark {
    /// It does not count.
    Plain,
    /// IF .. THEN
    Opens,
    /// ELSE IF .. THEN and ELSE
    Arm,
    /// END IF
    Closes,
}

/// How a statement stands in the nest of IF blocks.
#[tactic(auto, unfolding(f_tree::specs::Lines::mark_of, f_tree::specs::Folds::layer_of, crate::specs::NestSteps::mark_in))]
pub fn mark_of(body: &Body) -> BlockMark
    ensures { mark_in result ≡ mark_read body.now }
{
    match body {
        Body::IfThen(_) => BlockMark::Opens,
        Body::ElseIf(_) | Body::Else => BlockMark::Arm,
        Body::EndIf => BlockMark::Closes,
        _ => BlockMark::Plain,
    }
}
