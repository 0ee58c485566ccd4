//! What is found of the calls of a source.

ghost use Rattle.std.specs.Prelude.{◌≡◌};
ghost use Rattle.check_command.specs.Listing.{answer_of};

use call_shapes::Finding;

/// Whether the calls of a source agree with what they call.
#[derive(Clone, Copy, Debug, PartialEq, Eq)]
pub enum Checked {
    /// Each call does.
    Agreeing,
    /// One does not, at least.
    Disagreeing,
}

/// Whether a call disagrees.
#[tactic(auto, using(crate::proofs::ListingLemmas::none_found, crate::proofs::ListingLemmas::some_found))]
pub(crate) fn answer_of(findings: &[Finding]) -> Checked
    ensures { result ≡ answer_of findings.now }
{
    match findings {
        [] => Checked::Agreeing,
        [_, ..] => Checked::Disagreeing,
    }
}
