//! Whether a text begins with a format (ANSI X3.9-1978, sections 13.1, 13.2 and 13.5).
ghost use Rattle.std.specs.Prelude.{◌≡◌, ◌+◌, ◌<◌, ◌≤◌, MatchResult};
ghost use Rattle.edit_meaning.specs.FormatTexts.{moved};
ghost use Rattle.edit_rules.specs.FormatPlaces.{mode_in, shape, closing_at, progress_by};
ghost use Rattle.edit_rules.specs.FormatChecks.{IsFront, IsRefusedAt, FormatsAreUnique, FormatsAreFronts, FormatOfIsSpelled, FormatEndIsSpelled};
ghost use Rattle.edit_rules.specs.FormatStandings.{progress_in};

use crate::format_places::{Joint, Mode, Move, Place, step};
use thiserror::Error;

/// No front of a text is a format.
#[derive(Clone, Copy, Debug, PartialEq, Eq, Error)]
#[error("no format goes on at place {place}")]
pub struct BadFormat {
    /// The first place at which no format goes on, from 0; the text's length where the text ends too early.
    pub place: usize,
}

// How many parentheses are open, one at least, and the place in the format.
#[derive(Clone, Copy)]
struct Standing {
    depth: usize,
    mode: Mode,
}

#[derive(Clone, Copy)]
enum Progress {
    Stuck,
    Stands(Standing),
    Ended,
}

/// The number of bytes of the format that begins the text, up to and with its right parenthesis.
///
/// The format may be anything that sections 13.1, 13.2 and 13.5 have of the edit descriptors I, L, A, apostrophes, H, X, T, TL, TR,
/// slash, colon, S, SP, SS, P, BN and BZ, with parentheses at most 20 deep.
///
/// # Errors
///
/// `BadFormat` exactly where no front of the text is a format.
pub fn check_format(text: &[u8]) -> Result<usize, BadFormat>
    ensures { MatchResult result (λ size. IsFront text.now size) (λ bad. IsRefusedAt text.now bad.place) }
{
    let mut standing = Standing {
        depth: 1,
        mode: Mode::Outside(Place::Start),
    };
    for (place, character) in text.iter().enumerate() {
        match advance(standing, *character) {
            Progress::Stuck => return Err(BadFormat { place }),
            Progress::Stands(next) => standing = next,
            Progress::Ended => return Ok(place + 1),
        }
    }
    Err(BadFormat { place: text.len() })
}

/// One character more.
fn advance(standing: Standing, character: u8) -> Progress
    requires { standing.depth < usize.MAX }
    ensures { progress_in result ≡ progress_by standing.depth (shape (moved standing.depth (mode_in standing.mode) character)) }
{
    let Standing { depth, mode } = standing;
    match step(depth, mode, character) {
        Move::Refused => Progress::Stuck,
        Move::To(mode) => Progress::Stands(Standing { depth, mode }),
        Move::Opens => Progress::Stands(Standing {
            depth: depth + 1,
            mode: Mode::Outside(Place::At(Joint::Wanted)),
        }),
        Move::Closes => close(depth),
    }
}

#[tactic(auto, using(crate::proofs::FormatMoves::closing_one, crate::proofs::FormatMoves::closing_more))]
/// A right parenthesis, where so many are open.
fn close(depth: usize) -> Progress
    ensures { progress_in result ≡ closing_at depth }
{
    if depth <= 1 {
        return Progress::Ended;
    }
    Progress::Stands(Standing {
        depth: depth - 1,
        mode: Mode::Outside(Place::At(Joint::Behind)),
    })
}

/// Laws of formats: a text has one front at most that is a format, and `format_of` and `format_end` give it and its size.
pub fn format_laws()
    ensures unique { FormatsAreUnique }
    ensures fronts { FormatsAreFronts }
    ensures given { FormatOfIsSpelled }
    ensures ends { FormatEndIsSpelled }
{}
