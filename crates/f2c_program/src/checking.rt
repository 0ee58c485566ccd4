//! The command that checks calls, as the program gives its outcome.

ghost use Rattle.std.specs.Prelude.{◌≡◌};
ghost use Rattle.std.specs.List.{All};
ghost use Rattle.f2c_outside.specs.Shelf.{IsFile, IsSource};
ghost use Rattle.output_names.specs.WordPlaces.{files_named, prototypes_named};
ghost use Rattle.f2c_program.specs.CheckRows.{CheckEnded};

use check_command::{CheckFail, Checked, check};
use f_tree::names::Options;
use f2c_outside::shelves::{Place, Shelf};
use f2c_outside::texts::Words;
use outcomes::Outcome;
use output_names::{files_named, prototypes_named};
use std::alloc::Global;

/// Checks the calls of what some places hold, by what prototype files at others say.
fn check_places<H: Shelf>(
    alloc: Global,
    options: &Options,
    shelf: &mut H,
    froms: &[Place],
    prototypes: &[Place],
) -> Outcome
    requires sources { All IsSource froms.now }
    requires files { All IsFile prototypes.now }
    ensures { CheckEnded options.now froms.now prototypes.now (H.state shelf.old) (H.state shelf.new) result }
{
    match check(alloc, options, shelf, froms, prototypes) {
        Ok(Checked::Agreeing) => Outcome::Done,
        Ok(Checked::Disagreeing) => Outcome::Disagree,
        Err(CheckFail::NotThere(name)) => Outcome::NotThere(name),
        Err(CheckFail::Unread(place)) => Outcome::Unread(place),
        Err(CheckFail::Refused(refusal, name)) => Outcome::Refused(refusal, name),
        Err(CheckFail::NotPrototype(name, line)) => Outcome::NotPrototype(name, line),
        Err(CheckFail::Unwritten(place)) => Outcome::Unwritten(place),
        Err(CheckFail::NoMemory) => Outcome::NoMemory,
    }
}

/// Checks the calls of the FORTRAN files that the words name, by what they and the prototype files that the words name say.
#[tactic(auto, using(crate::proofs::PlaceLemmas::sources_named, crate::proofs::PlaceLemmas::prototypes_are_files))]
pub(crate) fn check_named<H: Shelf>(
    alloc: Global,
    words: &Words,
    options: &Options,
    shelf: &mut H,
) -> Outcome
    ensures { CheckEnded options.now (files_named words.now) (prototypes_named words.now) (H.state shelf.old) (H.state shelf.new) result }
{
    let Ok(froms) = files_named(alloc, words) else {
        return Outcome::NoMemory;
    };
    match prototypes_named(alloc, words) {
        Ok(prototypes) => check_places(
            alloc,
            options,
            shelf,
            froms.as_slice(),
            prototypes.as_slice(),
        ),
        Err(_) => Outcome::NoMemory,
    }
}
