//! The listing of the calls that disagree.

ghost use Rattle.std.specs.Prelude.{◌≡◌, ◌++◌, map, IfOk};
ghost use Rattle.call_shapes.specs.Disagreements.{disagreeing};
ghost use Rattle.check_command.specs.Listing.{name_shown, file_names, ArePut, AreListed};

use crate::checked::{Checked, answer_of};
use crate::failing::CheckFail;
use call_check::check_calls;
use call_lines::finding_lines;
use call_shapes::{Finding, NamedShape};
use f_tree::{File, Text};
use f2c_outside::shelves::{Place, Shelf};
use plain_data::Items;
use shelf_texts::write_place;
use std::alloc::{AllocError, Global};

/// The name of a place, of which a stream has none.
fn name_shown(place: &Place) -> &[u8]
    ensures { result.now ≡ name_shown place.now }
{
    match place {
        Place::File(name) => name.as_bytes(),
        Place::Input | Place::Output | Place::Fault => &[],
    }
}

/// The names of places.
#[tactic(auto, using(crate::proofs::ListingLemmas::none_shown, crate::proofs::ListingLemmas::shown_more, crate::proofs::ListingLemmas::all_shown))]
fn names_shown(alloc: Global, places: &[Place]) -> Result<Items<Text>, AllocError>
    ensures { IfOk result (λ names. names ≡ map name_shown places.now) }
{
    let mut names = Items::new(alloc);
    for place in places {
        names.push(Items::from_slice(alloc, name_shown(place))?)?;
    }
    Ok(names)
}

/// Names, and behind them copies of others.
#[tactic(auto, using(crate::proofs::ListingLemmas::with_none, crate::proofs::ListingLemmas::with_more, crate::proofs::ListingLemmas::with_all))]
fn with_names(alloc: Global, names: Items<Text>, others: &[Text]) -> Result<Items<Text>, AllocError>
    ensures { IfOk result (λ all. all ≡ names ++ others.now) }
{
    let mut all = names;
    for other in others {
        all.push(Items::from_slice(alloc, other.as_slice())?)?;
    }
    Ok(all)
}

/// The names of the files of a source in their order: those of its places, and then those that these include.
pub(crate) fn file_names(
    alloc: Global,
    froms: &[Place],
    included: &[Text],
) -> Result<Items<Text>, AllocError>
    ensures { IfOk result (λ names. names ≡ file_names froms.now included.now) }
{
    let names = names_shown(alloc, froms)?;
    with_names(alloc, names, included)
}

/// Puts the lines of findings on Output, and says whether there is a finding.
fn put_lines<H: Shelf>(
    shelf: &mut H,
    findings: &[Finding],
    lines: &[u8],
) -> Result<Checked, CheckFail>
    ensures { ArePut findings.now lines.now (H.state shelf.old) (H.state shelf.new) result }
{
    match write_place(shelf, &Place::Output, lines) {
        Ok(()) => Ok(answer_of(findings)),
        Err(_) => Err(CheckFail::Unwritten(Place::Output)),
    }
}

/// Lists each call of a set that disagrees with what it calls, on Output: all lines are made before the first is put.
pub(crate) fn list_calls<H: Shelf>(
    alloc: Global,
    shelf: &mut H,
    names: &[Text],
    files: &[File],
    shapes: &[NamedShape],
) -> Result<Checked, CheckFail>
    ensures { AreListed names.now (disagreeing files.now shapes.now) (H.state shelf.old) (H.state shelf.new) result }
{
    let findings = check_calls(alloc, files, shapes)?;
    let lines = finding_lines(alloc, names, &findings)?;
    put_lines(shelf, &findings, &lines)
}
