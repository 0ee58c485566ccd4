//! The command that checks calls.

ghost use Rattle.std.specs.Prelude.{◌≡◌, List, ℕ, length};
ghost use Rattle.std.specs.List.{All};
ghost use Rattle.f2c_outside.specs.Shelf.{IsFile, IsSource};
ghost use Rattle.source_files.specs.source_reader.SourceReading.{IsNamed};
ghost use Rattle.check_command.specs.CheckSteps.{SetChecked, IsRefusedIn, IsNotJudged, SourceChecked};
ghost use Rattle.check_command.specs.CheckEnds.{CheckEnded};

use crate::checked::Checked;
use crate::failing::CheckFail;
use crate::listing::{file_names, list_calls};
use crate::prototype_reading::read_prototypes;
use f_tree::names::Options;
use f_tree::{Fail, File, Refusal, Text};
use f2c_outside::shelves::{Place, Shelf};
use source_files::{SourceRead, name_of_file, read_source_from};
use source_judge::judge_source;
use std::alloc::Global;

/// A refusal with the name of its file.
fn refused(alloc: Global, froms: &[Place], names: &[Text], refusal: Refusal) -> CheckFail
    ensures { IsRefusedIn froms.now names.now refusal result }
{
    match name_of_file(alloc, froms, names, refusal.file) {
        Ok(name) => CheckFail::Refused(refusal, name),
        Err(_) => CheckFail::NoMemory,
    }
}

/// Why the calls of a source that is not judged were not checked.
fn not_judged(alloc: Global, froms: &[Place], names: &[Text], why: Fail) -> CheckFail
    ensures { IsNotJudged froms.now names.now why result }
{
    match why {
        Fail::NoMemory => CheckFail::NoMemory,
        Fail::Refused(refusal) => refused(alloc, froms, names, refusal),
    }
}

/// Checks the calls of a set, by what prototype files say. The files of the set have these places, and include files with these names.
fn check_set<H: Shelf>(
    alloc: Global,
    shelf: &mut H,
    froms: &[Place],
    included: &[Text],
    files: &[File],
    prototypes: &[Place],
) -> Result<Checked, CheckFail>
    requires { All IsFile prototypes.now }
    ensures { SetChecked froms.now included.now files.now prototypes.now (H.state shelf.old) (H.state shelf.new) result }
{
    let names = file_names(alloc, froms, included)?;
    let shapes = read_prototypes(alloc, shelf, prototypes)?;
    list_calls(alloc, shelf, names.as_slice(), files, shapes.as_slice())
}

/// Checks the calls of a source, whose files were read, by what prototype files say.
fn check_source<H: Shelf>(
    alloc: Global,
    options: &Options,
    shelf: &mut H,
    froms: &[Place],
    read: &SourceRead,
    prototypes: &[Place],
) -> Result<Checked, CheckFail>
    requires files { All IsFile prototypes.now }
    requires counts { length read.now.included ≡ length read.now.named.names }
    ensures { (files : List (List ℕ)) → IsNamed options.now files read.now.named →
        SourceChecked options.now froms.now files read.now.named.names read.now.included prototypes.now (H.state shelf.old) (H.state shelf.new) result }
{
    let included = read.included.as_slice();
    let mentioned = read.named.names();
    match judge_source(alloc, &read.named, included, options) {
        Ok(set) => check_set(
            alloc,
            shelf,
            froms,
            mentioned,
            set.files.as_slice(),
            prototypes,
        ),
        Err(why) => Err(not_judged(alloc, froms, mentioned, why)),
    }
}

/// Reads some places and the files that they include, judges them as one set, reads prototype files, and lists on Output each call of the set that
/// disagrees with the procedure that it calls: one of the set, else the first line of the prototype files with that name. A line for each:
/// `FILE:CARD: NAME: REASON`.
///
/// # Errors
///
/// The first file that cannot be read: one that is not there, or a fault of the shelf. The set has a first refusal; every form of the language is
/// accepted, translated or not. The first prototype file that is none. A fault of the shelf where the lines were written. Or want of memory. Nothing
/// is written but where writing failed.
pub fn check<H: Shelf>(
    alloc: Global,
    options: &Options,
    shelf: &mut H,
    froms: &[Place],
    prototypes: &[Place],
) -> Result<Checked, CheckFail>
    requires sources { All IsSource froms.now }
    requires files { All IsFile prototypes.now }
    ensures { CheckEnded options.now froms.now prototypes.now (H.state shelf.old) (H.state shelf.new) result }
{
    let read = read_source_from(alloc, options, shelf, froms)?;
    check_source(alloc, options, shelf, froms, &read, prototypes)
}
