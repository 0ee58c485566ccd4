//! The command that translates.

ghost use Rattle.std.specs.Prelude.{◌≡◌, ◌<◌, List, ℕ, length, OnOk, IfErr};
ghost use Rattle.std.specs.List.{All};
ghost use Rattle.f2c_outside.specs.Shelf.{IsFile, IsSource, IsTarget};
ghost use Rattle.source_files.specs.source_reader.SourceReading.{IsNamed};
ghost use Rattle.translate_command.specs.SourceTexts.{IsRefusedIn, IsBadPlace, IsFormFail, AreOutputsWritten, ArePut, TranslatedSource};
ghost use Rattle.prototype_outputs.specs.Forms.{AreFiles};
ghost use Rattle.translate_command.specs.TranslateEnds.{TranslateEnded};

use crate::comparing::are_as_before;
use crate::failing::TranslateFail;
use crate::job::Job;
use crate::texts::{Made, translations};
use crate::writing::write_translations;
use f_tree::names::Options;
use f_tree::{Fail, Refusal, Text};
use f2c_outside::shelves::{Place, Shelf};
use plain_data::Items;
use prototype_outputs::{FormFail, check_forms};
use source_files::{MOST_BYTES, SourceRead, name_of_file, read_places, read_source_from};
use std::alloc::Global;

/// A refusal with the name of its file.
fn refused(alloc: Global, froms: &[Place], names: &[Text], refusal: Refusal) -> TranslateFail
    ensures { IsRefusedIn froms.now names.now refusal result }
{
    match name_of_file(alloc, froms, names, refusal.file) {
        Ok(name) => TranslateFail::Refused(refusal, name),
        Err(_) => TranslateFail::NoMemory,
    }
}

/// That what a place holds is no prototype file, for this line.
fn not_prototype(alloc: Global, place: &Place, line: usize) -> TranslateFail
    requires { IsFile place.now }
    ensures { IsBadPlace place.now line result }
{
    match place {
        Place::File(name) => match Items::from_slice(alloc, name.as_bytes()) {
            Ok(name) => TranslateFail::NotPrototype(name, line),
            Err(_) => TranslateFail::NoMemory,
        },
        Place::Input | Place::Output | Place::Fault => unreachable!(),
    }
}

/// Checks that the texts that were read at some places are prototype files.
fn check_texts(alloc: Global, forms: &[Place], texts: &[Text]) -> Result<(), TranslateFail>
    requires files { All IsFile forms.now }
    requires counts { length texts.now ≡ length forms.now }
    ensures ok { OnOk result (AreFiles texts.now) }
    ensures err { IfErr result (IsFormFail forms.now texts.now) }
{
    match check_forms(alloc, texts) {
        Ok(()) => Ok(()),
        Err(FormFail::NoMemory) => Err(TranslateFail::NoMemory),
        Err(FormFail::NotPrototype { number, line }) => {
            Err(not_prototype(alloc, &forms[number], line))
        }
    }
}

/// Writes outputs to places, where old prototype files were compared: whether they are the same.
fn write_outputs<H: Shelf>(
    shelf: &mut H,
    tos: Items<Place>,
    outputs: &[Text],
    same: bool,
) -> Result<bool, TranslateFail>
    requires { All IsTarget tos }
    ensures { AreOutputsWritten tos outputs.now same (H.state shelf.old) (H.state shelf.new) result }
{
    match write_translations(shelf, tos, outputs) {
        Err(place) => Err(TranslateFail::Unwritten(place)),
        Ok(()) => Ok(same),
    }
}

/// Compares old prototype files with those of a source, and writes its outputs.
fn put_outputs<H: Shelf>(
    alloc: Global,
    shelf: &mut H,
    olds: &[Place],
    made: &Made,
    tos: Items<Place>,
) -> Result<bool, TranslateFail>
    requires olds { All IsFile olds.now }
    requires targets { All IsTarget tos }
    ensures { ArePut olds.now made.now tos (H.state shelf.old) (H.state shelf.new) result }
{
    let lists = made.lists.as_slice();
    let outputs = made.outputs.as_slice();
    let same = are_as_before(alloc, shelf, olds, lists)?;
    write_outputs(shelf, tos, outputs, same)
}

/// Writes the outputs of a source, whose files were read, to places, where the further prototype files that were read are in form.
fn translate_source<H: Shelf>(
    alloc: Global,
    options: &Options,
    shelf: &mut H,
    job: &Job,
    read: &SourceRead,
    forms: &[Text],
    tos: Items<Place>,
) -> Result<bool, TranslateFail>
    requires files { All IsFile job.now.forms }
    requires olds { All IsFile job.now.olds }
    requires targets { All IsTarget tos }
    requires counts { length read.now.included ≡ length read.now.named.names }
    requires texts { length forms.now ≡ length job.now.forms }
    ensures { (files : List (List ℕ)) → IsNamed options.now files read.now.named → 0 < length files →
        TranslatedSource options.now job.now files read.now.named.names read.now.included forms.now tos (H.state shelf.old) (H.state shelf.new) result }
{
    let froms = job.froms.as_slice();
    let checked = job.forms.as_slice();
    let olds = job.olds.as_slice();
    match translations(alloc, options, read, job.prototypes) {
        Err(Fail::NoMemory) => Err(TranslateFail::NoMemory),
        Err(Fail::Refused(refusal)) => Err(refused(alloc, froms, read.named.names(), refusal)),
        Ok(made) => match check_texts(alloc, checked, forms) {
            Err(why) => Err(why),
            Ok(()) => put_outputs(alloc, shelf, olds, &made, tos),
        },
    }
}

/// Reads the files of a job and those that they include, judges them as one set, checks further prototype files, compares old ones, and writes the outputs
/// of the set to places: the translation of each file, and behind it its prototypes, where the job asks for them. The answer says whether each old
/// prototype file was there and had the prototypes of its file.
///
/// # Errors
///
/// The first file that cannot be read: one that is not there, or a fault of the shelf. The set has a first refusal, or else a prototype file is none. A fault
/// of the shelf where an output was written; the outputs before it are whole then. Or want of memory. Nothing is written but where writing failed.
pub fn translate<H: Shelf>(
    alloc: Global,
    options: &Options,
    shelf: &mut H,
    job: &Job,
    tos: Items<Place>,
) -> Result<bool, TranslateFail>
    requires sources { All IsSource job.now.froms }
    requires files { All IsFile job.now.forms }
    requires olds { All IsFile job.now.olds }
    requires targets { All IsTarget tos }
    requires some { 0 < length job.now.froms }
    ensures { TranslateEnded options.now job.now tos (H.state shelf.old) (H.state shelf.new) result }
{
    let read = read_source_from(alloc, options, shelf, job.froms.as_slice())?;
    let forms = read_places(alloc, shelf, job.forms.as_slice(), MOST_BYTES)?;
    translate_source(alloc, options, shelf, job, &read, forms.as_slice(), tos)
}
