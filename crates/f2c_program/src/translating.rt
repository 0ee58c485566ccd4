//! The command that translates, as the program gives its outcome.

ghost use Rattle.std.specs.Prelude.{◌≡◌, ◌<◌, [], length, IfOk, if◌then◌else◌};
ghost use Rattle.std.specs.List.{All};
ghost use Rattle.f2c_outside.specs.Shelf.{IsFile, IsSource, IsTarget};
ghost use Rattle.output_names.specs.WordPlaces as places_by;
ghost use Rattle.f2c_program.specs.TranslateRows.{job_of, TranslateEnded};

use command_words::Translation;
use f_tree::names::Options;
use f2c_outside::shelves::{Place, Shelf};
use f2c_outside::texts::{NoMemory, Words};
use outcomes::Outcome;
use output_names::{inputs_of, outputs_of, prototype_outputs, prototypes_named};
use plain_data::Items;
use std::alloc::Global;
use translate_command::{Job, TranslateFail, translate};

/// Translates the files of a job onto some places.
fn translate_onto<H: Shelf>(
    alloc: Global,
    options: &Options,
    shelf: &mut H,
    job: &Job,
    tos: Items<Place>,
) -> Outcome
    requires sources { All IsSource job.now.froms }
    requires files { All IsFile job.now.forms }
    requires olds { All IsFile job.now.olds }
    requires targets { All IsTarget tos }
    requires some { 0 < length job.now.froms }
    ensures { TranslateEnded options.now job.now tos (H.state shelf.old) (H.state shelf.new) result }
{
    match translate(alloc, options, shelf, job, tos) {
        Ok(true) => Outcome::Done,
        Ok(false) => Outcome::Changed,
        Err(TranslateFail::NotThere(name)) => Outcome::NotThere(name),
        Err(TranslateFail::Unread(place)) => Outcome::Unread(place),
        Err(TranslateFail::Refused(refusal, name)) => Outcome::Refused(refusal, name),
        Err(TranslateFail::NotPrototype(name, line)) => Outcome::NotPrototype(name, line),
        Err(TranslateFail::Unwritten(place)) => Outcome::Unwritten(place),
        Err(TranslateFail::NoMemory) => Outcome::NoMemory,
    }
}

/// The old prototype files that are compared: those of the files that the words name, or none.
fn olds_of(alloc: Global, words: &Words, compared: bool) -> Result<Items<Place>, NoMemory>
    ensures { IfOk result (λ olds. olds ≡ (if compared then places_by.prototype_outputs words.now else [])) }
{
    if compared {
        prototype_outputs(alloc, words)
    } else {
        Ok(Items::new(alloc))
    }
}

/// The files of the translation that the words ask for.
fn job_of(alloc: Global, words: &Words, asked: &Translation) -> Result<Job, NoMemory>
    ensures { IfOk result (λ job. job ≡ job_of words.now asked.now) }
{
    let froms = inputs_of(alloc, words)?;
    let forms = prototypes_named(alloc, words)?;
    let olds = olds_of(alloc, words, asked.compared)?;
    Ok(Job {
        froms,
        forms,
        prototypes: asked.prototypes,
        olds,
    })
}

/// Translates the files that the words name, or Input.
#[tactic(auto, using(crate::proofs::PlaceLemmas::sources_of, crate::proofs::PlaceLemmas::targets_of, crate::proofs::PlaceLemmas::some_inputs))]
pub(crate) fn translate_named<H: Shelf>(
    alloc: Global,
    words: &Words,
    asked: &Translation,
    shelf: &mut H,
) -> Outcome
    ensures { TranslateEnded asked.now.options (job_of words.now asked.now) (places_by.outputs_of asked.now.prototypes words.now) (H.state shelf.old) (H.state shelf.new) result }
{
    let Ok(job) = job_of(alloc, words, asked) else {
        return Outcome::NoMemory;
    };
    match outputs_of(alloc, words, asked.prototypes) {
        Ok(outputs) => translate_onto(alloc, &asked.options, shelf, &job, outputs),
        Err(_) => Outcome::NoMemory,
    }
}
