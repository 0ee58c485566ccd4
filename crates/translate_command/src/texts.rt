//! The outputs of the translation of a source.

ghost use Rattle.std.specs.Prelude.{◌≡◌, ◌<◌, List, length, ℕ, IfOk, IfErr};
ghost use Rattle.source_files.specs.source_reader.SourceReading.{IsNamed};
ghost use Rattle.translate_command.specs.SourceTexts.{AreMadeFor, AreMadeOf, IsRefusedFor};

use c_tree::file::CFile;
use f_tree::names::Options;
use f_tree::{Fail, Text};
use kept_loops::kept::translations_keep_loops;
use object_bounds::bounded::translations_have_few_bytes;
use plain_data::Items;
use proto_file::Protos;
use prototype_outputs::{lists_of, outputs_are_of_their_files, outputs_of};
use source_files::SourceRead;
use source_translator::translate_source;
use std::alloc::{AllocError, Global};
use step_bounds::bounded::translations_are_bounded;
use translated_sets::sets::{accepted_sets_are_faithful, accepted_sets_have_signatures};

/// The outputs of a source, and the prototypes of each of its files.
#[derive(Drop)]
pub(crate) struct Made {
    /// The text of each C file, and where that is asked for the text of its prototypes behind it.
    pub(crate) outputs: Items<Text>,
    /// The prototypes of each file.
    pub(crate) lists: Items<Protos>,
}

/// What is made of C files. An error says that there is no memory for it.
fn made_of(alloc: Global, files: &[CFile], prototypes: bool) -> Result<Made, AllocError>
    ensures { IfOk result (AreMadeOf prototypes files.now) }
{
    let outputs = outputs_of(alloc, files, prototypes)?;
    let lists = lists_of(alloc, files)?;
    Ok(Made { outputs, lists })
}

/// The outputs of a source, whose C texts are faithful to it, keep its loops and have bounded step factors and objects, or its first refusal.
pub(crate) fn translations(
    alloc: Global,
    options: &Options,
    read: &SourceRead,
    prototypes: bool,
) -> Result<Made, Fail>
    requires { length read.now.included ≡ length read.now.named.names }
    ensures done { (files : List (List ℕ)) → IsNamed options.now files read.now.named → 0 < length files → IfOk result (AreMadeFor options.now prototypes files read.now.named.names read.now.included) }
    ensures refused { (files : List (List ℕ)) → IsNamed options.now files read.now.named → IfErr result (IsRefusedFor options.now files read.now.named.names read.now.included) }
{
    let files = translate_source(alloc, &read.named, read.included.as_slice(), options)?;
    match made_of(alloc, files.as_slice(), prototypes) {
        Err(_) => Err(Fail::NoMemory),
        Ok(made) => {
            accepted_sets_are_faithful();
            translations_keep_loops();
            translations_are_bounded();
            translations_have_few_bytes();
            accepted_sets_have_signatures();
            outputs_are_of_their_files();
            Ok(made)
        }
    }
}
