//! The C files of trees.

ghost use Rattle.std.specs.Prelude.{◌≡◌};
ghost use Rattle.source_reader.specs.Trees.{IsUnless};
ghost use Rattle.source_translator.specs.TranslatedSource.{AreTranslated, IsSetTranslated};

use c_tree::file::CFile;
use f_tree::{Fail, File, Options, Refusal};
use plain_data::Items;
use set_judge::global_fault;
use std::alloc::Global;
use translator::translate_files;

/// A value, unless it is refused.
fn unless<T: Drop>(refused: Option<Refusal>, value: T) -> Result<T, Fail>
    ensures { IsUnless refused value result }
{
    match refused {
        Some(row) => Err(Fail::Refused(row)),
        None => Ok(value),
    }
}

/// The C files of some files, one for each, or the first row of a form that is not translated.
#[tactic(auto, using(crate::proofs::FilesInOrder::translations_are_translated))]
fn translated(alloc: Global, options: Options, files: &[File]) -> Result<Items<CFile>, Fail>
    ensures { AreTranslated options files.now result }
{
    translate_files(alloc, options, files)
}

/// The C files of the files of a set, one for each, or the first row of a form that is not translated, or else the first row of the names that their
/// units share and of their main programs.
pub(crate) fn translate_set(
    alloc: Global,
    options: Options,
    files: &[File],
) -> Result<Items<CFile>, Fail>
    ensures { IsSetTranslated options files.now result }
{
    let shared = global_fault(alloc, files)?;
    match translated(alloc, options, files) {
        Ok(made) => unless(shared, made),
        Err(fail) => Err(fail),
    }
}
