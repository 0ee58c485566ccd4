//! The C files of a source.

ghost use Rattle.std.specs.Prelude.{◌≡◌, length, List, ℕ};
ghost use Rattle.source_reader.specs.SourceReading.{IsNamed};
ghost use Rattle.source_translator.specs.TranslatedSource.{IsSourceTranslated};

use crate::files::translate_set;
use c_tree::file::CFile;
use f_tree::names::Options;
use f_tree::{Fail, Text};
use plain_data::Items;
use source_judge::read_declared;
use source_reader::NamedFiles;
use std::alloc::Global;

/// The C files of a source, one for each file that is named, in their order, from the files that are named and the bytes of those that they include,
/// which are given in the order of their names. INCLUDE statements are replaced before.
///
/// # Errors
///
/// The first refusal of the source: of its cards (F01 to F07, F47), of its statements (F10 to F17), of its nests of blocks (F17), of its declarations
/// (F20 to F33, F39 to F45), of the forms that are not translated yet (F99), or of the names that units share and of main programs (F51, F52); or
/// want of memory.
pub fn translate_source(
    alloc: Global,
    named: &NamedFiles,
    included: &[Text],
    options: &Options,
) -> Result<Items<CFile>, Fail>
    requires { length included.now ≡ length named.now.names }
    ensures { (files : List (List ℕ)) → IsNamed options.now files named.now → IsSourceTranslated options.now files named.now.names included.now result }
{
    match read_declared(alloc, named, included, options) {
        Ok(set) => translate_set(alloc, *options, set.files.as_slice()),
        Err(fail) => Err(fail),
    }
}
