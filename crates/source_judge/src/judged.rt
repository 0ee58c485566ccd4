//! The set of a source that is accepted.

ghost use Rattle.std.specs.Prelude.{◌≡◌, length, List, ℕ};
ghost use Rattle.source_reader.specs.SourceReading.{IsNamed};
ghost use Rattle.source_judge.specs.JudgedSource.{IsApart, IsSourceJudged};

use crate::declared::{read_declared, unless};
use f_tree::names::Options;
use f_tree::{Fail, FileSet, Text};
use set_judge::global_fault;
use source_reader::NamedFiles;
use std::alloc::Global;

/// A set, or the first row of the names that its units share and of their main programs.
fn apart(alloc: Global, set: FileSet) -> Result<FileSet, Fail>
    ensures { IsApart set result }
{
    let refused = global_fault(alloc, set.files.as_slice())?;
    unless(refused, set)
}

/// The set of the trees of a source whose calls may be checked, from the files that are named and the bytes of those that they include, which are
/// given in the order of their names. Every form of the language is accepted, translated or not.
///
/// # Errors
///
/// The first refusal of the source: of its cards (F01 to F07, F47), of its statements (F10 to F17), of its nests of blocks (F17), of its declarations
/// (F20 to F33, F39 to F45), or of the names that units share and of main programs (F51, F52); or want of memory.
pub fn judge_source(
    alloc: Global,
    named: &NamedFiles,
    included: &[Text],
    options: &Options,
) -> Result<FileSet, Fail>
    requires { length included.now ≡ length named.now.names }
    ensures { (files : List (List ℕ)) → IsNamed options.now files named.now → IsSourceJudged options.now files named.now.names included.now result }
{
    match read_declared(alloc, named, included, options) {
        Ok(set) => apart(alloc, set),
        Err(fail) => Err(fail),
    }
}
