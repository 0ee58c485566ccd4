//! The set of a source, up to its declarations.

ghost use Rattle.std.specs.Prelude.{◌≡◌, length, List, ℕ};
ghost use Rattle.source_reader.specs.SourceReading.{IsNamed};
ghost use Rattle.source_reader.specs.Trees.{IsUnless};
ghost use Rattle.source_judge.specs.JudgedSource.{IsWellDeclared, IsSourceDeclared};

use f_tree::names::Options;
use f_tree::{Fail, FileSet, Refusal, Text};
use source_reader::{NamedFiles, read_source};
use std::alloc::Global;
use unit_judge::set_fault;

/// A value, unless it is refused.
pub(crate) fn unless<T: Drop>(refused: Option<Refusal>, value: T) -> Result<T, Fail>
    ensures { IsUnless refused value result }
{
    match refused {
        Some(refusal) => Err(Fail::Refused(refusal)),
        None => Ok(value),
    }
}

/// A set, or the first row of its declarations.
fn well_declared(alloc: Global, options: Options, set: FileSet) -> Result<FileSet, Fail>
    ensures { IsWellDeclared options set result }
{
    let refused = set_fault(alloc, options, set.files.as_slice())?;
    unless(refused, set)
}

/// The set of the trees of a source that breaks no row of its cards, its statements, its nests and its declarations, from the files that are named
/// and the bytes of those that they include, which are given in the order of their names. INCLUDE statements are replaced in it.
///
/// # Errors
///
/// The first refusal of the source, where it is one of the cards (F01 to F07, F47), the statements (F10 to F17), the nests of blocks (F17) or the
/// declarations (F20 to F33, F39 to F45); or want of memory.
pub fn read_declared(
    alloc: Global,
    named: &NamedFiles,
    included: &[Text],
    options: &Options,
) -> Result<FileSet, Fail>
    requires { length included.now ≡ length named.now.names }
    ensures { (files : List (List ℕ)) → IsNamed options.now files named.now → IsSourceDeclared options.now files named.now.names included.now result }
{
    match read_source(alloc, named, included, options) {
        Ok(set) => well_declared(alloc, *options, set),
        Err(fail) => Err(fail),
    }
}
