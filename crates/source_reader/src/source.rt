//! From the cards of a source to the set of its trees.

ghost use Rattle.std.specs.Prelude.{◌≡◌, length, List, ℕ, IfOk};
ghost use Rattle.source_reader.specs.SourceReading.{IsNamed};
ghost use Rattle.source_reader.specs.Sources.{IsSourceRead, first_of_cards, AreTreesOf, IsNotDeep};

use crate::counts::{by_name, first_passing};
use crate::included::{PartsRead, or_else, read_parts};
use crate::named::NamedFiles;
use crate::trees::{after, check_parts, deep_in_files, parse_files, spliced, unless};
use cards::Cards;
use f_tree::{Fail, FileSet, Options, Refusal, Text};
use std::alloc::{AllocError, Global};

/// The set of the trees of a source, from the files that are named and the bytes of those that they include, which are given in the order of
/// their names. INCLUDE statements are replaced in it.
///
/// # Errors
///
/// The first refusal of the source by its phase, then by the file, the card and the number, where it is one of the cards (F01 to F07 and F47),
/// the statements (F10 to F17) or the nests of blocks (F17); or want of memory.
pub fn read_source(
    alloc: Global,
    named: &NamedFiles,
    included: &[Text],
    options: &Options,
) -> Result<FileSet, Fail>
    requires { length included.now ≡ length named.now.names }
    ensures { (files : List (List ℕ)) → IsNamed options.now files named.now → IsSourceRead options.now files named.now.names included.now result }
{
    let parts = read_parts(alloc, included, named.files.len(), options)?;
    match first_of_cards(alloc, named, &parts)? {
        Some(refusal) => Err(Fail::Refused(refusal)),
        None => read_trees(
            alloc,
            named.files.as_slice(),
            named.names.as_slice(),
            parts.cards.as_slice(),
        ),
    }
}

/// The first refusal of the cards of a source.
fn first_of_cards(
    alloc: Global,
    named: &NamedFiles,
    parts: &PartsRead,
) -> Result<Option<Refusal>, AllocError>
    requires { length named.now.names ≡ length parts.now.counts }
    ensures { IfOk result (λ refusal. refusal ≡ first_of_cards named.now parts.now) }
{
    let counts = by_name(alloc, named.names.as_slice(), parts.counts.as_slice())?;
    let passing = first_passing(alloc, &counts, named.files.as_slice())?;
    Ok(or_else(passing, or_else(named.refused, parts.refused)))
}

/// The set of the trees of a source, or the first refusal of its statements and its nests, from its cards.
fn read_trees(
    alloc: Global,
    files: &[Cards],
    names: &[Text],
    parts: &[Cards],
) -> Result<FileSet, Fail>
    requires { length names.now ≡ length parts.now }
    ensures { AreTreesOf files.now names.now parts.now result }
{
    let trees = match parse_files(alloc, files) {
        Ok(trees) => trees,
        Err(fail) => return Err(fail),
    };
    match after(trees, check_parts(alloc, names, parts)) {
        Ok(trees) => match spliced(alloc, names, parts, trees) {
            Ok(set) => not_deep(alloc, set),
            Err(fail) => Err(fail),
        },
        Err(fail) => Err(fail),
    }
}

/// A set, or the first refusal of its nests.
fn not_deep(alloc: Global, set: FileSet) -> Result<FileSet, Fail>
    ensures { IsNotDeep set result }
{
    let refused = deep_in_files(alloc, set.files.as_slice())?;
    unless(refused, set)
}
