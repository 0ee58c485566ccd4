//! The files of a source: those that are judged, and those that they include.

ghost use Rattle.std.specs.Prelude.{IfOk, IfErr};
ghost use Rattle.source_reader.specs.SourceReading.{IsNamed};
ghost use Rattle.source_files.specs.SourceReads.{IsSourceRead, IsSourceUnread};

use crate::failing::SourceFail;
use crate::included::read_included;
use f_tree::Text;
use f_tree::names::Options;
use f2c_outside::shelves::Shelf;
use plain_data::Items;
use source_reader::{NamedFiles, read_files};
use std::alloc::{AllocError, Global};

/// The files of a source as they were read: the cards of those that are judged, and the bytes of those that they include.
#[derive(Drop)]
pub struct SourceRead {
    /// The cards of the files that are judged.
    pub named: NamedFiles,
    /// The bytes of the files that they include.
    pub included: Items<Text>,
}

/// The files that are judged, by their cards. Their bytes are let go.
fn named_files(
    alloc: Global,
    options: &Options,
    files: Items<Text>,
) -> Result<NamedFiles, AllocError>
    ensures { IfOk result (IsNamed options.now files) }
{
    read_files(alloc, files.as_slice(), options)
}

/// The files of a source, of which the first have these bytes: those that they include are read, up to the first file that has a fault of its cards.
///
/// # Errors
///
/// The first file that cannot be read ends it: one that is not there, or a fault of the shelf. Or want of memory.
pub fn read_source<H: Shelf>(
    alloc: Global,
    options: &Options,
    shelf: &mut H,
    files: Items<Text>,
) -> Result<SourceRead, SourceFail>
    ensures ok { IfOk result (λ read. IsSourceRead 16777217 options.now files read (H.state shelf.old) (H.state shelf.new)) }
    ensures err { IfErr result (IsSourceUnread options.now files (H.state shelf.old) (H.state shelf.new)) }
{
    let named = named_files(alloc, options, files)?;
    let included = read_included(alloc, shelf, named.names())?;
    Ok(SourceRead { named, included })
}
