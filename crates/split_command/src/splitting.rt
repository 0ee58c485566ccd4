//! From a file to the files of its pieces.

ghost use Rattle.std.specs.Prelude.{◌≡◌, length, bytes_eq, IfOk, IfErr, OnOk};
ghost use Rattle.std.specs.List.{IsDistinct};
ghost use Rattle.f2c_outside.specs.Shelf.{IsSource};
ghost use Rattle.shelf_texts.specs.ShelfLoops.{IsRead};
ghost use Rattle.fsplit.specs.split_pieces.Pieces.{texts_in};
ghost use Rattle.split_command.specs.Listing.{listing};
ghost use Rattle.split_command.specs.SplitFiles.{IsAllWritten, IsHalfWritten};
ghost use Rattle.split_command.specs.SplitEnds.{IsUnread, BytesSplit, SplitEnded};

use crate::failing::SplitFail;
use crate::listing::listing;
use f2c_outside::shelves::{Place, Shelf};
use f2c_outside::texts::Name;
use fsplit::{Pieces, cut};
use piece_choice::choose_names;
use piece_writer::write_pieces;
use shelf_texts::{ReadFail, read_place, write_place};
use std::alloc::Global;

/// The most bytes of a file that are read: one more than a file may have, so that a longer one is told from it.
const MOST_BYTES: usize = 16_777_217;

/// The bytes of a place, or the first of them where they are too many.
fn read_bytes<H: Shelf>(alloc: Global, shelf: &mut H, from: &Place) -> Result<Vec<u8>, SplitFail>
    requires { IsSource from.now }
    ensures ok { IfOk result (λ bytes. IsRead from.now 16777217 (H.state shelf.old) (H.state shelf.new) bytes.items) }
    ensures err { IfErr result (IsUnread from.now (H.state shelf.old) (H.state shelf.new)) }
{
    match read_place(alloc, shelf, from, MOST_BYTES) {
        Err(ReadFail::NoMemory) => Err(SplitFail::NoMemory),
        Err(ReadFail::NotThere) => Err(SplitFail::NotThere),
        Err(ReadFail::Failed) => Err(SplitFail::Unread),
        Ok(bytes) => Ok(bytes),
    }
}

/// Writes each piece to the file of its name, and then the listing on Output. No memory is taken.
fn write_all<H: Shelf>(
    shelf: &mut H,
    pieces: &Pieces<'_>,
    names: Vec<Name>,
    text: &[u8],
) -> Result<(), SplitFail>
    requires counted { length names.items ≡ length pieces.now }
    requires apart { IsDistinct bytes_eq names.items }
    requires listed { text.now ≡ listing names.items }
    ensures ok { OnOk result (IsAllWritten names.items (texts_in pieces.now) (H.state shelf.old) (H.state shelf.new)) }
    ensures err { IfErr result (IsHalfWritten names.items (texts_in pieces.now) (H.state shelf.old) (H.state shelf.new)) }
{
    match write_pieces(shelf, pieces, names) {
        Err(place) => return Err(SplitFail::Unwritten(place)),
        Ok(()) => {}
    }
    match write_place(shelf, &Place::Output, text) {
        Err(_) => Err(SplitFail::Unwritten(Place::Output)),
        Ok(()) => Ok(()),
    }
}

/// Writes the pieces of a file with these bytes. All names are chosen, and all memory is taken, before the first is written.
fn split_bytes<H: Shelf>(alloc: Global, shelf: &mut H, bytes: &[u8]) -> Result<(), SplitFail>
    ensures { BytesSplit bytes.now (H.state shelf.old) (H.state shelf.new) result }
{
    let pieces = cut(alloc, bytes)?;
    let names = choose_names(alloc, shelf, &pieces)?;
    let text = listing(alloc, names.as_slice())?;
    write_all(shelf, &pieces, names, &text)
}

/// Cuts what a place holds behind each END card, writes each piece to a file of its own, and puts the names of these files on Output, a line each.
/// A file has the name of its program unit in lower case, with `.f`; where a file or an earlier piece has that name, or the unit has none, a name
/// with a number. No file that is there is changed. After a failing write the files of the pieces before are whole, that of the failing one is
/// unchanged or has a front of it, and no other file is changed.
///
/// # Errors
///
/// The place is not there, it is too long, no number is free for a name, a fault of the shelf, or want of memory. Nothing was written then, but
/// where writing failed.
pub fn split_place<H: Shelf>(alloc: Global, shelf: &mut H, from: &Place) -> Result<(), SplitFail>
    requires { IsSource from.now }
    ensures { SplitEnded from.now (H.state shelf.old) (H.state shelf.new) result }
{
    let bytes = read_bytes(alloc, shelf, from)?;
    split_bytes(alloc, shelf, &bytes)
}
