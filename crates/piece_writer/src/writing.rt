//! Writing each piece to its file.

ghost use Rattle.std.specs.Prelude.{◌≡◌, length, bytes_eq, IfErr, OnOk};
ghost use Rattle.std.specs.List.{IsDistinct};
ghost use Rattle.f2c_outside.specs.declared.shelves.Place.TheVariants as place_of;
ghost use Rattle.shelf_texts.specs.ShelfLoops.{IsWritten};
ghost use Rattle.fsplit.specs.split_pieces.Pieces.{texts_in};
ghost use Rattle.piece_writer.specs.WrittenPieces.{IsUnwrittenFile, AreWritten, AreNotWritten};

use f2c_outside::shelves::{Place, Shelf};
use f2c_outside::texts::Name;
use fsplit::Pieces;
use shelf_texts::write_place;

/// Writes a text to the file of a name. Where the shelf fails, it is unchanged or holds a front of the text, and is given back.
fn write_file<H: Shelf>(shelf: &mut H, name: Name, text: &[u8]) -> Result<(), Place>
    ensures ok { OnOk result (IsWritten (place_of.File name) text.now (H.state shelf.old) (H.state shelf.new)) }
    ensures err { IfErr result (λ place. IsUnwrittenFile name text.now place (H.state shelf.old) (H.state shelf.new)) }
{
    let place = Place::File(name);
    match write_place(shelf, &place, text) {
        Err(_) => Err(place),
        Ok(()) => Ok(()),
    }
}

/// Writes each piece to the file of its name, in their order. No memory is taken.
///
/// # Errors
///
/// The file whose writing failed. The pieces before it are written; no later one is begun.
pub fn write_pieces<H: Shelf>(
    shelf: &mut H,
    pieces: &Pieces<'_>,
    names: Vec<Name>,
) -> Result<(), Place>
    requires counted { length names.items ≡ length pieces.now }
    requires apart { IsDistinct bytes_eq names.items }
    ensures ok { OnOk result (AreWritten names.items (texts_in pieces.now) (H.state shelf.old) (H.state shelf.new)) }
    ensures err { IfErr result (λ place. AreNotWritten names.items (texts_in pieces.now) place (H.state shelf.old) (H.state shelf.new)) }
{
    for (i, name) in names.into_iter().enumerate() {
        match write_file(shelf, name, pieces.piece(i)) {
            Err(place) => return Err(place),
            Ok(()) => {}
        }
    }
    Ok(())
}
