//! Reading places to their ends, in their order.

ghost use Rattle.std.specs.Prelude.{◌≡◌, IfOk, IfErr};
ghost use Rattle.std.specs.List.{All};
ghost use Rattle.f2c_outside.specs.Shelf.{IsFile, IsSource};
ghost use Rattle.f2c_outside.specs.declared.shelves.Place.TheVariants as place_of;
ghost use Rattle.shelf_texts.specs.ShelfLoops.{IsRead};
ghost use Rattle.source_files.specs.SourceReads.{ArePlacesRead, ArePlacesUnread, IsPlaceUnread};

use crate::failing::SourceFail;
use f_tree::Text;
use f2c_outside::shelves::{Place, Shelf};
use plain_data::Items;
use shelf_texts::{ReadFail, read_place};
use std::alloc::{AllocError, Global};

/// The most bytes of a file of FORTRAN cards or of prototypes that are read: one more than it may have, so that a longer one is told
/// from it.
pub const MOST_BYTES: usize = 16_777_217;

/// The name of a place that is a file.
fn file_name(alloc: Global, place: &Place) -> Result<Text, AllocError>
    requires { IsFile place.now }
    ensures { IfOk result (λ name. place.now ≡ place_of.File name) }
{
    match place {
        Place::File(name) => Items::from_slice(alloc, name.as_bytes()),
        Place::Input | Place::Output | Place::Fault => unreachable!(),
    }
}

/// What a place holds, or its first bytes, so many, where it holds more.
#[tactic(auto, using(crate::proofs::PlaceLemmas::is_file, crate::proofs::PlaceLemmas::away, crate::proofs::PlaceLemmas::failed, crate::proofs::PlaceLemmas::no_memory))]
pub(crate) fn read_front<H: Shelf>(
    alloc: Global,
    shelf: &mut H,
    place: &Place,
    most: usize,
) -> Result<Text, SourceFail>
    requires { IsSource place.now }
    ensures ok { IfOk result (IsRead place.now most (H.state shelf.old) (H.state shelf.new)) }
    ensures err { IfErr result (IsPlaceUnread place.now (H.state shelf.old) (H.state shelf.new)) }
{
    match read_place(alloc, shelf, place, most) {
        Ok(bytes) => Ok(Items::from_vec(bytes)),
        Err(ReadFail::NoMemory) => Err(SourceFail::NoMemory),
        Err(ReadFail::NotThere) => {
            let name = file_name(alloc, place)?;
            Err(SourceFail::NotThere(name))
        }
        Err(ReadFail::Failed) => {
            let failed = place.copy(alloc)?;
            Err(SourceFail::Unread(failed))
        }
    }
}

/// What places hold, in their order, or the first bytes of one, so many, where it holds more.
///
/// # Errors
///
/// The first that cannot be read ends it: a file that is not there, or a fault of the shelf. Or want of memory.
#[tactic(auto, using(crate::proofs::PlaceLemmas::at_end, crate::proofs::PlaceLemmas::no_memory_left))]
pub fn read_places<H: Shelf>(
    alloc: Global,
    shelf: &mut H,
    places: &[Place],
    most: usize,
) -> Result<Items<Text>, SourceFail>
    requires { All IsSource places.now }
    ensures ok { IfOk result (λ texts. ArePlacesRead most places.now texts (H.state shelf.old) (H.state shelf.new)) }
    ensures err { IfErr result (ArePlacesUnread places.now (H.state shelf.old) (H.state shelf.new)) }
{
    let mut texts = Items::new(alloc);
    for place in places {
        let text = read_front(alloc, shelf, place, most)?;
        texts.push(text)?;
    }
    Ok(texts)
}
