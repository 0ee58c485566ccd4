//! Reading the files that a source includes.

ghost use Rattle.std.specs.Prelude.{◌≡◌, [], ◌∷◌, IfOk, IfErr};
ghost use Rattle.f2c_outside.specs.Texts.{IsName};
ghost use Rattle.f2c_outside.specs.declared.shelves.Place.TheVariants as place_of;
ghost use Rattle.source_files.specs.SourceReads.{AreRead, AreUnread, IsUnreadFile};

use crate::failing::SourceFail;
use crate::places::{MOST_BYTES, read_front};
use f_tree::Text;
use f2c_outside::shelves::{Place, Shelf};
use f2c_outside::texts::{Name, NameFail};
use plain_data::Items;
use std::alloc::Global;

/// The front of a file that is included, by its place.
fn read_at<H: Shelf>(
    alloc: Global,
    shelf: &mut H,
    name: &[u8],
    place: &Place,
) -> Result<Text, SourceFail>
    requires named { place.now ≡ place_of.File name.now }
    requires fits { IsName name.now }
    ensures ok { IfOk result (λ text. AreRead 16777217 (name.now ∷ []) (text ∷ []) (H.state shelf.old) (H.state shelf.new)) }
    ensures err { IfErr result (IsUnreadFile name.now (H.state shelf.old) (H.state shelf.new)) }
{
    read_front(alloc, shelf, place, MOST_BYTES)
}

/// The front of a file that is included. No file has a name without a byte, or with more than 255.
#[tactic(auto, using(crate::proofs::ReadLemmas::lacking, crate::proofs::ReadLemmas::no_memory, crate::proofs::PlaceLemmas::kept_as_it_is))]
fn read_named<H: Shelf>(alloc: Global, shelf: &mut H, name: &[u8]) -> Result<Text, SourceFail>
    ensures ok { IfOk result (λ text. AreRead 16777217 (name.now ∷ []) (text ∷ []) (H.state shelf.old) (H.state shelf.new)) }
    ensures err { IfErr result (IsUnreadFile name.now (H.state shelf.old) (H.state shelf.new)) }
{
    match Name::new(alloc, name) {
        Err(NameFail::NoMemory) => Err(SourceFail::NoMemory),
        Err(NameFail::BadName) => {
            let missing = Items::from_slice(alloc, name)?;
            Err(SourceFail::NotThere(missing))
        }
        Ok(named) => read_at(alloc, shelf, name, &Place::File(named)),
    }
}

/// The fronts of the files of these names, in their order. The first that cannot be read ends it.
#[tactic(auto, using(crate::proofs::ReadLemmas::at_end, crate::proofs::ReadLemmas::no_memory_left))]
pub(crate) fn read_included<H: Shelf>(
    alloc: Global,
    shelf: &mut H,
    names: &[Text],
) -> Result<Items<Text>, SourceFail>
    ensures ok { IfOk result (λ texts. AreRead 16777217 names.now texts (H.state shelf.old) (H.state shelf.new)) }
    ensures err { IfErr result (AreUnread names.now (H.state shelf.old) (H.state shelf.new)) }
{
    let mut texts = Items::new(alloc);
    let mut rest = names;
    while let [name, others @ ..] = rest {
        let text = read_named(alloc, shelf, name.as_slice())?;
        texts.push(text)?;
        rest = others;
    }
    Ok(texts)
}
