//! Reading C files, and the trees that they spell.

ghost use Rattle.std.specs.Prelude.{◌≡◌, ◌<◌, length, IfOk, IfErr};
ghost use Rattle.std.specs.List.{All};
ghost use Rattle.f2c_outside.specs.Shelf.{IsFile};
ghost use Rattle.c_tree.specs.CText.{CText};
ghost use Rattle.c_file_reader.specs.ReadTexts.{IsRead};
ghost use Rattle.c_totality.specs.Totality.{AreWellFormed};
ghost use Rattle.c_sources.specs.CTexts.{judged};
ghost use Rattle.c_sources.specs.CFiles.{AreSpelled, AreNotSpelled, IsRefusedPlace, IsFailAt, IsNoTree, AreTreesRead, AreTreesUnread};

use crate::failing::CSourceFail;
use c_file_reader::{ReadFail, read_c};
use c_tree::file::CFile;
use f_tree::Text;
use f2c_outside::shelves::{Place, Shelf};
use plain_data::Items;
use source_files::read_places;
use std::alloc::{AllocError, Global};

/// The most bytes of a C file.
const MOST_BYTES: usize = 67_108_864;

/// The bytes of a text that is too long, as it is judged: the byte past the last that a file may have stands for one that no file has.
fn cut_text(alloc: Global, text: &[u8]) -> Result<Vec<u8>, AllocError>
    requires { 67108864 < length text.now }
    ensures { IfOk result (λ cut. cut.items ≡ judged text.now) }
{
    let mut cut = Vec::from_slice(alloc, &text[..MOST_BYTES])?;
    cut.push(0)?;
    Ok(cut)
}

/// The tree that a text spells.
fn tree_of(alloc: Global, text: &[u8]) -> Result<CFile, ReadFail>
    ensures { IsRead (judged text.now) result }
{
    if text.len() <= MOST_BYTES {
        return read_c(alloc, text);
    }
    match cut_text(alloc, text) {
        Ok(cut) => read_c(alloc, &cut),
        Err(_) => Err(ReadFail::NoMemory),
    }
}

/// That what a place holds is not in the C subset, for this line.
fn not_c(alloc: Global, place: &Place, line: usize) -> CSourceFail
    requires { IsFile place.now }
    ensures { IsRefusedPlace place.now line result }
{
    match place {
        Place::File(name) => match Items::from_slice(alloc, name.as_bytes()) {
            Ok(name) => CSourceFail::NotC(name, line),
            Err(_) => CSourceFail::NoMemory,
        },
        Place::Input | Place::Output | Place::Fault => unreachable!(),
    }
}

/// Why the text of a place gives no tree.
fn fail_at(alloc: Global, place: &Place, why: ReadFail) -> CSourceFail
    requires { IsFile place.now }
    ensures { IsFailAt place.now why result }
{
    match why {
        ReadFail::NoMemory => CSourceFail::NoMemory,
        ReadFail::NotC { line } => not_c(alloc, place, line),
    }
}

/// The tree that the C file at a place spells, which has this text.
#[tactic(auto, using(crate::proofs::TreeLemmas::is_spelled, crate::proofs::TreeLemmas::no_tree))]
fn tree_at(alloc: Global, place: &Place, text: &[u8]) -> Result<CFile, CSourceFail>
    requires { IsFile place.now }
    ensures ok { IfOk result (CText (judged text.now)) }
    ensures err { IfErr result (IsNoTree place.now text.now) }
{
    match tree_of(alloc, text) {
        Ok(file) => Ok(file),
        Err(why) => Err(fail_at(alloc, place, why)),
    }
}

/// The trees that the C files at some places spell, of which each has one of the texts.
#[tactic(auto, using(crate::proofs::TreeLemmas::no_memory))]
fn trees_of(alloc: Global, places: &[Place], texts: &[Text]) -> Result<Items<CFile>, CSourceFail>
    requires files { All IsFile places.now }
    requires counts { length texts.now ≡ length places.now }
    ensures ok { IfOk result (AreSpelled texts.now) }
    ensures err { IfErr result (AreNotSpelled places.now texts.now) }
{
    let mut files = Items::new(alloc);
    for (number, text) in texts.iter().enumerate() {
        let file = tree_at(alloc, &places[number], text.as_slice())?;
        files.push(file)?;
    }
    Ok(files)
}

/// The trees that the C files at some places spell, in their order (C89, 3.7). Of each place at most 67,108,865 bytes are read, one more than a file may
/// have, and all places before the first is judged.
///
/// # Errors
/// The first that cannot be read: a file that is not there, or a fault of the shelf; else the first that is not in the C subset; or want of memory.
pub fn read_c_files<H: Shelf>(
    alloc: Global,
    shelf: &mut H,
    places: &[Place],
) -> Result<Items<CFile>, CSourceFail>
    requires { All IsFile places.now }
    ensures ok { IfOk result (λ files. AreTreesRead places.now files (H.state shelf.old) (H.state shelf.new)) }
    ensures formed { IfOk result AreWellFormed }
    ensures err { IfErr result (AreTreesUnread places.now (H.state shelf.old) (H.state shelf.new)) }
{
    let texts = read_places(alloc, shelf, places, MOST_BYTES + 1)?;
    trees_of(alloc, places, texts.as_slice())
}
