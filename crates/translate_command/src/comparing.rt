//! Old prototype files, compared with new prototypes.

ghost use Rattle.std.specs.Prelude.{IfOk, IfErr};
ghost use Rattle.std.specs.List.{All};
ghost use Rattle.f2c_outside.specs.Shelf.{IsFile};
ghost use Rattle.translate_command.specs.OldPrototypes.{IsCompared, IsNotCompared, AreCompared, AreNotCompared};

use crate::failing::TranslateFail;
use f2c_outside::shelves::{Place, Shelf};
use proto_file::Protos;
use prototype_outputs::is_unchanged;
use shelf_texts::{ReadFail, read_place};
use source_files::MOST_BYTES;
use std::alloc::Global;

/// Whether a prototype file is there and has these prototypes.
#[tactic(auto, using(crate::proofs::FormLemmas::file_source, crate::proofs::OldLemmas::compared_away, crate::proofs::OldLemmas::failed_one, crate::proofs::OldLemmas::none_left, crate::proofs::OldLemmas::none_left_read))]
fn is_as_before<H: Shelf>(
    alloc: Global,
    shelf: &mut H,
    place: &Place,
    list: &Protos,
) -> Result<bool, TranslateFail>
    requires { IsFile place.now }
    ensures ok { IfOk result (λ same. IsCompared place.now list.now same (H.state shelf.old) (H.state shelf.new)) }
    ensures err { IfErr result (IsNotCompared place.now (H.state shelf.old) (H.state shelf.new)) }
{
    match read_place(alloc, shelf, place, MOST_BYTES) {
        Ok(bytes) => {
            let same = is_unchanged(alloc, &bytes, list)?;
            Ok(same)
        }
        Err(ReadFail::NotThere) => Ok(false),
        Err(ReadFail::Failed) => match place.copy(alloc) {
            Ok(failed) => Err(TranslateFail::Unread(failed)),
            Err(_) => Err(TranslateFail::NoMemory),
        },
        Err(ReadFail::NoMemory) => Err(TranslateFail::NoMemory),
    }
}

/// Whether each prototype file is there and has its prototypes: they are read up to the first that is not, or has others.
pub(crate) fn are_as_before<H: Shelf>(
    alloc: Global,
    shelf: &mut H,
    olds: &[Place],
    lists: &[Protos],
) -> Result<bool, TranslateFail>
    requires { All IsFile olds.now }
    ensures ok { IfOk result (λ same. AreCompared olds.now lists.now same (H.state shelf.old) (H.state shelf.new)) }
    ensures err { IfErr result (AreNotCompared olds.now (H.state shelf.old) (H.state shelf.new)) }
{
    let mut number = 0;
    while number < olds.len() && number < lists.len() {
        let same = is_as_before(alloc, shelf, &olds[number], &lists[number])?;
        if !same {
            return Ok(false);
        }
        number += 1;
    }
    Ok(true)
}
