//! The prototype files of a check.

ghost use Rattle.std.specs.Prelude.{◌≡◌, length, IfOk, IfErr};
ghost use Rattle.std.specs.List.{All};
ghost use Rattle.f2c_outside.specs.Shelf.{IsFile};
ghost use Rattle.proto_file.specs.prototypes.PrototypeText.{IsPrototypeFile};
ghost use Rattle.check_command.specs.PrototypeFiles.{HaveShapes, HaveNoShapes, IsBadPlace, IsFailAt, IsNoFile, ArePrototypesRead, ArePrototypesUnread};

use crate::failing::CheckFail;
use call_lines::with_lines;
use call_shapes::NamedShape;
use f_tree::Text;
use f2c_outside::shelves::{Place, Shelf};
use plain_data::Items;
use proto_file::{ProtoFail, Protos, read_protos};
use source_files::{MOST_BYTES, read_places};
use std::alloc::Global;

/// That what a place holds is no prototype file, for this line.
fn not_prototype(alloc: Global, place: &Place, line: usize) -> CheckFail
    requires { IsFile place.now }
    ensures { IsBadPlace place.now line result }
{
    match place {
        Place::File(name) => match Items::from_slice(alloc, name.as_bytes()) {
            Ok(name) => CheckFail::NotPrototype(name, line),
            Err(_) => CheckFail::NoMemory,
        },
        Place::Input | Place::Output | Place::Fault => unreachable!(),
    }
}

/// Why the text of a place gives no prototypes.
fn fail_at(alloc: Global, place: &Place, why: ProtoFail) -> CheckFail
    requires { IsFile place.now }
    ensures { IsFailAt place.now why result }
{
    match why {
        ProtoFail::NoMemory => CheckFail::NoMemory,
        ProtoFail::NotPrototype { line } => not_prototype(alloc, place, line),
    }
}

/// The prototypes of the prototype file at a place, which has this text.
fn protos_at(alloc: Global, place: &Place, text: &[u8]) -> Result<Protos, CheckFail>
    requires { IsFile place.now }
    ensures ok { IfOk result (IsPrototypeFile text.now) }
    ensures err { IfErr result (IsNoFile place.now text.now) }
{
    match read_protos(alloc, text) {
        Ok(protos) => Ok(protos),
        Err(why) => Err(fail_at(alloc, place, why)),
    }
}

/// The shapes of the lines of the prototype files at some places, of which each has one of the texts.
#[tactic(auto, using(crate::proofs::ReadLemmas::no_memory))]
fn shapes_of(
    alloc: Global,
    places: &[Place],
    texts: &[Text],
) -> Result<Items<NamedShape>, CheckFail>
    requires files { All IsFile places.now }
    requires counts { length texts.now ≡ length places.now }
    ensures ok { IfOk result (HaveShapes texts.now) }
    ensures err { IfErr result (HaveNoShapes places.now texts.now) }
{
    let mut shapes = Items::new(alloc);
    for (number, text) in texts.iter().enumerate() {
        let protos = protos_at(alloc, &places[number], text.as_slice())?;
        let more = with_lines(alloc, shapes, &protos)?;
        shapes = more;
    }
    Ok(shapes)
}

/// The shapes of the lines of the prototype files at some places, in their order.
pub(crate) fn read_prototypes<H: Shelf>(
    alloc: Global,
    shelf: &mut H,
    places: &[Place],
) -> Result<Items<NamedShape>, CheckFail>
    requires { All IsFile places.now }
    ensures ok { IfOk result (λ shapes. ArePrototypesRead places.now shapes (H.state shelf.old) (H.state shelf.new)) }
    ensures err { IfErr result (ArePrototypesUnread places.now (H.state shelf.old) (H.state shelf.new)) }
{
    let texts = read_places(alloc, shelf, places, MOST_BYTES)?;
    shapes_of(alloc, places, texts.as_slice())
}
