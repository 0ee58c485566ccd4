//! The names of all pieces.

ghost use Rattle.std.specs.Prelude.{◌≡◌, length, bytes_eq, IfOk, IfErr, OnOk};
ghost use Rattle.std.specs.List.{IsDistinct};
ghost use Rattle.piece_names.specs.Asking.{OnlyAsked};
ghost use Rattle.piece_choice.specs.declared.choosing.NamesFail.TheVariants as names_fail;
ghost use Rattle.piece_choice.specs.NamesOfPieces.{AreAskable, AreChosen, AreNew, AreNotChosen, IsFailOf};

use f2c_outside::shelves::Shelf;
use f2c_outside::texts::Name;
use fsplit::Pieces;
use piece_names::{ChoiceFail, choose_name};
use std::alloc::{AllocFailed, Global};

/// Why no names were chosen.
#[derive(Drop)]
pub enum NamesFail {
    /// Memory was refused.
    NoMemory,
    /// The shelf failed when it was asked for this name.
    Failed(Name),
    /// No number is free for the piece with this number, counted from 1.
    NoneFree(usize),
}

impl From<ChoiceFail> for NamesFail {
    ghost from_gives = { λ fail names_fail. IsFailOf fail names_fail };

    fn from(fail: ChoiceFail) -> NamesFail {
        match fail {
            ChoiceFail::NoMemory => NamesFail::NoMemory,
            ChoiceFail::Failed(name) => NamesFail::Failed(name),
        }
    }
}

impl From<AllocFailed<Name>> for NamesFail {
    ghost from_gives = { λ _ fail. fail ≡ names_fail.NoMemory };

    fn from(_refused: AllocFailed<Name>) -> NamesFail {
        NamesFail::NoMemory
    }
}

/// The names of the pieces, in their order: each has the name that it asks for, or where that is none or not free the first free one with a
/// number. The shelf is only asked.
///
/// # Errors
///
/// The first piece for which no number is free, a fault of the shelf with the name that it was asked for, or want of memory.
pub fn choose_names<H: Shelf>(
    alloc: Global,
    shelf: &mut H,
    pieces: &Pieces<'_>,
) -> Result<Vec<Name>, NamesFail>
    requires { AreAskable pieces.now }
    ensures asked { OnlyAsked (H.state shelf.old) (H.state shelf.new) }
    ensures quiet { OnOk result ((H.state shelf.new).faults ≡ (H.state shelf.old).faults) }
    ensures counted { IfOk result (λ names. length names.items ≡ length pieces.now) }
    ensures chosen { IfOk result (λ names. AreChosen pieces.now names.items (H.state shelf.old).told) }
    ensures apart { IfOk result (λ names. IsDistinct bytes_eq names.items) }
    ensures absent { IfOk result (λ names. AreNew names.items (H.state shelf.old).told) }
    ensures failed { IfErr result (AreNotChosen pieces.now (H.state shelf.old) (H.state shelf.new)) }
{
    let mut names = Vec::new(alloc);
    for place in 0..pieces.len() {
        let own = pieces.name(place);
        match choose_name(alloc, shelf, names.as_slice(), pieces.wanted(place), own)? {
            None => return Err(NamesFail::NoneFree(place + 1)),
            Some(name) => names.push(name)?,
        }
    }
    Ok(names)
}
