//! The name of a piece.

ghost use Rattle.std.specs.Prelude.{◌≡◌, ◌≤◌, false, length, bytes_eq, IfOk, IfErr, IfSome, OnOk};
ghost use Rattle.std.specs.List.{list_any};
ghost use Rattle.f2c_outside.specs.Texts.{IsName};
ghost use Rattle.split_pieces.specs.ChosenNames.{is_free, first_free, choice, IsCandidate};
ghost use Rattle.piece_names.specs.declared.choosing.ChoiceFail.TheVariants as choice_fail;
ghost use Rattle.piece_names.specs.Asking.{has, kept_if, OnlyAsked, IsCause, IsNumbered};

use crate::numbers::numbered;
use f2c_outside::shelves::Shelf;
use f2c_outside::texts::{Name, NameFail, NoMemory};
use split_pieces::Wanted;
use std::alloc::Global;

/// Why no name was chosen.
#[derive(Drop)]
pub enum ChoiceFail {
    /// Memory was refused.
    NoMemory,
    /// The shelf failed when it was asked for this name.
    Failed(Name),
}

impl From<NoMemory> for ChoiceFail {
    ghost from_gives = { λ _ fail. fail ≡ choice_fail.NoMemory };

    fn from(_refused: NoMemory) -> ChoiceFail {
        ChoiceFail::NoMemory
    }
}

/// Whether a name is one of those that are taken.
fn is_taken(taken: &[Name], name: &Name) -> bool
    ensures { result ≡ list_any (bytes_eq name.now) taken.now }
{
    taken
        .iter()
        .any(|other| name.as_bytes() == other.as_bytes())
}

/// A name, where it is free.
fn if_free<H: Shelf>(shelf: &mut H, taken: &[Name], name: Name) -> Result<Option<Name>, ChoiceFail>
    ensures asked { OnlyAsked (H.state shelf.old) (H.state shelf.new) }
    ensures quiet { OnOk result ((H.state shelf.new).faults ≡ (H.state shelf.old).faults) }
    ensures free { IfOk result (λ found. IfSome (H.state shelf.old).told (λ contents. found ≡ kept_if (is_free (has contents) taken.now name) name)) }
    ensures untaken { IfOk result (λ found. IfSome found (λ name. list_any (bytes_eq name) taken.now ≡ false)) }
    ensures failed { IfErr result (IsCause (λ other. other ≡ name) (H.state shelf.old).faults (H.state shelf.new).faults) }
{
    match shelf.is_there(&name) {
        Err(_) => Err(ChoiceFail::Failed(name)),
        Ok(true) => Ok(None),
        Ok(false) => {
            if is_taken(taken, &name) {
                Ok(None)
            } else {
                Ok(Some(name))
            }
        }
    }
}

/// The first free name with a number.
fn first_free<H: Shelf>(
    alloc: Global,
    shelf: &mut H,
    taken: &[Name],
    prefix: &[u8],
) -> Result<Option<Name>, ChoiceFail>
    requires { length prefix.now ≤ 6 }
    ensures asked { OnlyAsked (H.state shelf.old) (H.state shelf.new) }
    ensures quiet { OnOk result ((H.state shelf.new).faults ≡ (H.state shelf.old).faults) }
    ensures free { IfOk result (λ found. IfSome (H.state shelf.old).told (λ contents. found ≡ first_free (has contents) taken.now prefix.now 1000 0)) }
    ensures untaken { IfOk result (λ found. IfSome found (λ name. list_any (bytes_eq name) taken.now ≡ false)) }
    ensures failed { IfErr result (IsCause (IsNumbered prefix.now) (H.state shelf.old).faults (H.state shelf.new).faults) }
{
    for number in 0..1000 {
        let name = numbered(alloc, prefix, number)?;
        if let Some(name) = if_free(shelf, taken, name)? {
            return Ok(Some(name));
        }
    }
    Ok(None)
}

/// The own name of a piece.
fn own_name(alloc: Global, own: &[u8]) -> Result<Name, NoMemory>
    requires { IsName own.now }
    ensures { IfOk result (λ name. name ≡ own.now) }
{
    match Name::new(alloc, own) {
        Ok(name) => Ok(name),
        Err(NameFail::NoMemory) => Err(NoMemory),
        Err(NameFail::BadName) => unreachable!(),
    }
}

/// The name of a piece whose unit has a name: that, where it is free, else the first free one with a number.
fn choose_own<H: Shelf>(
    alloc: Global,
    shelf: &mut H,
    taken: &[Name],
    own: &[u8],
) -> Result<Option<Name>, ChoiceFail>
    requires { IsName own.now }
    ensures asked { OnlyAsked (H.state shelf.old) (H.state shelf.new) }
    ensures quiet { OnOk result ((H.state shelf.new).faults ≡ (H.state shelf.old).faults) }
    ensures chosen { IfOk result (λ found. IfSome (H.state shelf.old).told (λ contents. found ≡ choice (has contents) taken.now (record { wanted = Wanted.Named; name = own.now }))) }
    ensures untaken { IfOk result (λ found. IfSome found (λ name. list_any (bytes_eq name) taken.now ≡ false)) }
    ensures failed { IfErr result (IsCause (IsCandidate (record { wanted = Wanted.Named; name = own.now })) (H.state shelf.old).faults (H.state shelf.new).faults) }
{
    let name = own_name(alloc, own)?;
    if let Some(name) = if_free(shelf, taken, name)? {
        return Ok(Some(name));
    }
    first_free(alloc, shelf, taken, b"zzz")
}

/// The name of a piece of which it is told what it asks for, where earlier pieces have the names that are taken: its own where that is free,
/// else the first free one with a number. No earlier piece has it. `None` where no number is free. The shelf is only asked.
///
/// # Errors
///
/// A fault of the shelf, with the name that it was asked for, or want of memory.
pub fn choose_name<H: Shelf>(
    alloc: Global,
    shelf: &mut H,
    taken: &[Name],
    wanted: Wanted,
    own: &[u8],
) -> Result<Option<Name>, ChoiceFail>
    requires { wanted ≡ Wanted.Named → IsName own.now }
    ensures asked { OnlyAsked (H.state shelf.old) (H.state shelf.new) }
    ensures quiet { OnOk result ((H.state shelf.new).faults ≡ (H.state shelf.old).faults) }
    ensures chosen { IfOk result (λ found. IfSome (H.state shelf.old).told (λ contents. found ≡ choice (has contents) taken.now (record { wanted = wanted; name = own.now }))) }
    ensures untaken { IfOk result (λ found. IfSome found (λ name. list_any (bytes_eq name) taken.now ≡ false)) }
    ensures failed { IfErr result (IsCause (IsCandidate (record { wanted = wanted; name = own.now })) (H.state shelf.old).faults (H.state shelf.new).faults) }
{
    match wanted {
        Wanted::Named => choose_own(alloc, shelf, taken, own),
        Wanted::Main => first_free(alloc, shelf, taken, b"main"),
        Wanted::BlockData => first_free(alloc, shelf, taken, b"blkdta"),
        Wanted::Unknown => first_free(alloc, shelf, taken, b"zzz"),
    }
}
