//! Reading a whole place of a shelf, and writing a whole text to one.

ghost use Rattle.std.specs.Prelude.{◌≡◌, ◌++◌, ◌<◌, ◌≤◌, length, map, vec_len, IfOk, IfErr, OnOk, OnErr};
ghost use Rattle.f2c_outside.specs.Shelf.{IsSource, IsTarget, IsReading, IsWriting};
ghost use Rattle.shelf_texts.specs.ShelfLoops.{joined};
ghost use Rattle.shelf_texts.specs.ShelfLoops.{TookMore, TookAll, IsUntaken, IsRead, IsUnreadFor, HasPut, HasPutFront, IsWritten, IsUnwritten};
ghost use Rattle.shelf_texts.specs.Messages.{Said};

use f2c_outside::shelves::{Place, Shelf, ShelfFault};
use std::alloc::Global;

/// Why a place was not read.
#[derive(Clone, Copy)]
pub enum ReadFail {
    /// Memory ran out.
    NoMemory,
    /// There is no file of that name.
    NotThere,
    /// The shelf failed.
    Failed,
}

/// How many bytes are asked of the shelf at once.
const PIECE: usize = 4096;

/// Takes the next bytes of the place that is being read behind `bytes`, which holds fewer than `most`
/// before and at most as many after. Answers false where no byte was left.
fn take_more<H: Shelf>(shelf: &mut H, bytes: &mut Vec<u8>, most: usize) -> Result<bool, ReadFail>
    requires reading { IsReading (H.state shelf.old).active }
    requires room { vec_len bytes.old < most }
    ensures ok { IfOk result (λ more. TookMore more most (H.state shelf.old) (H.state shelf.new) bytes.old.items bytes.new.items) }
    ensures err { IfErr result (λ why. IsUntaken why (H.state shelf.old) (H.state shelf.new)) }
{
    let mut piece = [0; PIECE];
    let room = (most - bytes.len()).min(PIECE);
    match shelf.take(&mut piece[..room]) {
        Err(_) => Err(ReadFail::Failed),
        Ok(count) => match bytes.extend_from_slice(&piece[..count]) {
            Err(_) => Err(ReadFail::NoMemory),
            Ok(()) => Ok(0 < count),
        },
    }
}

/// The bytes left of the place that is being read, or the first `most` of them.
fn take_all<H: Shelf>(alloc: Global, shelf: &mut H, most: usize) -> Result<Vec<u8>, ReadFail>
    requires { IsReading (H.state shelf.old).active }
    ensures ok { IfOk result (λ bytes. TookAll most (H.state shelf.old) (H.state shelf.new) bytes.items) }
    ensures err { IfErr result (λ why. IsUntaken why (H.state shelf.old) (H.state shelf.new)) }
{
    let mut bytes = Vec::new(alloc);
    while bytes.len() < most {
        match take_more(shelf, &mut bytes, most) {
            Err(why) => return Err(why),
            Ok(true) => {}
            Ok(false) => return Ok(bytes),
        }
    }
    Ok(bytes)
}

/// Reads a place to its end, or its first `most` bytes where it holds more.
pub fn read_place<H: Shelf>(
    alloc: Global,
    shelf: &mut H,
    place: &Place,
    most: usize,
) -> Result<Vec<u8>, ReadFail>
    requires { IsSource place.now }
    ensures ok { IfOk result (λ bytes. IsRead place.now most (H.state shelf.old) (H.state shelf.new) bytes.items) }
    ensures err { IfErr result (λ why. IsUnreadFor why place.now (H.state shelf.old) (H.state shelf.new)) }
{
    match shelf.start_read(place) {
        Err(ShelfFault::Missing) => return Err(ReadFail::NotThere),
        Err(ShelfFault::Failed) => return Err(ReadFail::Failed),
        Ok(()) => {}
    }
    match take_all(alloc, shelf, most) {
        Err(why) => Err(why),
        Ok(bytes) => match shelf.stop() {
            Err(_) => Err(ReadFail::Failed),
            Ok(()) => Ok(bytes),
        },
    }
}

/// Puts a whole text behind what the place that is being written holds. Where the shelf fails, a front
/// of it was put.
fn put_all<H: Shelf>(shelf: &mut H, text: &[u8]) -> Result<(), ShelfFault>
    requires { IsWriting (H.state shelf.old).active }
    ensures ok { OnOk result (HasPut text.now (H.state shelf.old) (H.state shelf.new)) }
    ensures quiet { OnOk result ((H.state shelf.new).faults ≡ (H.state shelf.old).faults) }
    ensures err { OnErr result (HasPutFront text.now (H.state shelf.old) (H.state shelf.new)) }
{
    let mut done = 0;
    while done < text.len() {
        match shelf.put(&text[done..]) {
            Err(fault) => return Err(fault),
            Ok(count) => done += count,
        }
    }
    Ok(())
}

/// Writes a whole text to a place. Where the shelf fails, the place is unchanged or holds a front of it.
pub fn write_place<H: Shelf>(shelf: &mut H, place: &Place, text: &[u8]) -> Result<(), ShelfFault>
    requires { IsTarget place.now }
    ensures ok { OnOk result (IsWritten place.now text.now (H.state shelf.old) (H.state shelf.new)) }
    ensures err { OnErr result (IsUnwritten place.now text.now (H.state shelf.old) (H.state shelf.new)) }
{
    match shelf.start_write(place) {
        Err(fault) => return Err(fault),
        Ok(()) => {}
    }
    match put_all(shelf, text) {
        Err(fault) => Err(fault),
        Ok(()) => shelf.stop(),
    }
}

/// Puts several pieces, one after the other, behind what the place that is being written holds. Where
/// the shelf fails, a front of them was put.
fn put_pieces<H: Shelf>(shelf: &mut H, pieces: &[&[u8]]) -> Result<(), ShelfFault>
    requires { IsWriting (H.state shelf.old).active }
    ensures ok { OnOk result (HasPut (joined (map (λ p. p.now) pieces.now)) (H.state shelf.old) (H.state shelf.new)) }
    ensures quiet { OnOk result ((H.state shelf.new).faults ≡ (H.state shelf.old).faults) }
    ensures err { OnErr result (HasPutFront (joined (map (λ p. p.now) pieces.now)) (H.state shelf.old) (H.state shelf.new)) }
{
    for piece in pieces {
        match put_all(shelf, piece) {
            Err(fault) => return Err(fault),
            Ok(()) => {}
        }
    }
    Ok(())
}

/// Writes these pieces, one after the other, to a place. Where the shelf fails, the place is unchanged or
/// holds a front of them.
pub fn write_pieces<H: Shelf>(
    shelf: &mut H,
    place: &Place,
    pieces: &[&[u8]],
) -> Result<(), ShelfFault>
    requires { IsTarget place.now }
    ensures ok { OnOk result (IsWritten place.now (joined (map (λ p. p.now) pieces.now)) (H.state shelf.old) (H.state shelf.new)) }
    ensures err { OnErr result (IsUnwritten place.now (joined (map (λ p. p.now) pieces.now)) (H.state shelf.old) (H.state shelf.new)) }
{
    match shelf.start_write(place) {
        Err(fault) => return Err(fault),
        Ok(()) => {}
    }
    match put_pieces(shelf, pieces) {
        Err(fault) => Err(fault),
        Ok(()) => shelf.stop(),
    }
}

/// Writes a line of these pieces on Fault: the whole line where the shelf does not fail, else a front of
/// it.
pub fn say<H: Shelf>(shelf: &mut H, pieces: &[&[u8]])
    ensures { Said (joined (map (λ p. p.now) pieces.now)) (H.state shelf.old) (H.state shelf.new) }
{
    match shelf.start_write(&Place::Fault) {
        Err(_) => return,
        Ok(()) => {}
    }
    match put_pieces(shelf, pieces) {
        Err(_) => return,
        Ok(()) => {}
    }
    let _ = shelf.stop();
}

/// Writes a line of these pieces on Fault, the second ones behind the first: the whole line where the shelf does not fail, else a
/// front of it.
pub fn say_two<H: Shelf>(shelf: &mut H, first: &[&[u8]], second: &[&[u8]])
    ensures { Said (joined (map (λ p. p.now) first.now) ++ joined (map (λ p. p.now) second.now)) (H.state shelf.old) (H.state shelf.new) }
{
    match shelf.start_write(&Place::Fault) {
        Err(_) => return,
        Ok(()) => {}
    }
    match put_pieces(shelf, first) {
        Err(_) => return,
        Ok(()) => {}
    }
    match put_pieces(shelf, second) {
        Err(_) => return,
        Ok(()) => {}
    }
    let _ = shelf.stop();
}
