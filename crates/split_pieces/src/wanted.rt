//! The name that a piece asks for. Sections 14 to 16 of the standard, ANSI X3.9-1978.
#![tactic(auto)]

use plain_data::Items;

/// How the name of a piece is found.
#[derive(Clone, Copy, Debug, PartialEq, Eq)]
pub enum Wanted {
    /// By the name of its unit: PROGRAM, SUBROUTINE, FUNCTION or BLOCK DATA with a name. Sections 14.1, 15.5.1, 15.6.1 and 16.1.
    Named,
    /// `main` and a number: the piece begins as a main program does that has no PROGRAM statement. Section 14.
    Main,
    /// `blkdta` and a number: BLOCK DATA without a name. Section 16.1.
    BlockData,
    /// `zzz` and a number: the piece does not tell what it is.
    Unknown,
}

/// What the name of a piece is asked to be.
#[derive(Drop)]
pub struct WantedName {
    pub wanted: Wanted,
    /// The name of the unit in lower case, with `.f` behind it; without a byte where the piece has no such name.
    pub name: Items<u8>,
}
