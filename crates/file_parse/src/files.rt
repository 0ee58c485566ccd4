//! Files and included files. Sections 2.4 and 3.5 of the standard, ANSI X3.9-1978, and MIL-STD-1753: INCLUDE.

ghost use Rattle.std.specs.Prelude.{◌≡◌, ◌<◌, ◌≤◌, length};
ghost use Rattle.file_parse.specs.FileTrees.{IsFileTree, IsPartTree};
ghost use Rattle.file_parse.specs.ReadSoFar.{AreUnits};

use crate::statements::read_statements;
use crate::units::{read_unit, unit_length};
use cards::Cards;
use f_tree::{Fail, File, Part, Unit};
use fortran_text::Statement;
use plain_data::Items;
use std::alloc::Global;

/// The tree of a file, from its statements. An INCLUDE statement stands in it as it is written.
///
/// # Errors
///
/// The first of the rows F10 to F17 that a statement breaks, by the card and then by the number of the row, or want of memory.
pub fn parse_file(alloc: Global, cards: &Cards) -> Result<File, Fail>
    ensures { IsFileTree cards.now.statements result }
{
    match read_units(alloc, cards.statements()) {
        Ok(units) => Ok(File { units }),
        Err(fail) => Err(fail),
    }
}

/// The statements of an included file with a name.
///
/// # Errors
///
/// The first of the rows F10 to F17 that a statement breaks, by the card and then by the number of the row, or want of memory.
pub fn parse_part(alloc: Global, name: &[u8], cards: &Cards) -> Result<Part, Fail>
    ensures { IsPartTree name.now cards.now.statements result }
{
    match read_statements(alloc, false, cards.statements()) {
        Ok(statements) => Ok(Part {
            name: Items::from_slice(alloc, name)?,
            statements,
        }),
        Err(fail) => Err(fail),
    }
}

/// The units of a file, from its statements.
fn read_units(alloc: Global, sources: &[Statement]) -> Result<Items<Unit>, Fail>
    ensures { AreUnits sources.now result }
{
    let mut units = Items::new(alloc);
    let mut rest = sources;
    while !rest.is_empty() {
        let (front, behind) = rest.split_at(unit_length(rest));
        match read_unit(alloc, front) {
            Ok(unit) => units.push(unit)?,
            Err(fail) => return Err(fail),
        }
        rest = behind;
    }
    Ok(units)
}
