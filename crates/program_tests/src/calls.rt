//! Calls of the program over shelves in memory.

use f2c_outside::memory_shelf::MemoryShelf;
use f2c_outside::texts::{Name, NameFail, Words};
use f2c_outside::unit_table::UnitTable;
use f2c_program::f2c;
use std::alloc::Global;
use std::test::Fail;

/// A file of a shelf: its name and its bytes.
pub type NamedFile<'a> = (&'a [u8], &'a [u8]);

/// A name of these bytes.
pub fn name_of(alloc: Global, bytes: &[u8]) -> Result<Name, Fail> {
    match Name::new(alloc, bytes) {
        Ok(name) => Ok(name),
        Err(NameFail::NoMemory) => Err(Fail::from("no memory")),
        Err(NameFail::BadName) => Err(Fail::from("no name")),
    }
}

/// A shelf with these files.
pub fn shelf_of(alloc: Global, files: &[NamedFile]) -> Result<MemoryShelf, Fail> {
    let mut shelf = MemoryShelf::new(alloc)?;
    for file in files {
        shelf.set_file(name_of(alloc, file.0)?, file.1)?;
    }
    Ok(shelf)
}

/// Calls `f2c` with these words over a shelf, and gives the status.
pub fn call_over(alloc: Global, words: &[&str], shelf: &mut MemoryShelf) -> Result<u8, Fail> {
    let mut given = Words::new(alloc)?;
    for word in words {
        given.push(word.as_bytes())?;
    }
    Ok(f2c(alloc, &given, shelf, UnitTable::new(alloc)?).status)
}

/// Calls `f2c` with these words over a shelf with these bytes on Input and these files, of which the call of this number fails, and gives the status and
/// the shelf.
pub fn call(
    alloc: Global,
    words: &[&str],
    input: &[u8],
    files: &[NamedFile],
    failing: u64,
) -> Result<(u8, MemoryShelf), Fail> {
    let mut shelf = shelf_of(alloc, files)?;
    shelf.set_input(input)?;
    shelf.fail_at(failing)?;
    let status = call_over(alloc, words, &mut shelf)?;
    Ok((status, shelf))
}

/// What a file of this name on a shelf holds, or `None` where there is none.
pub fn file_on<'a>(
    alloc: Global,
    shelf: &'a MemoryShelf,
    name: &[u8],
) -> Result<Option<&'a [u8]>, Fail> {
    let name = name_of(alloc, name)?;
    Ok(shelf.file(&name))
}
