//! The C file of functions: its constants, and the functions. Section 2.4; C89, 3.7.

ghost use Rattle.std.specs.Prelude.{◌≡◌, [], IfOk, map};
ghost use Rattle.main_translation.specs.main_file.MainFile as file;

use c_names::constant_name;
use c_tree::file::{CConstant, CFile, CFunction};
use plain_data::Items;
use std::alloc::{AllocError, Global};

/// The constants that are passed by their address.
fn constants(alloc: Global, values: &[i32]) -> Result<Items<CConstant>, AllocError>
    ensures { IfOk result (λ found. found ≡ map file.constant_for values.now) }
{
    let mut found = Vec::new(alloc);
    for value in values {
        let name = constant_name(alloc, *value)?;
        found.push(CConstant {
            name,
            value: *value,
        })?;
    }
    Ok(Items::from_vec(found))
}

/// The file of some functions, with the constants that they pass by their address.
///
/// # Errors
///
/// Want of memory.
pub fn write_file(
    alloc: Global,
    constants: &[i32],
    functions: Vec<CFunction>,
) -> Result<CFile, AllocError>
    ensures { IfOk result (λ written. written ≡ record { objects = []; constants = map file.constant_for constants.now; functions = functions.items }) }
{
    let constants = self::constants(alloc, constants)?;
    Ok(CFile {
        objects: Items::new(alloc),
        constants,
        functions: Items::from_vec(functions),
    })
}
