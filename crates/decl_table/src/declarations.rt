//! What the statements of a unit declare, in tables. Sections 8.1 to 8.8.

ghost use Rattle.std.specs.Prelude.{◌≡◌, IfOk, Ok};
ghost use Rattle.decl_table.specs.UnitFacts.{AreDeclarations};

use crate::constants::unit_constants;
use crate::functions::unit_functions;
use constant_values::Constants;
use declared_types::{Shapes, Types, unit_shapes, unit_types};
use f_tree::Unit;
use name_classes::{Signs, unit_signs};
use name_table::NameSet;
use std::alloc::{AllocError, Global};

/// What the statements of a unit declare.
#[derive(Drop)]
pub struct Declarations<'a> {
    /// What decides the classes of names. Section 18.
    pub signs: Signs<'a>,
    /// Types. Sections 8.4 and 8.5.
    pub types: Types<'a>,
    /// Dimensions. Section 5.1.
    pub shapes: Shapes<'a>,
    /// Names that are intrinsic functions. Section 8.8.
    pub functions: NameSet<'a>,
    /// Constants with their values. Section 8.6.
    pub constants: Constants<'a>,
}

/// Two values, if the second was made; the first is let go where it was not.
fn both<T: Drop, U>(one: T, other: Result<U, AllocError>) -> Result<(T, U), AllocError>
    ensures { IfOk result (λ pair. (pair.0 ≡ one) × (other ≡ Ok pair.1)) }
{
    match other {
        Ok(other) => Ok((one, other)),
        Err(error) => Err(error),
    }
}

/// What the statements of a unit declare. An error where memory ran out.
pub fn unit_declarations<'a>(alloc: Global, unit: &'a Unit) -> Result<Declarations<'a>, AllocError>
    ensures { IfOk result (λ declared. AreDeclarations unit.now declared) }
{
    let signs = unit_signs(alloc, unit)?;
    let functions = unit_functions(alloc, unit, &signs);
    let named = both(signs, functions)?;
    let typed = both(named, unit_types(alloc, unit))?;
    let shaped = both(typed, unit_shapes(alloc, unit))?;
    let constants = unit_constants(alloc, unit, &shaped.0.1);
    let whole = both(shaped, constants)?;
    let ((((signs, functions), types), shapes), constants) = whole;
    Ok(Declarations {
        signs,
        types,
        shapes,
        functions,
        constants,
    })
}
