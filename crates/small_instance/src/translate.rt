//! The translation of a whole program.

ghost use Rattle.std.specs.Prelude.{◌≡◌, ℕ, ◌+◌, ◌^◌, ◌<◌, ◌≤◌, map, length, All, IfOk, OnOk};
ghost use Rattle.small_instance.specs.SourceLanguage.{text_of};
ghost use Rattle.small_instance.specs.TargetLanguage.{code_of};
ghost use Rattle.small_instance.specs.Translation.{translated, longest, factor_of};
ghost use Rattle.small_instance.specs.Translates.{Translates};

use crate::emission::{emit, wrap};
use crate::lowering::lower;
use crate::source::Unit;
use crate::target::Function;
use std::alloc::{AllocError, Global};

/// A translated program: the function of unit i is number 2 i, and its wrapper is number 2 i + 1.
#[derive(Drop)]
pub struct Program {
    pub functions: Vec<Function>,
    /// at most how many steps of the functions stand for one step of the units
    pub factor: usize,
}

/// The length of the longest function.
fn longest(functions: &[Function]) -> usize
    ensures same { result ≡ longest (map code_of functions.now) }
    ensures small { result < 2 ^ 63 }
{
    let mut most: usize = 0;
    for function in functions {
        let length = function.items.len();
        if most < length {
            most = length;
        }
    }
    most
}

/// The functions and wrappers of the units. The only error is want of memory.
fn functions_of(alloc: Global, units: &[Unit]) -> Result<Vec<Function>, AllocError>
    requires few { length units.now < 2 ^ 32 }
    requires short { All (λ u. length u.body.items < 2 ^ 32) units.now }
    ensures { IfOk result (λ functions. map code_of functions.items ≡ translated (map text_of units.now)) }
{
    let mut functions = Vec::new(alloc);
    for (i, unit) in units.iter().enumerate() {
        let steps = lower(alloc, unit)?;
        functions.push(emit(alloc, i, &steps)?)?;
        functions.push(wrap(alloc, i)?)?;
    }
    Ok(functions)
}

/// Translates the units of a program, the first of which is its main unit: every run of the functions
/// is faithful to the run of the units, within `factor` steps for each. Of units there are fewer than
/// 2^32, each of fewer than 2^32 statements. The only error is want of memory.
pub fn translate(alloc: Global, units: &[Unit]) -> Result<Program, AllocError>
    requires main { 0 < length units.now }
    requires few { length units.now < 2 ^ 32 }
    requires short { All (λ u. length u.body.items < 2 ^ 32) units.now }
    ensures { IfOk result (λ program. Translates (map text_of units.now) (map code_of program.functions.items) program.factor) }
{
    let functions = functions_of(alloc, units)?;
    let factor = longest(&functions) + 2;
    Ok(Program { functions, factor })
}
