//! Equations between names, and names, by numbers.

ghost use Rattle.std.specs.Prelude.{◌≡◌, IfOk, OnOk, map};
ghost use Rattle.name_table.specs.Named.{texts};
ghost use Rattle.unit_equations.specs.BlocksTold.{equation_in};
ghost use Rattle.unit_equations.specs.NumbersTold.{AreNumbers, Keeps};
ghost use Rattle.placing_judge.specs.Numbering.{IsSaid, AreSaid, AreNamed};

use offset_classes::Equation;
use std::alloc::{AllocError, Global};
use unit_equations::{NamedEquation, Numbers};

/// An equation between names as one between their numbers.
fn number_equation<'a>(
    numbers: &mut Numbers<'a>,
    equation: &NamedEquation<'a>,
) -> Result<Equation, AllocError>
    requires { AreNumbers numbers.old }
    ensures said { IfOk result (λ numbered. IsSaid numbers.new numbered (equation_in equation.now)) }
    ensures keeps { OnOk result (Keeps numbers.old numbers.new) }
    ensures numbers { OnOk result (AreNumbers numbers.new) }
{
    let one = numbers.number(equation.one)?;
    let other = numbers.number(equation.other)?;
    Ok(Equation {
        one,
        other,
        by: equation.by,
    })
}

/// Equations between names as equations between their numbers.
pub(crate) fn number_equations<'a>(
    alloc: Global,
    numbers: &mut Numbers<'a>,
    equations: &[NamedEquation<'a>],
) -> Result<Vec<Equation>, AllocError>
    requires { AreNumbers numbers.old }
    ensures said { IfOk result (λ numbered. AreSaid numbers.new numbered.items (map equation_in equations.now)) }
    ensures keeps { OnOk result (Keeps numbers.old numbers.new) }
    ensures numbers { OnOk result (AreNumbers numbers.new) }
{
    let mut numbered = Vec::new(alloc);
    for equation in equations {
        numbered.push(number_equation(numbers, equation)?)?;
    }
    Ok(numbered)
}

/// The numbers of names.
pub(crate) fn number_names<'a>(
    alloc: Global,
    numbers: &mut Numbers<'a>,
    names: &[&'a [u8]],
) -> Result<Vec<usize>, AllocError>
    requires { AreNumbers numbers.old }
    ensures said { IfOk result (λ numbered. AreNamed numbers.new numbered.items (texts names.now)) }
    ensures keeps { OnOk result (Keeps numbers.old numbers.new) }
    ensures numbers { OnOk result (AreNumbers numbers.new) }
{
    let mut numbered = Vec::new(alloc);
    for name in names {
        numbered.push(numbers.number(name)?)?;
    }
    Ok(numbered)
}
