//! The names that the statements of a unit declare. Sections 8.4 to 8.8.
#![tactic(auto)]

ghost use Rattle.std.specs.Prelude.{OnOk, IfOk, []};
ghost use Rattle.name_classes.specs.KnownSigns.{Declares, AreDeclared, AreSets};

use crate::statements::{add_constants_in, add_externals_in, add_intrinsics_in, add_typed_in};
use f_tree::{Body, Stmt};
use name_table::NameSet;
use std::alloc::{AllocError, Global};

/// The names that statements declare.
#[derive(Drop)]
pub struct DeclaredNames<'a> {
    /// Constants. Section 8.6.
    pub constants: NameSet<'a>,
    /// Names with a type statement. Section 8.4.
    pub typed: NameSet<'a>,
    /// External procedures. Section 8.7.
    pub externals: NameSet<'a>,
    /// Intrinsic functions. Section 8.8.
    pub intrinsics: NameSet<'a>,
}

/// No names.
fn no_names<'a>(alloc: Global) -> DeclaredNames<'a>
    ensures { AreDeclared [] result }
{
    DeclaredNames {
        constants: NameSet::new(alloc),
        typed: NameSet::new(alloc),
        externals: NameSet::new(alloc),
        intrinsics: NameSet::new(alloc),
    }
}

/// Notes the names that a statement declares.
fn note_declared<'a>(names: &mut DeclaredNames<'a>, body: &'a Body) -> Result<(), AllocError>
    requires { AreSets names.old }
    ensures { OnOk result (Declares names.old names.new body.now) }
{
    add_constants_in(&mut names.constants, body)?;
    add_typed_in(&mut names.typed, body)?;
    add_externals_in(&mut names.externals, body)?;
    add_intrinsics_in(&mut names.intrinsics, body)
}

/// The names that statements declare. An error where memory ran out.
pub fn declared_names<'a>(
    alloc: Global,
    statements: &'a [Stmt],
) -> Result<DeclaredNames<'a>, AllocError>
    ensures { IfOk result (λ names. AreDeclared statements.now names) }
{
    let mut names = no_names(alloc);
    for statement in statements {
        note_declared(&mut names, &statement.body)?;
    }
    Ok(names)
}
