//! One definition of a statement function. Section 15.4.
#![tactic(auto)]

ghost use Rattle.std.specs.Prelude.{◌≡◌, ◌∷◌, [], OnOk, IfOk};
ghost use Rattle.declared_types.specs.TypeTables.{AreTypes};
ghost use Rattle.expression_judge.specs.FoundSteps.{with_wanted, judged_by};
ghost use Rattle.name_table.specs.Named.{texts};
ghost use Rattle.definition_judge.specs.KnownFunctions as spec;

use crate::dummies::{bind_dummies, dummies_fault, dummy_basics, own_basic};
use crate::functions::note_function;
use declared_types::Types;
use expression_judge::{Names, judge, with_wanted};
use f_tree::{Basic, Expr, Kind, Unit};
use refusal_order::lesser_of;
use std::alloc::{AllocError, Global};

/// The least row of the expression of a definition: it is one value of the function's type.
pub(crate) fn body_fault(names: &Names, basic: Basic, body: &Expr) -> Option<Kind>
    ensures { result ≡ with_wanted basic (judged_by names.now body.now) }
{
    with_wanted(basic, judge(names, body))
}

/// The least row of a definition.
fn definition_fault<'a>(
    alloc: Global,
    unit: &Unit,
    types: &Types,
    names: &mut Names<'a>,
    name: &[u8],
    dummies: &[&'a [u8]],
    body: &Expr,
) -> Result<Option<Kind>, AllocError>
    requires types { AreTypes unit.now types.now }
    requires names { spec.AreGiven unit.now names.old }
    ensures fault { IfOk result (λ fault. spec.JudgesDefinition unit.now names.old (record { name = name.now; dummies = texts dummies.now; body = body.now }) fault) }
    ensures names { OnOk result (spec.KeepsNames names.old names.new) }
{
    bind_dummies(&mut names.dummies, unit, types, dummies)?;
    let expression = body_fault(names, own_basic(unit, types, name), body);
    let arguments = dummies_fault(alloc, unit, types, dummies)?;
    Ok(lesser_of(expression, arguments))
}

/// The least row of a definition; the function is noted behind it.
pub(crate) fn judge_definition<'a>(
    alloc: Global,
    unit: &Unit,
    types: &Types,
    names: &mut Names<'a>,
    name: &'a [u8],
    dummies: &[&'a [u8]],
    body: &Expr,
) -> Result<Option<Kind>, AllocError>
    requires types { AreTypes unit.now types.now }
    requires names { spec.AreGiven unit.now names.old }
    ensures { IfOk result (λ fault. spec.JudgesStatement unit.now names.old names.new (record { name = name.now; dummies = texts dummies.now; body = body.now } ∷ []) fault) }
{
    let fault = definition_fault(alloc, unit, types, names, name, dummies, body)?;
    let basics = dummy_basics(alloc, unit, types, dummies)?;
    note_function(&mut names.functions, name, basics)?;
    Ok(fault)
}
