//! Whether a unit is a main program that is entered at its beginning alone and shares no storage.

ghost use Rattle.std.specs.Prelude.{◌≡◌};
ghost use Rattle.std.specs.List.{list_all};
ghost use Rattle.f_tree.specs.Lines.{unit_kind};
ghost use Rattle.plain_forms.specs.PlainUnits as plain;
ghost use Rattle.plain_names.specs.PlainStatements as spec;

use f_tree::{Body, Stmt, Unit, UnitKind};

/// Whether a unit is a main program. Section 14.
#[tactic(auto, unfolding(f_tree::specs::Lines::unit_kind, plain_forms::specs::PlainUnits::is_main))]
pub fn is_main(unit: &Unit) -> bool
    ensures { result ≡ plain.is_main (unit_kind unit.now) }
{
    match &unit.kind {
        UnitKind::Main => true,
        UnitKind::Subroutine | UnitKind::Function(_) | UnitKind::BlockData => false,
    }
}

/// Whether a statement is no ENTRY. Section 15.7.
fn is_no_entry(statement: &Stmt) -> bool
    ensures { result ≡ spec.is_no_entry statement.now }
{
    match &statement.body {
        Body::Entry(_, _) => false,
        _ => true,
    }
}

/// Whether none of statements is an ENTRY.
pub fn have_no_entry(statements: &[Stmt]) -> bool
    ensures { result ≡ list_all spec.is_no_entry statements.now }
{
    statements.iter().all(is_no_entry)
}

/// Whether a unit has no dummy argument and no ENTRY. Section 15.
pub(crate) fn has_one_entry(unit: &Unit) -> bool
    ensures { result ≡ plain.has_one_entry unit.now }
{
    unit.dummies.is_empty() && have_no_entry(unit.statements.as_slice())
}

/// Whether a statement puts no name into a common block, shares no storage between names, and gives none an initial value. Sections 8.2, 8.3 and 9.
fn keeps_storage_apart(statement: &Stmt) -> bool
    ensures { result ≡ spec.keeps_storage_apart statement.now }
{
    match &statement.body {
        Body::Common(groups) => groups.is_empty(),
        Body::Equivalence(groups) => groups.is_empty(),
        Body::Init(groups) => groups.is_empty(),
        _ => true,
    }
}

/// Whether each of statements is such a statement.
fn keep_storage_apart(statements: &[Stmt]) -> bool
    ensures { result ≡ list_all spec.keeps_storage_apart statements.now }
{
    statements.iter().all(keeps_storage_apart)
}

/// Whether a unit has no COMMON, no EQUIVALENCE and no DATA. Sections 8.2, 8.3 and 9.
pub fn has_own_storage(unit: &Unit) -> bool
    ensures { result ≡ plain.has_own_storage unit.now }
{
    keep_storage_apart(unit.statements.as_slice())
}
