//! Labels that stand twice (F27). Section 3.4. Each label is looked up once among those before it.
#![tactic(auto)]

ghost use Rattle.std.specs.Prelude.{◌≡◌, ◌++◌, ◌∷◌, List, [], OnOk, is_some};
ghost use Rattle.f_tree.specs.declared.statements.Stmt as stmt;
ghost use Rattle.declaration_rows.specs.UnitRows.{labels_rows};
ghost use Rattle.name_table.specs.Named.{labelled};
ghost use Rattle.order_judge.specs.LabelSteps.{AreLabels, label_rows};

use f_tree::{Kind, Refusal, Stmt};
use found_rows::add_unless;
use name_table::LabelTable;
use std::alloc::{AllocError, Global};

/// Whether a label has stood before.
fn is_taken(seen: &LabelTable<()>, label: u32) -> bool
    ensures { result ≡ is_some (labelled seen.now label) }
{
    seen.get(label).is_some()
}

/// Adds the row of a statement whose label has stood before, and notes the label.
fn add_label_row(
    found: &mut Vec<Refusal>,
    seen: &mut LabelTable<()>,
    statement: &Stmt,
) -> Result<(), AllocError>
    ensures rows { OnOk result ((before : List stmt.Stmt) → AreLabels seen.old before → found.new.items ≡ found.old.items ++ label_rows before statement.now) }
    ensures noted { OnOk result ((before : List stmt.Stmt) → AreLabels seen.old before → AreLabels seen.new (statement.now ∷ before)) }
{
    match statement.label {
        Some(label) => {
            let is_new = !is_taken(seen, label);
            add_unless(found, statement, is_new, Kind::LabelMissingOrTwice)?;
            seen.put(label, ())
        }
        None => Ok(()),
    }
}

/// Adds the rows of the statements whose labels have stood before.
pub fn add_label_rows(
    alloc: Global,
    found: &mut Vec<Refusal>,
    statements: &[Stmt],
) -> Result<(), AllocError>
    ensures { OnOk result (found.new.items ≡ found.old.items ++ labels_rows [] statements.now) }
{
    let mut seen: LabelTable<()> = LabelTable::new(alloc);
    for statement in statements {
        add_label_row(found, &mut seen, statement)?;
    }
    Ok(())
}
