//! The first worked text, printed from its tree. A function here does nothing, and its contract is
//! the row.
ghost use Rattle.std.specs.Prelude.{◌≡◌};
ghost use Rattle.c_text.specs.c_tree.CText.{CText};
ghost use Rattle.c_text_rows.specs.TextRows.{first_text, first_tree};
ghost use Rattle.c_text.specs.Printed.{printed};

/// The text of `I=2`, `PRINT *,I+3`, `END`: what is printed of its tree spells the tree.
pub fn first_worked_text()
    ensures text { printed first_tree ≡ first_text }
    ensures spells { CText (printed first_tree) first_tree }
{}
