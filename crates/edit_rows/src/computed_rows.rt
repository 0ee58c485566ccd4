//! Rows of both directions of a formatted transfer, computed. A function here does nothing, and its contract is the law.
ghost use Rattle.std.specs.Prelude.{◌≡◌, map};
ghost use Rattle.edit_rows.specs.EmptyTextRows as empty_rows;
ghost use Rattle.edit_rows.specs.InputRows as input_rows;
ghost use Rattle.edit_rows.specs.ListErrorRows as list_rows;
ghost use Rattle.edit_rows.specs.ReadBackRows as back_rows;

/// Formatted input goes no further for the first cause that its edits meet; at a field the type comes first, then the value, and then the
/// position.
pub fn first_causes_of_input()
    ensures { map input_rows.found input_rows.rows ≡ map input_rows.wanted input_rows.rows }
{}

/// Formats and values whose records are read back, and others.
pub fn values_that_stand_whole()
    ensures { map back_rows.found back_rows.rows ≡ map back_rows.wanted back_rows.rows }
{}

/// List-directed input stops at each error and at the end of the records, with what its item holds then (ANSI X3.9-1978, section
/// 13.6.1).
pub fn errors_of_list_input()
    ensures { map list_rows.found list_rows.rows ≡ map list_rows.wanted list_rows.rows }
{}

/// An empty text under A without a width writes nothing and extends no record, wherever the position is, and what is written behind it fills
/// the gap. A position past the last column is refused all the same.
pub fn empty_texts_write_nothing()
    ensures { map empty_rows.found empty_rows.rows ≡ map empty_rows.wanted empty_rows.rows }
{}
