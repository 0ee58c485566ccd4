//! Formatted output beside that of another processor, computed. A function here does nothing, and its contract is the law.
ghost use Rattle.std.specs.Prelude.{◌≡◌, map};
ghost use Rattle.edit_rows.specs.ComparedRows.{rows, written, compared};

/// Formatted output is, byte for byte, what gfortran's runtime writes under the same formats.
pub fn compared_with_another_processor()
    ensures { map written rows ≡ map compared rows }
{}
