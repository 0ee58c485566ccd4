//! Worked rows, with both runs side by side. A function here does nothing, and its contract is the row.

ghost use Rattle.worked_rows.specs.FirstRow.{AreAlike};

/// `I=2`, `PRINT *,I+3`, `END` and its translation, with unit 6 connected: after each statement step the run of the C text is in the same
/// state after some of its own steps, from the start on to the end of both.
pub fn first_row_runs_alike()
    ensures start { AreAlike 0 0 }
    ensures assigned { AreAlike 1 1 }
    ensures print_started { AreAlike 2 2 }
    ensures item_written { AreAlike 3 4 }
    ensures print_ended { AreAlike 4 5 }
    ensures ended { AreAlike 5 6 }
{}
