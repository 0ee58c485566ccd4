//! Units whose lowering is computed.

ghost use Rattle.std.specs.Prelude.{◌≡◌, Some};
ghost use Rattle.lowering.specs.Units.{lowered_unit};
ghost use Rattle.lowering_laws.specs.Layer.{IsLaidOut};
ghost use Rattle.lowered_rows.specs.Examples.{a_loop, loop_steps, loop_text, a_block, block_steps, a_sum, sum_text, a_search, search_text, a_list, list_text, a_choice, choice_text, a_detour, detour_text, unit_of, lowered_steps};
ghost use Rattle.lowering_laws.specs.Layout.{LoopsFit};

/// A DO loop whose range adds up the values of a function, and a block of three arms with a guarded reference and a branch.
pub fn examples_are_lowered()
    ensures loop_ { lowered_steps a_loop ≡ Some loop_steps }
    ensures block { lowered_steps a_block ≡ Some block_steps }
{}

/// The text of an assignment with a reference and of a logical IF is laid out as the law of statements asks.
pub fn example_is_laid_out()
    ensures lowered { lowered_unit (unit_of a_sum) ≡ Some sum_text }
    ensures laid { IsLaidOut sum_text }
{}

/// A DO, and two DO WHILE loops that share their terminal statement, with a branch out of both, meet what the law asks of the loops of a unit,
/// and their texts are laid out so.
pub fn loops_are_laid_out()
    ensures counted_lowered { lowered_unit (unit_of a_loop) ≡ Some loop_text }
    ensures counted_fits { LoopsFit (unit_of a_loop).program }
    ensures counted_laid { IsLaidOut loop_text }
    ensures lowered { lowered_unit (unit_of a_search) ≡ Some search_text }
    ensures fits { LoopsFit (unit_of a_search).program }
    ensures laid { IsLaidOut search_text }
{}

/// A READ with END=, and a PRINT of a variable, which is handed on where it stands, and of a sum with a reference, which is kept; their text
/// is laid out as the law of statements asks.
pub fn transfers_are_laid_out()
    ensures lowered { lowered_unit (unit_of a_list) ≡ Some list_text }
    ensures laid { IsLaidOut list_text }
{}

/// A CALL with two alternate returns: behind it stand the branch by the number that is answered, and the two ways; the text is laid out as the
/// law of statements asks.
pub fn alternate_returns_are_laid_out()
    ensures lowered { lowered_unit (unit_of a_choice) ≡ Some choice_text }
    ensures laid { IsLaidOut choice_text }
{}

/// A GO TO by a variable without its labels, in a unit whose ASSIGN statements name two, one of them under a condition: behind its step stand the
/// jumps to both; the text is laid out as the law of statements asks.
pub fn assigned_labels_are_laid_out()
    ensures lowered { lowered_unit (unit_of a_detour) ≡ Some detour_text }
    ensures laid { IsLaidOut detour_text }
{}
