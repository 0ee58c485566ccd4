//! A unit is simulated by its text, as the contracts of calls that do nothing.

ghost use Rattle.lowering_laws.specs.Layer.{EachTextSimulates};
ghost use Rattle.lowering_laws.specs.Layout.{EachTextIsLaidOut, EachUnitSimulates};

/// Each step of a unit whose text is laid out as `IsLaidOut` says is followed by steps of its text that cost at most the whole text, whatever
/// the steps cost, if each costs something: assignments, ASSIGN, branches, logical IF, IF blocks, DO, DO WHILE, CALL, RETURN, STOP, END,
/// READ, WRITE, PRINT, OPEN, CLOSE, BACKSPACE, ENDFILE, REWIND and statements that take no step, with references to functions anywhere in
/// them, also in the items of a list, where a transfer is in progress.
pub fn texts_simulate()
    ensures { EachTextSimulates }
{}

/// The text that lowering gives to a unit of these statements is laid out so, if END stands last and the ranges of its loops are nested, each
/// in one arm of a block or around the whole of it, and entered by their DO alone (sections 11.6 to 11.10 and 15.7.4).
pub fn texts_are_laid_out()
    ensures { EachTextIsLaidOut }
{}

/// Such a unit is simulated by the text that lowering gives to it.
pub fn units_simulate()
    ensures { EachUnitSimulates }
{}
