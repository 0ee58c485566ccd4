//! Two states that are the same have each bullet in common, so that none of them can be left out unseen.

ghost use Rattle.faithful_rows.specs.Bullets.{OutcomesAreEqual, UnitsAreEqual, FunctionsAreThoseOfProcedures, TransfersAgree, NamesAreRead, ProceduresAreRead};

/// The two stand alike, running or ended in one way; their external units are equal; the active functions, wrappers left out, have the
/// names of the active procedures; transfers in progress are of one kind on one unit or file, with the same format by what it gives, the
/// same values so far, the same records in the making and the same place of the input; every value of every stored name is read in its
/// object; and in the frame of each active procedure's function stand its dummies, their lengths and its result.
pub fn same_states_have_each_bullet()
    ensures outcome { OutcomesAreEqual }
    ensures units { UnitsAreEqual }
    ensures functions { FunctionsAreThoseOfProcedures }
    ensures transfers { TransfersAgree }
    ensures names { NamesAreRead }
    ensures procedures { ProceduresAreRead }
{}
