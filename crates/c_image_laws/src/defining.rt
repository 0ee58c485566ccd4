//! Once a place is defined in FORTRAN and its value is stored in C where it stands, the whole store stands.
#![tactic(auto)]

ghost use Rattle.c_image_laws.specs.Pieces.{PiecesAreRead, TextsAreCopied, TextsAreJoined};
ghost use Rattle.c_image_laws.specs.Statements.{NumbersAreStored, LabelsAreStored, TextsAreStored, NumbersAreNamed, AssignmentsStand, TemporariesAreAssigned, NumbersAreKept, TextsAreKept};

/// After each definition of a place, by a number, a truth value, a label or a text, and the store of its value in C, which meets no fault, the
/// whole store stands in the objects, also where places share storage. A temporary keeps a value, and the store stands as before.
pub fn definitions_are_stored()
    ensures numbers { NumbersAreStored }
    ensures labels { LabelsAreStored }
    ensures texts { TextsAreStored }
    ensures named { NumbersAreNamed }
    ensures kept_numbers { NumbersAreKept }
    ensures kept_texts { TextsAreKept }
{}

/// An assignment in C whose target is named and whose value is meant goes on, and the store after the definition stands; and one of a temporary
/// goes on, and the temporary holds the value.
pub fn assignments_go_on()
    ensures places { AssignmentsStand }
    ensures temporaries { TemporariesAreAssigned }
{}

/// A text that the library copies into a place, or joins of pieces there, is the one that FORTRAN defines, and the store after it stands.
pub fn texts_are_copied()
    ensures pieces { PiecesAreRead }
    ensures copied { TextsAreCopied }
    ensures joined { TextsAreJoined }
{}
