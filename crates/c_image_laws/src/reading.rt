//! What is fetched in FORTRAN is what C reads where the place stands, and there is a store that stands.
#![tactic(auto)]

ghost use Rattle.c_image.specs.Standing.{Stands};
ghost use Rattle.c_image_laws.specs.Example.{two_homes, two_sequences, three_objects};
ghost use Rattle.c_image_laws.specs.Statements.{ImageStands, NumbersAreThere, LabelsAreThere, TextsAreThere, CharactersAreThere, NumbersAreRead, TextsAreRead, HeldNumbersAreRead, HeldTextsAreRead};

/// The image of storage is part of what stands. Each value that FORTRAN fetches at a place, a number, a truth value, a label or a text, is read
/// in C where the place stands, without a fault, and by the expression of its name; and what temporaries and parameters hold is read from them.
pub fn values_are_read()
    ensures image { ImageStands }
    ensures numbers_there { NumbersAreThere }
    ensures labels_there { LabelsAreThere }
    ensures texts_there { TextsAreThere }
    ensures characters_there { CharactersAreThere }
    ensures numbers { NumbersAreRead }
    ensures texts { TextsAreRead }
    ensures kept_numbers { HeldNumbersAreRead }
    ensures kept_texts { HeldTextsAreRead }
{}

/// A store of two sequences stands in the first two of three objects.
pub fn a_store_stands()
    ensures example { Stands two_homes two_sequences three_objects }
{}
