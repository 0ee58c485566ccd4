//! The places that the words of a command line name.

ghost use Rattle.std.specs.Prelude.{◌≡◌, ◌++◌, ◌∷◌, [], map, IsTrue, IfOk};
ghost use Rattle.std.specs.List.{filter, flat_map};
ghost use Rattle.f2c_outside.specs.declared.shelves.Place.TheVariants as place_of;
ghost use Rattle.output_names.specs.OutputNames as names;
ghost use Rattle.output_names.specs.WordPlaces as places_by;

use crate::files::{
    input_name, is_file_word, is_prototype_word, output_name, prototype_name, prototype_output,
};
use f2c_outside::shelves::Place;
use f2c_outside::texts::{NoMemory, Words};
use plain_data::Items;
use std::alloc::Global;

/// Places, and the file that a word names, if it names one.
fn with_input(alloc: Global, places: Items<Place>, word: &[u8]) -> Result<Items<Place>, NoMemory>
    ensures { IfOk result (λ more. more ≡ places ++ map place_of.File (places_by.file_words (word.now ∷ []))) }
{
    let mut places = places;
    if is_file_word(word) {
        places.push(Place::File(input_name(alloc, word)?))?;
    }
    Ok(places)
}

/// Places, and the prototype file that a word names, if it names one.
fn with_prototype(
    alloc: Global,
    places: Items<Place>,
    word: &[u8],
) -> Result<Items<Place>, NoMemory>
    ensures { IfOk result (λ more. more ≡ places ++ map place_of.File (filter names.is_prototype_word (word.now ∷ []))) }
{
    let mut places = places;
    if is_prototype_word(word) {
        places.push(Place::File(prototype_name(alloc, word)?))?;
    }
    Ok(places)
}

/// Places, and the outputs of the file that a word names: its C file, and behind it the file of its prototypes where these are written.
fn with_outputs_of_file(
    alloc: Global,
    places: Items<Place>,
    word: &[u8],
    prototypes: bool,
) -> Result<Items<Place>, NoMemory>
    requires { IsTrue (names.is_file_word word.now) }
    ensures { IfOk result (λ more. more ≡ places ++ places_by.word_outputs prototypes word.now) }
{
    let mut places = places;
    places.push(Place::File(output_name(alloc, word)?))?;
    if prototypes {
        places.push(Place::File(prototype_output(alloc, word)?))?;
    }
    Ok(places)
}

/// Places, and the outputs of the file that a word names, if it names one.
fn with_outputs(
    alloc: Global,
    places: Items<Place>,
    word: &[u8],
    prototypes: bool,
) -> Result<Items<Place>, NoMemory>
    ensures { IfOk result (λ more. more ≡ places ++ flat_map (places_by.word_outputs prototypes) (places_by.file_words (word.now ∷ []))) }
{
    if is_file_word(word) {
        with_outputs_of_file(alloc, places, word, prototypes)
    } else {
        Ok(places)
    }
}

/// Places, and the file of the prototypes of the file that a word names, if it names one.
fn with_prototype_output(
    alloc: Global,
    places: Items<Place>,
    word: &[u8],
) -> Result<Items<Place>, NoMemory>
    ensures { IfOk result (λ more. more ≡ places ++ map (λ w. place_of.File (names.prototype_output w)) (places_by.file_words (word.now ∷ []))) }
{
    let mut places = places;
    if is_file_word(word) {
        places.push(Place::File(prototype_output(alloc, word)?))?;
    }
    Ok(places)
}

/// Places, or one other where there are none.
fn places_or(other: Place, places: Items<Place>) -> Result<Items<Place>, NoMemory>
    ensures { IfOk result (λ some. some ≡ places_by.places_or other places) }
{
    let mut places = places;
    if places.is_empty() {
        places.push(other)?;
    }
    Ok(places)
}

/// The FORTRAN files that words name, in their order.
pub fn files_named(alloc: Global, words: &Words) -> Result<Items<Place>, NoMemory>
    ensures { IfOk result (λ places. places ≡ places_by.files_named words.now) }
{
    let mut places = Items::new(alloc);
    let mut passed = 0;
    while passed < words.len() {
        passed += 1;
        match words.get(passed) {
            Some(word) => places = with_input(alloc, places, word)?,
            None => {}
        }
    }
    Ok(places)
}

/// The prototype files that words name, in their order.
pub fn prototypes_named(alloc: Global, words: &Words) -> Result<Items<Place>, NoMemory>
    ensures { IfOk result (λ places. places ≡ places_by.prototypes_named words.now) }
{
    let mut places = Items::new(alloc);
    let mut passed = 0;
    while passed < words.len() {
        passed += 1;
        match words.get(passed) {
            Some(word) => places = with_prototype(alloc, places, word)?,
            None => {}
        }
    }
    Ok(places)
}

/// The FORTRAN files that words name, in their order, or Input where they name none.
pub fn inputs_of(alloc: Global, words: &Words) -> Result<Items<Place>, NoMemory>
    ensures { IfOk result (λ places. places ≡ places_by.inputs_of words.now) }
{
    let places = files_named(alloc, words)?;
    places_or(Place::Input, places)
}

/// The C files of the translations of the FORTRAN files that words name, in their order, or Output where they name none. Where prototypes are written, the
/// file of those of each stands behind its C file.
pub fn outputs_of(alloc: Global, words: &Words, prototypes: bool) -> Result<Items<Place>, NoMemory>
    ensures { IfOk result (λ places. places ≡ places_by.outputs_of prototypes words.now) }
{
    let mut places = Items::new(alloc);
    let mut passed = 0;
    while passed < words.len() {
        passed += 1;
        match words.get(passed) {
            Some(word) => places = with_outputs(alloc, places, word, prototypes)?,
            None => {}
        }
    }
    places_or(Place::Output, places)
}

/// The files of the prototypes of the FORTRAN files that words name, in their order.
pub fn prototype_outputs(alloc: Global, words: &Words) -> Result<Items<Place>, NoMemory>
    ensures { IfOk result (λ places. places ≡ places_by.prototype_outputs words.now) }
{
    let mut places = Items::new(alloc);
    let mut passed = 0;
    while passed < words.len() {
        passed += 1;
        match words.get(passed) {
            Some(word) => places = with_prototype_output(alloc, places, word)?,
            None => {}
        }
    }
    Ok(places)
}
