//! The laws of prototype files.

ghost use Rattle.prototype_laws.specs.PrototypeLaws.{EachTextSpellsItsPrototypes, EachTextSpellsOneList, EachTextHasAVerdict, EachTreeHasThePrototypesOfItsFile};

/// The text of prototypes spells them, and no other list: a printed list is read back as it is.
#[tactic(auto, using(crate::proofs::FileLemmas::text_spells, crate::proofs::FileLemmas::one_list))]
pub fn texts_spell_their_prototypes()
    ensures spelled { EachTextSpellsItsPrototypes }
    ensures alone { EachTextSpellsOneList }
{}

/// Each text is a prototype file or is refused, at one line alone.
pub fn texts_have_a_verdict()
    ensures { EachTextHasAVerdict }
{}

/// The C tree of a FORTRAN file has the prototypes of the file.
#[tactic(auto, using(crate::proofs::TreeLemmas::same_prototypes))]
pub fn trees_have_the_prototypes_of_their_files()
    ensures { EachTreeHasThePrototypesOfItsFile }
{}
