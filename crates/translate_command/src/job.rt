//! What is to be translated.

use f2c_outside::shelves::Place;
use plain_data::Items;

/// The files of a translation. Where its outputs go is told apart.
#[derive(Drop)]
pub struct Job {
    /// The FORTRAN files that are translated, as one set.
    pub froms: Items<Place>,
    /// The prototype files that are checked for their form.
    pub forms: Items<Place>,
    /// Whether the prototypes of each FORTRAN file are written behind its C text.
    pub prototypes: bool,
    /// The prototype files that are compared with those of the FORTRAN files, in the order of these: one for each, or none.
    pub olds: Items<Place>,
}
