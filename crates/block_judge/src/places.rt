//! Lists that have the place of a statement, or none, at each place.

ghost use Rattle.std.specs.Prelude.{◌≡◌, None, slice_index_or};

/// What a list of places has at one, none past its end.
#[tactic(auto, using(std::proofs::lemmas::Option::gets))]
pub(crate) fn place_at(places: &[Option<usize>], at: usize) -> Option<usize>
    ensures { result ≡ slice_index_or places.now at None }
{
    match places.get(at) {
        Some(place) => *place,
        None => None,
    }
}
