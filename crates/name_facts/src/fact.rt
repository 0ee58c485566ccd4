//! What one name is. Sections 4.1, 5.1, 8.4, 8.6 and 18.

ghost use Rattle.std.specs.Prelude.{◌≡◌, true};
ghost use Rattle.std.specs.List.{list_all};
ghost use Rattle.f_tree.specs.Values.{in_range};
ghost use Rattle.f_tree.specs.Valuing.{size_of_dimension};
ghost use Rattle.name_facts.specs.Dimensions as spec;
ghost use Rattle.name_facts.specs.GivenFacts.{bounds_of};

use f_tree::{Basic, Class, Text};
use plain_data::Items;

/// The constant bounds of a dimension. The upper bound is none where it is `*`, and assumed at the call. Sections 5.1.1 and 5.1.2.
#[derive(Clone, Copy, Debug, PartialEq, Eq)]
pub struct Bound {
    pub lower: i32,
    pub upper: Option<i32>,
}

impl Bound {
    /// Whether the upper bound is constant.
    #[tactic(auto, unfolding(crate::specs::Dimensions::is_closed))]
    pub fn is_closed(&self) -> bool
        ensures { result ≡ spec.is_closed self.now }
    {
        self.upper.is_some()
    }

    /// How many elements the dimension has: none are known where the upper bound is assumed. The lower bound is an integer of 32 bits.
    #[tactic(auto, unfolding(f_tree::specs::Valuing::size_of_dimension, f_tree::specs::Values::in_range, crate::specs::GivenFacts::bounds_of))]
    pub fn size(&self) -> u64
        ensures size { result ≡ size_of_dimension (bounds_of self.now) }
        ensures lower { in_range self.now.lower ≡ true }
    {
        let lower = i64::from(self.lower);
        match self.upper {
            Some(upper) => (i64::from(upper) - lower + 1).unsigned_abs(),
            None => 0,
        }
    }
}

/// Whether each upper bound is constant.
pub fn all_closed(bounds: &[Bound]) -> bool
    ensures { result ≡ list_all spec.is_closed bounds.now }
{
    bounds.iter().all(|bound| bound.is_closed())
}

/// The value of a constant expression. Sections 6.7 and 8.6.
#[derive(Drop)]
pub enum ConstantValue {
    /// An integer.
    Integer(i32),
    /// A truth value.
    Logical(bool),
    /// Characters, by their bytes.
    Text(Text),
    /// A statement label, which no constant expression has as its value.
    Label(u32),
}

/// What a name is.
#[derive(Drop)]
pub struct NameFact {
    pub class: Class,
    pub basic: Basic,
    /// The character units of one element: the length of what is of type CHARACTER, and 4 for every other name. None where the length is `(*)`
    /// or is no constant. Section 8.4.2.
    pub width: Option<u32>,
    /// The number of dimensions, 0 for what is no array. Section 5.1.
    pub rank: usize,
    /// Whether no upper bound is `*`. Section 5.1.2.
    pub sized: bool,
    /// The bounds of those dimensions whose bounds are constant, or constant but for an upper bound that is `*`, in their order.
    pub bounds: Items<Bound>,
    /// The value of a name of a PARAMETER statement, where it has one. Section 8.6.
    pub constant: Option<ConstantValue>,
}
