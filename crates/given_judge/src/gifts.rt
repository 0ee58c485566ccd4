//! What a statement can give to a name, and which of it excludes each other. Sections 8.1 to 8.9, 9.1, 15.4, 15.7 and 18.2.
#![tactic(auto)]

ghost use Rattle.std.specs.Prelude.{◌≡◌, ◌||◌, false};
ghost use Rattle.declaration_rows.specs.GivenRows as rows;
ghost use Rattle.given_judge.specs.GiftsSeen.{gift_in, bars};

/// What a statement gives to a name.
#[derive(Clone, Copy, Debug, PartialEq, Eq)]
pub(crate) enum Gift {
    /// A type statement, or the type before FUNCTION.
    TypeOf,
    DimensionsOf,
    InCommon,
    ConstantOf,
    DummyOf,
    /// The name of a function or of one of its entries.
    ResultOf,
    /// The name of another unit or entry.
    UnitOf,
    ExternalOf,
    IntrinsicOf,
    SavedOf,
    DataOf,
    EquivalencedOf,
    DefinitionOf,
}

/// Whether a type may stand beside what else a name is given.
#[tactic(auto, unfolding(declaration_rows::specs::GivenRows::agrees_with, crate::specs::GiftsSeen::gift_in))]
fn agrees_with_type(other: Gift) -> bool
    ensures { result ≡ rows.agrees_with rows.TypeOf (gift_in other) }
{
    match other {
        Gift::TypeOf | Gift::UnitOf => false,
        Gift::DimensionsOf | Gift::InCommon | Gift::ConstantOf | Gift::DummyOf => true,
        Gift::ResultOf | Gift::ExternalOf | Gift::IntrinsicOf | Gift::SavedOf => true,
        Gift::DataOf | Gift::EquivalencedOf | Gift::DefinitionOf => true,
    }
}

/// Whether dimensions may stand beside what else a name is given.
#[tactic(auto, unfolding(declaration_rows::specs::GivenRows::agrees_with, crate::specs::GiftsSeen::gift_in))]
fn agrees_with_dimensions(other: Gift) -> bool
    ensures { result ≡ rows.agrees_with rows.DimensionsOf (gift_in other) }
{
    match other {
        Gift::InCommon | Gift::DummyOf | Gift::SavedOf | Gift::DataOf => true,
        Gift::EquivalencedOf => true,
        Gift::TypeOf | Gift::DimensionsOf | Gift::ConstantOf | Gift::ResultOf => false,
        Gift::UnitOf | Gift::ExternalOf | Gift::IntrinsicOf | Gift::DefinitionOf => false,
    }
}

/// Whether a place in a common block may stand beside what else a name is given.
#[tactic(auto, unfolding(declaration_rows::specs::GivenRows::agrees_with, crate::specs::GiftsSeen::gift_in))]
fn agrees_with_common(other: Gift) -> bool
    ensures { result ≡ rows.agrees_with rows.InCommon (gift_in other) }
{
    match other {
        Gift::DataOf | Gift::EquivalencedOf => true,
        Gift::TypeOf | Gift::DimensionsOf | Gift::InCommon | Gift::ConstantOf => false,
        Gift::DummyOf | Gift::ResultOf | Gift::UnitOf | Gift::ExternalOf => false,
        Gift::IntrinsicOf | Gift::SavedOf | Gift::DefinitionOf => false,
    }
}

/// Whether a dummy argument may be what else a name is given.
#[tactic(auto, unfolding(declaration_rows::specs::GivenRows::agrees_with, crate::specs::GiftsSeen::gift_in))]
fn agrees_with_dummy(other: Gift) -> bool
    ensures { result ≡ rows.agrees_with rows.DummyOf (gift_in other) }
{
    match other {
        Gift::DummyOf | Gift::ExternalOf => true,
        Gift::TypeOf | Gift::DimensionsOf | Gift::InCommon | Gift::ConstantOf => false,
        Gift::ResultOf | Gift::UnitOf | Gift::IntrinsicOf | Gift::SavedOf => false,
        Gift::DataOf | Gift::EquivalencedOf | Gift::DefinitionOf => false,
    }
}

/// Whether the name of a function may be given again.
#[tactic(auto, unfolding(declaration_rows::specs::GivenRows::agrees_with, crate::specs::GiftsSeen::gift_in))]
fn agrees_with_result(other: Gift) -> bool
    ensures { result ≡ rows.agrees_with rows.ResultOf (gift_in other) }
{
    match other {
        Gift::ResultOf => true,
        Gift::TypeOf | Gift::DimensionsOf | Gift::InCommon | Gift::ConstantOf => false,
        Gift::DummyOf | Gift::UnitOf | Gift::ExternalOf | Gift::IntrinsicOf => false,
        Gift::SavedOf | Gift::DataOf | Gift::EquivalencedOf | Gift::DefinitionOf => false,
    }
}

/// Whether the name of a unit that is no function may be given again.
#[tactic(auto, unfolding(declaration_rows::specs::GivenRows::agrees_with, crate::specs::GiftsSeen::gift_in))]
fn agrees_with_unit(other: Gift) -> bool
    ensures { result ≡ rows.agrees_with rows.UnitOf (gift_in other) }
{
    match other {
        Gift::UnitOf => true,
        Gift::TypeOf | Gift::DimensionsOf | Gift::InCommon | Gift::ConstantOf => false,
        Gift::DummyOf | Gift::ResultOf | Gift::ExternalOf | Gift::IntrinsicOf => false,
        Gift::SavedOf | Gift::DataOf | Gift::EquivalencedOf | Gift::DefinitionOf => false,
    }
}

/// Whether a name that is saved may be given something else.
#[tactic(auto, unfolding(declaration_rows::specs::GivenRows::agrees_with, crate::specs::GiftsSeen::gift_in))]
fn agrees_with_saved(other: Gift) -> bool
    ensures { result ≡ rows.agrees_with rows.SavedOf (gift_in other) }
{
    match other {
        Gift::DataOf | Gift::EquivalencedOf => true,
        Gift::TypeOf | Gift::DimensionsOf | Gift::InCommon | Gift::ConstantOf => false,
        Gift::DummyOf | Gift::ResultOf | Gift::UnitOf | Gift::ExternalOf => false,
        Gift::IntrinsicOf | Gift::SavedOf | Gift::DefinitionOf => false,
    }
}

/// Whether a name with first values may be given something else.
#[tactic(auto, unfolding(declaration_rows::specs::GivenRows::agrees_with, crate::specs::GiftsSeen::gift_in))]
fn agrees_with_data(other: Gift) -> bool
    ensures { result ≡ rows.agrees_with rows.DataOf (gift_in other) }
{
    match other {
        Gift::DataOf | Gift::EquivalencedOf => true,
        Gift::TypeOf | Gift::DimensionsOf | Gift::InCommon | Gift::ConstantOf => false,
        Gift::DummyOf | Gift::ResultOf | Gift::UnitOf | Gift::ExternalOf => false,
        Gift::IntrinsicOf | Gift::SavedOf | Gift::DefinitionOf => false,
    }
}

/// Whether a name in EQUIVALENCE may be given something else.
#[tactic(auto, unfolding(declaration_rows::specs::GivenRows::agrees_with, crate::specs::GiftsSeen::gift_in))]
fn agrees_with_equivalenced(other: Gift) -> bool
    ensures { result ≡ rows.agrees_with rows.EquivalencedOf (gift_in other) }
{
    match other {
        Gift::EquivalencedOf => true,
        Gift::TypeOf | Gift::DimensionsOf | Gift::InCommon | Gift::ConstantOf => false,
        Gift::DummyOf | Gift::ResultOf | Gift::UnitOf | Gift::ExternalOf => false,
        Gift::IntrinsicOf | Gift::SavedOf | Gift::DataOf | Gift::DefinitionOf => false,
    }
}

/// Whether one may stand together with the other, in the order of the list above.
#[tactic(auto, unfolding(crate::specs::GiftsSeen::gift_in), using(crate::proofs::GiftLemmas::alone))]
fn agrees_with(one: Gift, other: Gift) -> bool
    ensures { result ≡ rows.agrees_with (gift_in one) (gift_in other) }
{
    match one {
        Gift::TypeOf => agrees_with_type(other),
        Gift::DimensionsOf => agrees_with_dimensions(other),
        Gift::InCommon => agrees_with_common(other),
        Gift::DummyOf => agrees_with_dummy(other),
        Gift::ResultOf => agrees_with_result(other),
        Gift::UnitOf => agrees_with_unit(other),
        Gift::SavedOf => agrees_with_saved(other),
        Gift::DataOf => agrees_with_data(other),
        Gift::EquivalencedOf => agrees_with_equivalenced(other),
        Gift::ConstantOf | Gift::ExternalOf | Gift::IntrinsicOf | Gift::DefinitionOf => false,
    }
}

/// Whether two exclude each other, whichever of them comes first.
#[tactic(auto, unfolding(declaration_rows::specs::GivenRows::exclude))]
pub(crate) fn exclude(one: Gift, other: Gift) -> bool
    ensures { result ≡ rows.exclude (gift_in one) (gift_in other) }
{
    !(agrees_with(one, other) || agrees_with(other, one))
}

/// Whether something is barred still or now that a name has been given another thing.
fn is_barred(before: bool, kept: Gift, other: Gift) -> bool
    ensures { result ≡ (before || rows.exclude (gift_in kept) (gift_in other)) }
{
    before || exclude(kept, other)
}

/// What a name can no longer be given.
#[derive(Clone, Copy, Debug, PartialEq, Eq)]
pub(crate) struct Barred {
    pub type_of: bool,
    pub dimensions: bool,
    pub common: bool,
    pub constant: bool,
    pub dummy: bool,
    pub result: bool,
    pub unit: bool,
    pub external: bool,
    pub intrinsic: bool,
    pub saved: bool,
    pub data: bool,
    pub equivalenced: bool,
    pub definition: bool,
}

impl Barred {
    /// Whether something is barred.
    #[tactic(auto, unfolding(crate::specs::GiftsSeen::bars, crate::specs::GiftsSeen::gift_in))]
    pub fn bars(&self, gift: Gift) -> bool
        ensures { result ≡ bars self.now (gift_in gift) }
    {
        match gift {
            Gift::TypeOf => self.type_of,
            Gift::DimensionsOf => self.dimensions,
            Gift::InCommon => self.common,
            Gift::ConstantOf => self.constant,
            Gift::DummyOf => self.dummy,
            Gift::ResultOf => self.result,
            Gift::UnitOf => self.unit,
            Gift::ExternalOf => self.external,
            Gift::IntrinsicOf => self.intrinsic,
            Gift::SavedOf => self.saved,
            Gift::DataOf => self.data,
            Gift::EquivalencedOf => self.equivalenced,
            Gift::DefinitionOf => self.definition,
        }
    }

    /// Nothing is barred yet.
    pub fn nothing() -> Barred
        ensures { (g : rows.Gift) → bars result g ≡ false }
    {
        Barred {
            type_of: false,
            dimensions: false,
            common: false,
            constant: false,
            dummy: false,
            result: false,
            unit: false,
            external: false,
            intrinsic: false,
            saved: false,
            data: false,
            equivalenced: false,
            definition: false,
        }
    }

    /// What is barred when a name has been given something more.
    pub fn also(&self, kept: Gift) -> Barred
        ensures { (g : rows.Gift) → bars result g ≡ (bars self.now g || rows.exclude (gift_in kept) g) }
    {
        Barred {
            type_of: is_barred(self.type_of, kept, Gift::TypeOf),
            dimensions: is_barred(self.dimensions, kept, Gift::DimensionsOf),
            common: is_barred(self.common, kept, Gift::InCommon),
            constant: is_barred(self.constant, kept, Gift::ConstantOf),
            dummy: is_barred(self.dummy, kept, Gift::DummyOf),
            result: is_barred(self.result, kept, Gift::ResultOf),
            unit: is_barred(self.unit, kept, Gift::UnitOf),
            external: is_barred(self.external, kept, Gift::ExternalOf),
            intrinsic: is_barred(self.intrinsic, kept, Gift::IntrinsicOf),
            saved: is_barred(self.saved, kept, Gift::SavedOf),
            data: is_barred(self.data, kept, Gift::DataOf),
            equivalenced: is_barred(self.equivalenced, kept, Gift::EquivalencedOf),
            definition: is_barred(self.definition, kept, Gift::DefinitionOf),
        }
    }
}
