//! Items by names and flat items, as the contract of a call that does nothing.

ghost use Rattle.named_items.specs.Agreement.{ItemsAreStructured, WrittenAlike};

/// The statements that are built for the items are those that are built for the flat items, where places that are written alike are the same; and
/// what is written alike is the same expression.
pub fn items_are_structured()
    ensures alike { WrittenAlike }
    ensures statements { ItemsAreStructured }
{}
