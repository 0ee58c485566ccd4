//! Statements that are made from items by names, as the contract of a call that does nothing.

ghost use Rattle.named_main_laws.specs.NamedBodies.{EachNamedBodyIsABody};

/// The statements that are made for a plain main program from its items by names are those that are made from its flat items: where a name is written, it
/// stands for one variable, array or temporary. Sections 10 to 12 of the standard, ANSI X3.9-1978; C89, 3.1.2.1 and 3.6.
pub fn named_bodies_are_bodies()
    ensures { EachNamedBodyIsABody }
{}
