//! A name and how it is used.
#![tactic(auto)]

ghost use Rattle.std.specs.Prelude.{◌≡◌, ◌++◌, OnOk};
ghost use Rattle.f_tree.specs.Uses.{used};
ghost use Rattle.name_uses.specs.UsesSeen.{used_in, use_of, manner_in};

use std::alloc::AllocError;

/// How a name is used.
#[derive(Clone, Copy, Debug, PartialEq, Eq)]
pub enum Manner {
    /// By itself.
    Alone,
    /// With a list in parentheses, in an expression.
    WithList,
    /// In a CALL.
    Called,
    /// Declared, and not used.
    Declared,
}

/// A name where it stands.
#[derive(Clone, Copy)]
pub struct Use<'a> {
    pub name: &'a [u8],
    pub manner: Manner,
}

/// Adds a name.
#[tactic(auto, unfolding(f_tree::specs::Uses::used, crate::specs::UsesSeen::use_of))]
pub(crate) fn add_use<'a>(
    uses: &mut Vec<Use<'a>>,
    name: &'a [u8],
    manner: Manner,
) -> Result<(), AllocError>
    ensures { OnOk result (used_in uses.new.items ≡ used_in uses.old.items ++ used name.now (manner_in manner)) }
{
    uses.push(Use { name, manner })?;
    Ok(())
}
