//! Forms of statements that have a place of their own. Sections 8.5, 15.8 and 16.2.
#![tactic(auto)]

ghost use Rattle.std.specs.Prelude.{◌≡◌};
ghost use Rattle.f_tree.specs.Attributes.{option_list};
ghost use Rattle.declaration_rows.specs.OrderRows as written;

use f_tree::{Body, Kind, UnitKind};
use found_rows::unless;

/// Whether a statement is IMPLICIT NONE.
#[tactic(auto, using(crate::proofs::OtherForms::implicit_none_other))]
pub fn is_implicit_none(body: &Body) -> bool
    ensures { result ≡ written.is_implicit_none body.now }
{
    match body {
        Body::ImplicitNone => true,
        _ => false,
    }
}

/// Whether a statement is IMPLICIT or IMPLICIT NONE.
#[tactic(auto, using(crate::proofs::OtherForms::implicit_other))]
pub fn is_implicit(body: &Body) -> bool
    ensures { result ≡ written.is_implicit body.now }
{
    match body {
        Body::ImplicitNone | Body::Implicit(_) => true,
        _ => false,
    }
}

/// Whether a statement is RETURN, or a logical IF whose statement is.
#[cycle(returns)]
#[tactic(auto, using(crate::proofs::OtherForms::returns_forms))]
pub fn returns(body: &Body) -> bool
    ensures { result ≡ written.returns body.now }
{
    match body {
        Body::Return(_) => true,
        Body::IfOne(_, body) => returns(body.get()),
        _ => false,
    }
}

/// Whether a statement may stand in a block data subprogram.
#[tactic(auto, using(crate::proofs::OtherForms::block_data_other))]
pub fn stands_in_block_data(body: &Body) -> bool
    ensures { result ≡ written.stands_in_block_data body.now }
{
    match body {
        Body::Declare(..) | Body::Dimension(_) | Body::Common(_) | Body::Equivalence(_) => true,
        Body::Implicit(_) | Body::ImplicitNone | Body::Parameter(_) | Body::Save(_) => true,
        Body::Init(_) | Body::Entry(..) | Body::Include(_) | Body::End => true,
        _ => false,
    }
}

/// The row of a statement that its unit has no place for.
#[tactic(auto, unfolding(declaration_rows::specs::OrderRows::kind_rows, f_tree::specs::Attributes::option_list))]
pub fn kind_row(kind: &UnitKind, body: &Body) -> Option<Kind>
    ensures { option_list result ≡ written.kind_rows kind.now body.now }
{
    match kind {
        UnitKind::Main => unless(!returns(body), Kind::StatementOutOfOrder),
        UnitKind::BlockData => unless(stands_in_block_data(body), Kind::StatementOutOfOrder),
        UnitKind::Subroutine | UnitKind::Function(_) => None,
    }
}
