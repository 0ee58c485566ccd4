//! The reference that CALL makes. Section 15.6.2.
#![tactic(auto)]

ghost use Rattle.std.specs.Prelude.{◌≡◌, option_map};
ghost use Rattle.declaration_rows.specs.ReferenceRows.{parts_of};
ghost use Rattle.statement_parts.specs.TreesSeen.{call_in};

use f_tree::{Body, Expr};

/// The name and the actual arguments of a CALL.
#[derive(Clone, Copy)]
pub struct CallPart<'a> {
    pub name: &'a [u8],
    pub arguments: &'a [Expr],
}

/// The CALL that a statement is, or that is the statement of a logical IF; none where it is another statement.
#[cycle(call)]
#[tactic(auto, using(crate::proofs::CallForms::call_forms), unfolding(crate::specs::TreesSeen::call_in))]
pub fn call_part(body: &Body) -> Option<CallPart>
    ensures { option_map call_in result ≡ (parts_of body.now).call }
{
    match body {
        Body::Call(name, es) => Some(CallPart {
            name: name.as_slice(),
            arguments: es.as_slice(),
        }),
        Body::IfOne(_, body) => call_part(body.get()),
        _ => None,
    }
}
