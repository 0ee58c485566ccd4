//! Calls and their arguments, linked (C89, 3.3.2.2).

ghost use Rattle.std.specs.Prelude.{◌≡◌, ◌+◌, length, OnOk};
ghost use Rattle.c_tree.specs.LinkedExpressions as tree;
ghost use Rattle.linked_terms.specs.LinkedTerms.{terms_of};
ghost use Rattle.linked_terms.specs.LinkedItems.{callee_of};
ghost use Rattle.expression_linker.specs.LinkedParts.{Links, some_unknown, is_nowhere, lacks_name, calling_of};
ghost use Rattle.expression_linker.specs.NamesInScope.{named_term, scope_of};

use crate::failure::LinkFail;
use crate::scope::NameScope;
use crate::terms::{link_expression, name};
use crate::things::NamedThing;
use c_tree::expression::{CCall, CExpr};
use linked_terms::{LinkedCallee, LinkedTerm};
use plain_data::Items;
use std::alloc::Global;

/// A call: its function and its arguments.
#[derive(Drop)]
pub struct LinkedCalling {
    /// The function.
    pub callee: LinkedCallee,
    /// The arguments from the left.
    pub arguments: Items<LinkedTerm>,
}

/// The function that a name stands for.
fn direct(thing: NamedThing) -> Result<LinkedCallee, LinkFail>
    ensures { Links callee_of is_nowhere result (tree.direct (named_term thing)) }
{
    match thing {
        NamedThing::Routine(number) => Ok(LinkedCallee::Direct(number)),
        _ => Err(LinkFail::Unknown),
    }
}

/// What a call by a name calls.
fn callee(scope: &NameScope<'_>, through: bool, text: &[u8]) -> Result<LinkedCallee, LinkFail>
    ensures { Links callee_of is_nowhere result (tree.called through (scope_of scope.now text.now)) }
{
    if through {
        Ok(LinkedCallee::Through(name(scope, text)?))
    } else {
        direct(scope.thing(text))
    }
}

/// Expressions from the left, whose strings have the numbers from `next` on.
#[tactic(auto, using(crate::proofs::ArgumentLaws::argument_laws, std::proofs::lemmas::Grind::common_steps))]
fn link_arguments(
    alloc: Global,
    scope: &NameScope<'_>,
    next: &mut usize,
    list: &[CExpr],
) -> Result<Items<LinkedTerm>, LinkFail>
    ensures term { Links terms_of some_unknown result ((tree.linked_all list.now).drawn (scope_of scope.now) next.old) }
    ensures next { OnOk result (next.new ≡ next.old + length (tree.linked_all list.now).strings) }
{
    let mut found = Items::new(alloc);
    for e in list {
        found.push(link_expression(alloc, scope, next, e)?)?;
    }
    Ok(found)
}

/// A call, whose strings have the numbers from `next` on.
///
/// # Errors
/// A name in it that stands for nothing, or one that is no function's where a function is called; or want of memory.
#[tactic(auto, using(crate::proofs::ArgumentLaws::call_laws))]
pub fn link_call(
    alloc: Global,
    scope: &NameScope<'_>,
    next: &mut usize,
    call: &CCall,
) -> Result<LinkedCalling, LinkFail>
    ensures term { Links calling_of lacks_name result ((tree.linked_call call.now).drawn (scope_of scope.now) next.old) }
    ensures next { OnOk result (next.new ≡ next.old + length (tree.linked_call call.now).strings) }
{
    let callee = callee(scope, call.through, call.name.as_slice())?;
    let arguments = link_arguments(alloc, scope, next, call.arguments.as_slice())?;
    Ok(LinkedCalling { callee, arguments })
}
