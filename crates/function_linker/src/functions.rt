//! Functions, linked (C89, 3.7.1).

ghost use Rattle.std.specs.Prelude.{◌≡◌, ℕ, List, ◌++◌, length, map, OnOk, IfOk};
ghost use Rattle.c_tree.specs.Linking as linking;
ghost use Rattle.expression_linker.specs.NamesInScope.{scope_of};
ghost use Rattle.first_names.specs.FirstNames.{first_of};
ghost use Rattle.linked_programs.specs.LinkedPrograms.{object_of, function_of};
ghost use Rattle.linked_terms.specs.LinkedItems.{flat_of};
ghost use Rattle.run_bytes.specs.Accesses.{object_at_first};
ghost use Rattle.function_linker.specs.FrameParts.{body_string, first_of_call};
ghost use Rattle.function_linker.specs.LinkedFunctions.{file_names, LinksFunction};

use crate::frames::{fresh_objects, parameter_types, put_fresh, put_string_objects};
use crate::layouts::{places_of, strings_in};
use crate::scopes::put_names;
use c_tree::file::CFunction;
use expression_linker::{LinkFail, NameScope};
use first_names::FirstNames;
use flat_linker::link_body;
use linked_programs::{LinkedFunction, LinkedObject};
use linked_terms::LinkedItem;
use plain_data::Items;
use run_bytes::ObjectKind;
use std::alloc::{AllocError, Global};

/// What a function has around its statements.
#[derive(Drop)]
struct Frame {
    /// The number of the first string of its statements.
    body: usize,
    /// That of the first object of a call.
    first: usize,
    /// The objects of a call as it makes them.
    fresh: Items<ObjectKind>,
}

/// Gives the names of a function what they stand for, and puts its objects behind others.
fn put_objects<'a>(
    alloc: Global,
    names: &mut NameScope<'a>,
    numbers: &FirstNames<'_, usize>,
    function: &'a CFunction,
    objects: &mut Items<LinkedObject>,
) -> Result<Frame, AllocError>
    ensures objects { (own : ℕ) → OnOk result (map object_of objects.new ≡ map object_of objects.old ++ (linking.linked_function (first_of numbers.now) own (file_names names.old) (length objects.old) function.now).objects) }
    ensures names { OnOk result (scope_of names.new ≡ linking.local_scope (first_of numbers.now) (length objects.old) (first_of_call (length objects.old) function.now) function.now.params (file_names names.old) function.now.locals) }
    ensures body { IfOk result (λ frame. frame.body ≡ body_string (length objects.old) function.now) }
    ensures first { IfOk result (λ frame. frame.first ≡ first_of_call (length objects.old) function.now) }
    ensures fresh { (own : ℕ) → IfOk result (λ frame. map object_at_first frame.fresh ≡ (linking.linked_function (first_of numbers.now) own (file_names names.old) (length objects.old) function.now).function.fresh) }
    ensures file { (q : List ℕ) → first_of names.new.file q ≡ first_of names.old.file q }
{
    let base = objects.len();
    let strings = strings_in(alloc, function)?;
    let places = places_of(base, function, strings.as_slice())?;
    put_names(alloc, names, numbers, base, places, function, objects)?;
    put_string_objects(alloc, objects, strings.as_slice())?;
    let fresh = fresh_objects(alloc, function)?;
    put_fresh(objects, fresh.as_slice())?;
    Ok(Frame {
        body: places.body,
        first: places.frame,
        fresh,
    })
}

/// A function with its code.
fn with_code(
    alloc: Global,
    function: &CFunction,
    frame: Frame,
    code: Items<LinkedItem>,
) -> Result<LinkedFunction, AllocError>
    ensures { (own : ℕ) → IfOk result (λ made. function_of own made ≡ record { name = function.now.name; result = function.now.result; parameters = linking.parameter_types function.now.params; frame = frame.first; fresh = map object_at_first frame.fresh; code = map flat_of code; own = own }) }
{
    let Frame { first, fresh, .. } = frame;
    Ok(LinkedFunction {
        name: Items::from_slice(alloc, function.name.as_slice())?,
        result: function.result,
        parameters: parameter_types(alloc, function.params.as_slice())?,
        frame: first,
        fresh,
        code,
    })
}

/// Links a function and puts its objects behind those that are there. What the names of its file stand for stays.
///
/// # Errors
/// A name in its statements that stands for nothing, one that is no function's where a function is called, or a label that it does not have; or
/// want of memory.
pub fn link_function<'a>(
    alloc: Global,
    names: &mut NameScope<'a>,
    numbers: &FirstNames<'_, usize>,
    function: &'a CFunction,
    objects: &mut Items<LinkedObject>,
) -> Result<LinkedFunction, LinkFail>
    ensures made { (own : ℕ) → LinksFunction own result (linking.linked_function (first_of numbers.now) own (file_names names.old) (length objects.old) function.now) objects.old objects.new }
    ensures file { (q : List ℕ) → first_of names.new.file q ≡ first_of names.old.file q }
{
    let frame = put_objects(alloc, names, numbers, function, objects)?;
    let code = link_body(alloc, names, frame.body, function.body.as_slice())?;
    Ok(with_code(alloc, function, frame, code)?)
}
