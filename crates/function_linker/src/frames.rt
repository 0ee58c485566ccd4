//! The objects of a call, and those of strings (C89, 3.1.2.4, 3.1.4 and 3.7.1).

ghost use Rattle.std.specs.Prelude.{◌≡◌, ◌∷◌, ◌++◌, [], map, OnOk, IfOk};
ghost use Rattle.c_tree.specs.Declarations as tree;
ghost use Rattle.c_tree.specs.Linking as linking;
ghost use Rattle.expression_linker.specs.StringsSeen.{texts};
ghost use Rattle.linked_programs.specs.LinkedPrograms.{object_of};
ghost use Rattle.run_bytes.specs.Accesses.{object_at_first};
ghost use Rattle.function_linker.specs.FreshObjects.{parameter_objects, automatic_objects};

use c_tree::declaration::{CLocal, CParam};
use c_tree::file::CFunction;
use c_tree::types::ParameterType;
use declared_objects::automatic_object;
use linked_programs::LinkedObject;
use object_linker::{parameter_kind, string_image};
use plain_data::Items;
use run_bytes::ObjectKind;
use std::alloc::{AllocError, Global};

/// The types of parameters.
#[tactic(auto, using(std::proofs::lemmas::Grind::common_steps))]
pub(crate) fn parameter_types(
    alloc: Global,
    params: &[CParam],
) -> Result<Items<ParameterType>, AllocError>
    ensures { IfOk result (λ types. types ≡ linking.parameter_types params.now) }
{
    let mut types = Items::new(alloc);
    for param in params {
        types.push(param.of)?;
    }
    Ok(types)
}

/// Puts the objects of parameters behind others.
#[tactic(auto, using(crate::proofs::FreshLaws::fresh_laws, std::proofs::lemmas::Grind::common_steps))]
fn put_parameters(out: &mut Items<ObjectKind>, params: &[CParam]) -> Result<(), AllocError>
    ensures { OnOk result (map object_at_first out.new ≡ map object_at_first out.old ++ parameter_objects params.now) }
{
    for param in params {
        out.push(parameter_kind(param.of))?;
    }
    Ok(())
}

/// Puts the object of a declaration, if each call makes it anew, behind others.
#[tactic(auto, unfolding(crate::specs::FreshObjects::automatic_objects), using(std::proofs::lemmas::Grind::common_steps))]
fn put_automatic(out: &mut Items<ObjectKind>, local: &CLocal) -> Result<(), AllocError>
    ensures { OnOk result (map object_at_first out.new ≡ map object_at_first out.old ++ automatic_objects (local.now ∷ [])) }
{
    match automatic_object(local) {
        Some(kind) => out.push(kind),
        None => Ok(()),
    }
}

/// Puts the objects that each call makes anew behind others.
#[tactic(auto, using(crate::proofs::FreshLaws::fresh_laws, std::proofs::lemmas::Grind::common_steps))]
fn put_automatics(out: &mut Items<ObjectKind>, locals: &[CLocal]) -> Result<(), AllocError>
    ensures { OnOk result (map object_at_first out.new ≡ map object_at_first out.old ++ automatic_objects locals.now) }
{
    for local in locals {
        put_automatic(out, local)?;
    }
    Ok(())
}

/// The objects of a call as it makes them.
#[tactic(auto, using(std::proofs::lemmas::Grind::common_steps))]
pub(crate) fn fresh_objects(
    alloc: Global,
    function: &CFunction,
) -> Result<Items<ObjectKind>, AllocError>
    ensures { IfOk result (λ fresh. map object_at_first fresh ≡ parameter_objects function.now.params ++ automatic_objects function.now.locals) }
{
    let mut fresh = Items::new(alloc);
    put_parameters(&mut fresh, function.params.as_slice())?;
    put_automatics(&mut fresh, function.locals.as_slice())?;
    Ok(fresh)
}

/// Puts the objects of a call behind others.
#[tactic(auto, using(std::proofs::lemmas::Grind::common_steps))]
pub(crate) fn put_fresh(
    objects: &mut Items<LinkedObject>,
    fresh: &[ObjectKind],
) -> Result<(), AllocError>
    ensures { OnOk result (map object_of objects.new ≡ map object_of objects.old ++ map object_at_first fresh.now) }
{
    for kind in fresh {
        objects.push(LinkedObject::Plain(*kind))?;
    }
    Ok(())
}

/// Puts strings behind others.
#[tactic(auto, using(std::proofs::lemmas::Grind::common_steps))]
pub(crate) fn put_string_objects(
    alloc: Global,
    objects: &mut Items<LinkedObject>,
    strings: &[&[u8]],
) -> Result<(), AllocError>
    ensures { OnOk result (map object_of objects.new ≡ map object_of objects.old ++ map tree.string_object (texts strings.now)) }
{
    for bytes in strings {
        objects.push(string_image(alloc, bytes)?)?;
    }
    Ok(())
}
