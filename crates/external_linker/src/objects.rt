//! External objects as they stand at the start of a run (C89, 3.1.2.4 and 3.5.7).

ghost use Rattle.std.specs.Prelude.{◌≡◌, ◌++◌, map, IfOk, OnOk};
ghost use Rattle.c_tree.specs.Linking as tree;
ghost use Rattle.external_linker.specs.Externals.{external_of, externals_of};
ghost use Rattle.linked_programs.specs.LinkedPrograms.{object_of};

use crate::starts::{ExternalObject, StartBytes};
use linked_programs::LinkedObject;
use object_linker::{image, numbers_of_size, zero_bytes};
use plain_data::Items;
use std::alloc::{AllocError, Global};

/// An external object at the start of a run.
pub fn external_object(
    alloc: Global,
    object: &ExternalObject<'_>,
) -> Result<LinkedObject, AllocError>
    ensures { IfOk result (λ made. object_of made ≡ tree.external_object (external_of object.now)) }
{
    match object.image {
        None => Ok(zero_bytes(object.size)),
        Some(StartBytes::Numbers(values)) => numbers_of_size(alloc, object.size, values),
        Some(StartBytes::Text(bytes)) => image(alloc, object.size, bytes),
    }
}

/// Puts external objects behind others.
#[tactic(auto, using(std::proofs::lemmas::Grind::common_steps))]
pub fn put_external_objects(
    alloc: Global,
    out: &mut Items<LinkedObject>,
    objects: &[ExternalObject<'_>],
) -> Result<(), AllocError>
    ensures { OnOk result (map object_of out.new ≡ map object_of out.old ++ map tree.external_object (externals_of objects.now)) }
{
    for object in objects {
        out.push(external_object(alloc, object)?)?;
    }
    Ok(())
}
