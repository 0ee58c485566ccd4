//! The prototypes of the functions of a C tree.

ghost use Rattle.std.specs.Prelude.{◌≡◌, ◌++◌, true, IfOk};
ghost use Rattle.std.specs.List.{list_all};
ghost use Rattle.c_tree.specs.CText.{WellFormed};
ghost use Rattle.prototypes.specs.PrototypeText.{is_prototype};
ghost use Rattle.prototypes.specs.TreePrototypes.{is_called_outside, function_prototype, function_prototypes, tree_prototypes};
ghost use Rattle.proto_file.specs.Lists.{AreOfItsFile};
ghost use Rattle.proto_file.specs.Parts.{listed};

use crate::protos::Protos;
use c_tree::declaration::CParam;
use c_tree::file::{CFile, CFunction};
use plain_data::Items;
use prototypes::Prototype;
use std::alloc::{AllocError, Global};

/// Whether another file may call a function, by its name: it is neither the main program nor the function of all entries of a unit.
#[tactic(auto, unfolding(prototypes::specs::TreePrototypes::is_called_outside))]
fn is_called_outside(name: &[u8]) -> bool
    ensures { result ≡ is_called_outside name.now }
{
    name != b"MAIN__".as_slice() && !name.ends_with(b"_0_")
}

/// A copy of parameters.
#[tactic(auto, using(std::proofs::lemmas::Grind::common_steps))]
fn copied_params(alloc: Global, params: &[CParam]) -> Result<Items<CParam>, AllocError>
    ensures { IfOk result (λ copy. copy ≡ params.now) }
{
    let mut copy = Items::new(alloc);
    for param in params {
        let name = Items::from_slice(alloc, param.name.as_slice())?;
        copy.push(CParam { of: param.of, name })?;
    }
    Ok(copy)
}

/// The prototype of a function.
#[tactic(auto, unfolding(prototypes::specs::TreePrototypes::function_prototype))]
fn function_prototype(alloc: Global, function: &CFunction) -> Result<Prototype, AllocError>
    ensures { IfOk result (λ prototype. prototype ≡ function_prototype function.now) }
{
    let result = function.result;
    let name = Items::from_slice(alloc, function.name.as_slice())?;
    let params = copied_params(alloc, function.params.as_slice())?;
    Ok(Prototype {
        result,
        name,
        params,
    })
}

/// Prototypes, and behind them that of a function, where another file may call it.
#[tactic(auto, using(std::proofs::lemmas::Grind::common_steps), unfolding(crate::specs::Parts::listed))]
fn with_function(alloc: Global, protos: Protos, function: &CFunction) -> Result<Protos, AllocError>
    ensures { IfOk result (λ more. more ≡ protos ++ listed function.now) }
{
    let mut more = protos;
    if is_called_outside(function.name.as_slice()) {
        more.push(function_prototype(alloc, function)?)?;
    }
    Ok(more)
}

/// The prototypes of functions.
#[tactic(auto, using(crate::proofs::PartSteps::functions_listed, std::proofs::lemmas::Grind::common_steps))]
fn function_prototypes(alloc: Global, functions: &[CFunction]) -> Result<Protos, AllocError>
    ensures { IfOk result (λ protos. protos ≡ function_prototypes functions.now) }
{
    let mut protos = Protos::new(alloc);
    for function in functions {
        protos = with_function(alloc, protos, function)?;
    }
    Ok(protos)
}

/// The prototypes of the functions of a C tree that other files may call, in their order: those of the FORTRAN file of which the tree is a translation.
/// A line may say each of them where the tree is well formed. An error says that there is no memory for them.
pub fn protos_of(alloc: Global, file: &CFile) -> Result<Protos, AllocError>
    ensures functions { IfOk result (λ protos. protos ≡ tree_prototypes file.now) }
    ensures translated { IfOk result (AreOfItsFile file.now) }
    ensures told { IfOk result (λ protos. WellFormed file.now → list_all is_prototype protos ≡ true) }
{
    function_prototypes(alloc, file.functions.as_slice())
}
