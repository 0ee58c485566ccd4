//! The outputs of C trees.

ghost use Rattle.std.specs.Prelude.{◌≡◌, ◌++◌, map, IfOk};
ghost use Rattle.std.specs.List.{flat_map};
ghost use Rattle.proto_file.specs.prototypes.TreePrototypes.{tree_prototypes};
ghost use Rattle.prototype_outputs.specs.Outputs.{tree_outputs, EachOutputIsOfItsFile, EachListIsOfItsFile};

use c_text::print_c;
use c_tree::expression::Text;
use c_tree::file::CFile;
use plain_data::Items;
use proto_file::{Protos, print_protos, protos_of};
use prototype_laws::laws::trees_have_the_prototypes_of_their_files;
use std::alloc::{AllocError, Global};

/// Texts, and behind them that of a C tree, and behind that the text of its prototypes, where these are asked for.
#[tactic(auto, unfolding(crate::specs::Outputs::tree_outputs))]
fn with_tree(
    alloc: Global,
    texts: Items<Text>,
    file: &CFile,
    prototypes: bool,
) -> Result<Items<Text>, AllocError>
    ensures { IfOk result (λ more. more ≡ texts ++ tree_outputs prototypes file.now) }
{
    let mut texts = texts;
    texts.push(Items::from_vec(print_c(alloc, file)?))?;
    if prototypes {
        let protos = protos_of(alloc, file)?;
        texts.push(Items::from_vec(print_protos(alloc, &protos)?))?;
    }
    Ok(texts)
}

/// The texts of C trees in their order, and behind that of each the text of its prototypes, where these are asked for.
#[tactic(auto, using(crate::proofs::OutputLemmas::none_yet, crate::proofs::OutputLemmas::one_more, crate::proofs::OutputLemmas::all_done))]
pub fn outputs_of(
    alloc: Global,
    files: &[CFile],
    prototypes: bool,
) -> Result<Items<Text>, AllocError>
    ensures { IfOk result (λ texts. texts ≡ flat_map (tree_outputs prototypes) files.now) }
{
    let mut texts = Items::new(alloc);
    for file in files {
        texts = with_tree(alloc, texts, file, prototypes)?;
    }
    Ok(texts)
}

/// The prototypes of C trees, in their order.
#[tactic(auto, using(crate::proofs::OutputLemmas::no_list, crate::proofs::OutputLemmas::list_more, crate::proofs::OutputLemmas::all_lists))]
pub fn lists_of(alloc: Global, files: &[CFile]) -> Result<Items<Protos>, AllocError>
    ensures { IfOk result (λ lists. lists ≡ map tree_prototypes files.now) }
{
    let mut lists = Items::new(alloc);
    for file in files {
        lists.push(protos_of(alloc, file)?)?;
    }
    Ok(lists)
}

/// The outputs and the prototypes of C trees that have the functions of FORTRAN files are those of these files.
pub fn outputs_are_of_their_files()
    ensures outputs { EachOutputIsOfItsFile }
    ensures lists { EachListIsOfItsFile }
{
    trees_have_the_prototypes_of_their_files();
}
