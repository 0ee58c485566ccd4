//! The files that a file includes. MIL-STD-1753: INCLUDE.

ghost use Rattle.std.specs.Prelude.{◌≡◌, ◌++◌, IfOk};
ghost use Rattle.std.specs.Option.{option_copied, option_to_list};
ghost use Rattle.fortran_grammar.specs.IncludedFiles.{included_by, mentioned_in, mentions_of};

use f_tree::{Body, File, Stmt, Text};
use plain_data::Items;
use std::alloc::{AllocError, Global};

/// The names of the files that a file includes, in the order in which they are mentioned, each as often as it is.
///
/// # Errors
///
/// Want of memory.
pub fn includes(alloc: Global, file: &File) -> Result<Items<Text>, AllocError>
    ensures { IfOk result (λ names. names ≡ mentions_of file.now.units) }
{
    let mut names = Items::new(alloc);
    for unit in file.units.as_slice() {
        names.append(mentioned_in(alloc, unit.statements.as_slice())?)?;
    }
    Ok(names)
}

/// The names of the files that statements include.
fn mentioned_in(alloc: Global, statements: &[Stmt]) -> Result<Items<Text>, AllocError>
    ensures { IfOk result (λ names. names ≡ mentioned_in statements.now) }
{
    let mut names = Items::new(alloc);
    for statement in statements {
        names = with_mention(alloc, names, &statement.body)?;
    }
    Ok(names)
}

/// Names, and that of the file that a statement includes, if it includes one.
fn with_mention(alloc: Global, names: Items<Text>, body: &Body) -> Result<Items<Text>, AllocError>
    ensures { IfOk result (λ more. more ≡ names ++ option_to_list (included_by body.now)) }
{
    let mut names = names;
    match included_by(body) {
        Some(name) => {
            names.push(Items::from_slice(alloc, name)?)?;
            Ok(names)
        }
        None => Ok(names),
    }
}

/// The name of the file that a statement includes.
#[tactic(auto, using(crate::proofs::IncludeLemmas::includes_nothing), unfolding(fortran_grammar::specs::IncludedFiles::included_by, f_tree::specs::Folds::layer_of))]
pub(crate) fn included_by(body: &Body) -> Option<&[u8]>
    ensures { option_copied result ≡ included_by body.now }
{
    match body {
        Body::Include(name) => Some(name.as_slice()),
        _ => None,
    }
}
