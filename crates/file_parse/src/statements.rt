//! The trees of statements. Section 3.3.

ghost use Rattle.file_parse.specs.ReadSoFar.{AreTrees};

use f_tree::{Fail, Stmt};
use fortran_text::Statement;
use plain_data::Items;
use statement_reader::read_statement;
use std::alloc::Global;

/// The trees of the statements of a unit, or of an included file. `first` says that the first of them begins a unit in a file that is not
/// included.
pub(crate) fn read_statements(
    alloc: Global,
    first: bool,
    sources: &[Statement],
) -> Result<Items<Stmt>, Fail>
    ensures { AreTrees first sources.now result }
{
    let mut trees = Items::new(alloc);
    let mut begins = first;
    for source in sources {
        match read_statement(alloc, begins, source) {
            Ok(tree) => trees.push(tree)?,
            Err(fail) => return Err(fail),
        }
        begins = false;
    }
    Ok(trees)
}
