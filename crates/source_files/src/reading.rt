//! Reading a source from places.

ghost use Rattle.std.specs.Prelude.{IfOk, IfErr};
ghost use Rattle.std.specs.List.{All};
ghost use Rattle.f2c_outside.specs.Shelf.{IsSource};
ghost use Rattle.source_files.specs.SourceEnds.{IsReadFrom, IsUnreadFrom};

use crate::failing::SourceFail;
use crate::places::{MOST_BYTES, read_places};
use crate::sources::{SourceRead, read_source};
use f_tree::names::Options;
use f2c_outside::shelves::{Place, Shelf};
use std::alloc::Global;

/// Reads some places, and the files that they include. Nothing is written.
///
/// # Errors
///
/// The first file that cannot be read ends it: one that is not there, or a fault of the shelf. Or want of memory.
pub fn read_source_from<H: Shelf>(
    alloc: Global,
    options: &Options,
    shelf: &mut H,
    froms: &[Place],
) -> Result<SourceRead, SourceFail>
    requires { All IsSource froms.now }
    ensures ok { IfOk result (λ read. IsReadFrom options.now froms.now read (H.state shelf.old) (H.state shelf.new)) }
    ensures err { IfErr result (IsUnreadFrom options.now froms.now (H.state shelf.old) (H.state shelf.new)) }
{
    let files = read_places(alloc, shelf, froms, MOST_BYTES)?;
    read_source(alloc, options, shelf, files)
}
