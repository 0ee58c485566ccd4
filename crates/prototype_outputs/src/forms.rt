//! Whether texts are prototype files, and which prototypes they have.

ghost use Rattle.std.specs.Prelude.{IfOk, OnOk, IfErr};
ghost use Rattle.std.specs.Bool.{Decides};
ghost use Rattle.proto_file.specs.prototypes.PrototypeText.{IsPrototypeFile};
ghost use Rattle.prototype_outputs.specs.Forms.{AreFiles, HasNoForm};

use c_tree::expression::Text;
use proto_file::{ProtoFail, Protos, changed, read_protos};
use std::alloc::{AllocError, Global};

/// Why some texts are not all prototype files.
#[derive(Clone, Copy, Debug, PartialEq, Eq)]
pub enum FormFail {
    /// The text with this number, from 0, is the first that is none, and this, from 1, is its first line such that the lines up to it are none.
    NotPrototype { number: usize, line: usize },
    /// Memory ran out.
    NoMemory,
}

/// Whether a text is a prototype file with these prototypes.
#[tactic(auto, using(crate::proofs::FormLemmas::other_list, crate::proofs::FormLemmas::no_list))]
pub fn is_unchanged(alloc: Global, text: &[u8], list: &Protos) -> Result<bool, AllocError>
    ensures { IfOk result (λ is. Decides is (IsPrototypeFile text.now list.now)) }
{
    match read_protos(alloc, text) {
        Ok(there) => Ok(!changed(&there, list)),
        Err(ProtoFail::NotPrototype { line: _ }) => Ok(false),
        Err(ProtoFail::NoMemory) => Err(AllocError),
    }
}

/// Checks that each of some texts is a prototype file.
///
/// # Errors
///
/// The first that is none, with its line; or want of memory.
pub fn check_forms(alloc: Global, texts: &[Text]) -> Result<(), FormFail>
    ensures ok { OnOk result (AreFiles texts.now) }
    ensures err { IfErr result (HasNoForm texts.now) }
{
    for (number, text) in texts.iter().enumerate() {
        match read_protos(alloc, text.as_slice()) {
            Ok(_) => {}
            Err(ProtoFail::NotPrototype { line }) => {
                return Err(FormFail::NotPrototype { number, line });
            }
            Err(ProtoFail::NoMemory) => return Err(FormFail::NoMemory),
        }
    }
    Ok(())
}
