//! The values of the arguments of a call, in a buffer (C89, 3.3.2.2).

ghost use Rattle.std.specs.Prelude.{◌≡◌, ◌≤◌, length, take};
ghost use Rattle.c_tree.specs.Values as values;
ghost use Rattle.run_bytes.specs.Answers.{answered};
ghost use Rattle.linked_terms.specs.LinkedTerms.{terms_of};

use c_tree::outcome::{CFault, CValue};
use linked_terms::LinkedTerm;
use run_bytes::RunBytes;
use term_values::value_of;

/// The values of expressions from the left, in the first elements of a buffer, or the first fault.
#[tactic(auto, using(crate::proofs::ArgumentLists::argument_laws))]
pub(crate) fn put_values(
    run: &RunBytes,
    terms: &[LinkedTerm],
    buffer: &mut [CValue],
) -> Result<(), CFault>
    requires { length terms.now ≤ length buffer.old }
    ensures { answered (λ done. take (length terms.now) buffer.new) result ≡ values.values_of run.now (terms_of terms.now) }
{
    for (number, term) in terms.iter().enumerate() {
        match value_of(run, term) {
            Ok(value) => buffer[number] = value,
            Err(fault) => return Err(fault),
        }
    }
    Ok(())
}
