//! What is proved of the code of a program, as the contract of a call that does nothing.

ghost use Rattle.known_code.specs.LostCode.{NoCodeIsLost};

use c_totality::totality::well_formed_code_stands;

/// In the code of well-formed files that keep the rules of linking, or that have too many bytes alone, each name stands for
/// something and each label is there (C89, 3.1.2 and 3.6.6.1).
pub fn linked_code_is_known()
    ensures { NoCodeIsLost }
{
    well_formed_code_stands()
}
