//! What leaves no choice: the first refusal of the cards of a file, and names in C.

ghost use Rattle.std.specs.Prelude.{◌≡◌, ℕ, List, false, Bool};
ghost use Rattle.fortran_laws.specs.f_tree.declared.refusals.Kind.{Kind};
ghost use Rattle.fortran_laws.specs.f_tree.CNames.{external_name, is_reserved, variable_name};
ghost use Rattle.fortran_laws.specs.f_tree.RefusalRows.{number_of};
ghost use Rattle.cards.specs.fortran_text.FirstFault.{FaultOfFile, IsFirst};

/// Two first refusals of the cards of a file stand at one card and are one row. Section 3.2 of the standard, ANSI X3.9-1978.
pub fn first_refusals_of_cards_are_one()
    ensures { (refused : Bool) → (bytes : List ℕ) → (card other : ℕ) → (kind row : Kind) → IsFirst (FaultOfFile refused bytes) card kind
        → IsFirst (FaultOfFile refused bytes) other row → (card ≡ other) × (number_of kind ≡ number_of row) }
{}

/// Distinct variables have distinct names in C, which are no reserved words; so have distinct procedures and blocks; and where a
/// variable has the name of a procedure or block in C, the two have one name.
pub fn names_in_c_are_distinct()
    ensures variables { (x y : List ℕ) → variable_name x ≡ variable_name y → x ≡ y }
    ensures unreserved { (x : List ℕ) → is_reserved (variable_name x) ≡ false }
    ensures externals { (x y : List ℕ) → external_name x ≡ external_name y → x ≡ y }
    ensures both { (x y : List ℕ) → variable_name x ≡ external_name y → x ≡ y }
{}
