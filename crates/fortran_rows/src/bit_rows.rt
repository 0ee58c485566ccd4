//! Worked runs of the bit functions (MIL-STD-1753), of lengths of texts that are not read, of arrays whose elements are longer than the
//! actual array's, and of places that do not hold one value, each as the contract of a call that does nothing. The programs in
//! examples/fortran were run by another processor too.
#![tactic(auto)]

ghost use Rattle.std.specs.Prelude.{◌∷◌, [], codes, pos};
ghost use Rattle.fortran_checks.specs.f_tree.declared.expressions.Expr as expr;
ghost use Rattle.fortran_checks.specs.f_tree.Values.{BadBit, NoValue, OutOfBounds, PastExtent};
ghost use Rattle.fortran_checks.specs.f_tree.World.{Plain};
ghost use Rattle.fortran_checks.specs.f_tree.Meaning.{units_of};
ghost use Rattle.fortran_checks.specs.f_tree.Runs.{Ends, Meets, MeetsApart, Runs, RunsApart, no_options, setting_apart, units_with};
ghost use Rattle.fortran_rows.specs.BitsSources.{bits_by_position, bits_by_value, character_in_a_number, character_in_a_number_setting, elements_longer_than_the_actual, functions_of_bits, length_of_a_sum_of_texts, longer_elements_past_the_actual, numbers_that_overlap, numbers_that_overlap_setting, of_two, part_of_an_element, printed_values};
ghost use Rattle.fortran_rows.specs.WorkedSources.{num};

/// The bit functions over the 32 bits of a number, with shifts from -32 to 32 and positions from 0 to 31.
pub fn bits_run()
    ensures by_value { RunsApart no_options bits_by_value [] 8 Plain (codes "  7 2 5 -1 -2147483648 1" ∷ []) }
    ensures by_position { RunsApart no_options bits_by_position [] 5 Plain (codes "  8 8 T" ∷ []) }
    ensures at_the_edges { Ends no_options functions_of_bits (setting_apart (units_of no_options functions_of_bits)) (units_with [] []) Plain (
        codes "           7           2           5          -1 -2147483648           1" ∷
        codes "           8           8 T" ∷
        codes "           0           0          -5 -2147483648           1" ∷
        codes "          -5          -8          -2 -2147483648           4" ∷
        codes " -2147483648  2147483647 T F T" ∷ []) }
{}

/// A shift or a position outside them is an act of which nothing is said.
pub fn acts_of_bits()
    ensures left { MeetsApart no_options (printed_values (of_two (codes "ishft") (num 1) (num 33) ∷ [])) [] 1 BadBit }
    ensures right { MeetsApart no_options (printed_values (of_two (codes "ishft") (num 1) (expr.Minus (num 33)) ∷ [])) [] 1 BadBit }
    ensures set_high { MeetsApart no_options (printed_values (of_two (codes "ibset") (num 0) (num 32) ∷ [])) [] 1 BadBit }
    ensures set_low { MeetsApart no_options (printed_values (of_two (codes "ibset") (num 0) (expr.Minus (num 1)) ∷ [])) [] 1 BadBit }
    ensures clear_high { MeetsApart no_options (printed_values (of_two (codes "ibclr") (num 0) (num 32) ∷ [])) [] 1 BadBit }
    ensures clear_low { MeetsApart no_options (printed_values (of_two (codes "ibclr") (num 0) (expr.Minus (num 1)) ∷ [])) [] 1 BadBit }
    ensures test_high { MeetsApart no_options (printed_values (of_two (codes "btest") (num 0) (num 32) ∷ [])) [] 1 BadBit }
    ensures test_low { MeetsApart no_options (printed_values (of_two (codes "btest") (num 0) (expr.Minus (num 1)) ∷ [])) [] 1 BadBit }
{}

/// The length of a text is known though none of its pieces is read; a dummy array may cut the actual one into longer elements, up to its end.
pub fn lengths_run()
    ensures length { Ends no_options length_of_a_sum_of_texts (setting_apart (units_of no_options length_of_a_sum_of_texts)) (units_with [] []) Plain (codes "   4   9   4" ∷ []) }
    ensures longer { Ends no_options elements_longer_than_the_actual (setting_apart (units_of no_options elements_longer_than_the_actual)) (units_with [] []) Plain (codes " abcdef ghijkl" ∷ codes " abc def mno pqr" ∷ []) }
    ensures past_the_actual { MeetsApart no_options longer_elements_past_the_actual [] 1 PastExtent }
{}

/// A number is fetched where its four parts are those of one value; a part out of bounds is told with its variable, also of an element.
pub fn values_are_whole()
    ensures character_within { Meets no_options character_in_a_number character_in_a_number_setting [] 3 NoValue }
    ensures half_of_another { Meets no_options (numbers_that_overlap (codes "i")) numbers_that_overlap_setting [] 3 NoValue }
    ensures other_is_whole { Runs no_options (numbers_that_overlap (codes "j")) numbers_that_overlap_setting [] 5 Plain (codes "  2" ∷ []) }
    ensures part_within { RunsApart no_options (part_of_an_element (num 4)) [] 4 Plain (codes " CD" ∷ []) }
    ensures part_past_its_element { MeetsApart no_options (part_of_an_element (num 6)) [] 2 (OutOfBounds (codes "s") (pos 6)) }
    ensures part_before_its_first { MeetsApart no_options (part_of_an_element (num 2)) [] 2 (OutOfBounds (codes "s") (pos 2)) }
{}
