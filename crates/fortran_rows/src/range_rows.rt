//! The first range act of small programs, each as the contract of a call that does nothing: which element or substring is out of its declared
//! bounds, and none where another act comes first.
#![tactic(auto)]

ghost use Rattle.std.specs.Prelude.{codes, pos};
ghost use Rattle.fortran_checks.specs.f_tree.Values.{Overflow};
ghost use Rattle.fortran_rows.specs.RangeSources.{Reports, ReportsNone, element_behind_an_entry, element_past_three, first_subscript_past_two, overflow_before_an_element, part_from_zero};

/// The variable, the first subscript or place that is out of bounds, the unit and the card are told.
pub fn range_acts_are_told()
    ensures element { Reports element_past_three 1 (record { variable = codes "a"; number = pos 4; unit = codes "MAIN__"; card = pos 3 }) }
    ensures subscript { Reports first_subscript_past_two 3 (record { variable = codes "a"; number = pos 3; unit = codes "MAIN__"; card = pos 4 }) }
    ensures overflow_first { ReportsNone overflow_before_an_element 2 Overflow }
    ensures part { Reports part_from_zero 3 (record { variable = codes "s"; number = pos 0; unit = codes "MAIN__"; card = pos 4 }) }
    ensures entry { Reports element_behind_an_entry 1 (record { variable = codes "a"; number = pos 5; unit = codes "s"; card = pos 6 }) }
{}
