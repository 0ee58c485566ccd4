//! Runs of small programs that would write other records under a near but wrong reading of the standard, each as the contract of a call that
//! does nothing.

ghost use Rattle.std.specs.Prelude.{◌∷◌, [], codes, true};
ghost use Rattle.fortran_checks.specs.f_tree.Values.{BadAssignedLabel};
ghost use Rattle.fortran_checks.specs.f_tree.World.{Plain};
ghost use Rattle.fortran_checks.specs.f_tree.Meaning.{units_of};
ghost use Rattle.fortran_checks.specs.f_tree.Setting.{IsSetting};
ghost use Rattle.fortran_checks.specs.f_tree.Runs.{Ends, Runs, RunsApart, MeetsApart, no_options, setting_apart, units_with};
ghost use Rattle.fortran_rows.specs.ActsSources.{label_of_another_unit};
ghost use Rattle.fortran_rows.specs.ControlSources.{limits_valued_once};
ghost use Rattle.fortran_rows.specs.FurtherSources.{argument_in_parentheses};
ghost use Rattle.fortran_rows.specs.OrderSources.{items_of_no_turn};
ghost use Rattle.fortran_rows.specs.TellingSources.{common_after_its_types, common_after_its_types_setting, entry_that_assigns_both_names, numbers_equivalenced, numbers_equivalenced_setting, text_over_a_longer_one};
ghost use Rattle.fortran_rows.specs.WorkedSources.{decided_and, dummies_that_overlap, operands_from_the_left};

/// What EQUIVALENCE names is one place; a common block goes by its COMMON statement and not by type statements before it.
pub fn shared_places_are_told_apart()
    ensures equivalence_placed { IsSetting (units_of no_options numbers_equivalenced) numbers_equivalenced_setting }
    ensures equivalence { Runs no_options numbers_equivalenced numbers_equivalenced_setting [] 5 Plain (codes "  2" ∷ []) }
    ensures common_placed { IsSetting (units_of no_options common_after_its_types) common_after_its_types_setting }
    ensures common { Runs no_options common_after_its_types common_after_its_types_setting [] 8 Plain (codes "  1 2" ∷ []) }
{}

/// The names of a function and of its entries are one result; a shorter text is filled up with blanks.
pub fn results_and_texts_are_told_apart()
    ensures entry { RunsApart no_options entry_that_assigns_both_names [] 7 Plain (codes "  8" ∷ []) }
    ensures padding { RunsApart no_options text_over_a_longer_one [] 5 Plain (codes " AB !" ∷ []) }
{}

/// The bounds of a DO are valued once, and the sign of its step tells when it ends; `-onetrip` says nothing of an implied DO.
pub fn loops_are_told_apart()
    ensures limits { Ends no_options limits_valued_once (setting_apart (units_of no_options limits_valued_once)) (units_with [] []) Plain (codes "   4  10   6" ∷ codes "  -2  24" ∷ codes "   2  24" ∷ []) }
    ensures items { RunsApart (record no_options { onetrip = true }) items_of_no_turn [] 4 Plain (codes "  1" ∷ []) }
{}

/// A dummy argument stands for its argument's place; an argument in parentheses is passed as a value.
pub fn arguments_are_told_apart()
    ensures overlaps { RunsApart no_options dummies_that_overlap [] 24 Plain (codes "  1 10 100 1000" ∷ []) }
    ensures in_parentheses { Ends no_options argument_in_parentheses (setting_apart (units_of no_options argument_in_parentheses)) (units_with [] []) Plain (codes "  1" ∷ codes "  5" ∷ []) }
{}

/// Operands are valued from the left, and one that decides nothing is not valued; a label is one of its own unit.
pub fn operands_and_labels_are_told_apart()
    ensures from_the_left { RunsApart no_options operands_from_the_left [] 10 Plain (codes "  6 10" ∷ []) }
    ensures decided { RunsApart no_options decided_and [] 5 Plain (codes "  2" ∷ []) }
    ensures label { MeetsApart no_options label_of_another_unit [] 3 BadAssignedLabel }
{}
