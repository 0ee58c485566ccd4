//! Worked runs of transfers: which characters of a format are looked at, what is stored in an internal file before an item is
//! fetched, and which fault comes first. Nothing is run here: the clauses are computed from the definition of what a set of
//! files means.
#![tactic(auto)]

ghost use Rattle.std.specs.Prelude.{◌∷◌, [], codes};
ghost use Rattle.fortran_checks.specs.f_tree.declared.expressions.Expr as expr;
ghost use Rattle.fortran_checks.specs.f_tree.Values.{FormatEndsEarly, NoValue};
ghost use Rattle.fortran_checks.specs.f_tree.World.{Plain};
ghost use Rattle.fortran_checks.specs.f_tree.Meaning.{units_of};
ghost use Rattle.fortran_checks.specs.f_tree.Setting.{IsSetting};
ghost use Rattle.fortran_checks.specs.f_tree.Runs.{Ends, MeetsApart, no_options, setting_apart, units_with};
ghost use Rattle.fortran_rows.specs.WorkedSources.{K, M, num};
ghost use Rattle.fortran_rows.specs.CourseSources.{format_in_an_array, format_in_front, format_wrong_in_front, shifted_by_elements, shifted_by_reversion, shifted_by_slashes, shifted_by_values, shifted_setting, unit_before_undefined_format, without_a_value};

/// A format in a variable is read character by character: what stands behind its closing parenthesis may be undefined, and a
/// character that stands where no format goes on is told before an undefined one behind it.
pub fn formats_in_variables()
    ensures defined_up_to_its_end { Ends no_options (format_in_front (codes "(I3)") 4) (setting_apart (units_of no_options (format_in_front (codes "(I3)") 4))) (units_with [] []) Plain (codes "  7" ∷ []) }
    ensures of_an_array { Ends no_options format_in_an_array (setting_apart (units_of no_options format_in_an_array)) (units_with [] []) Plain (codes "  7" ∷ []) }
    ensures undefined_before_its_end { MeetsApart no_options (format_in_front (codes "(I3") 3) [] 1 NoValue }
    ensures wrong_in_front { Ends no_options format_wrong_in_front (setting_apart (units_of no_options format_wrong_in_front)) (units_with [] []) Plain (codes "  10" ∷ []) }
    ensures unit_first { Ends no_options unit_before_undefined_format (setting_apart (units_of no_options unit_before_undefined_format)) (units_with [] []) Plain (codes "  6" ∷ []) }
{}

/// A record of an internal file that the reversion or the slash before an item completes is stored before the item is fetched;
/// an item that is an expression is valued before.
pub fn items_in_their_file()
    ensures reversion_placed { IsSetting (units_of no_options shifted_by_reversion) shifted_setting }
    ensures slashes_placed { IsSetting (units_of no_options shifted_by_slashes) shifted_setting }
    ensures elements_placed { IsSetting (units_of no_options shifted_by_elements) shifted_setting }
    ensures values_placed { IsSetting (units_of no_options shifted_by_values) shifted_setting }
    ensures by_reversion { Ends no_options shifted_by_reversion shifted_setting (units_with [] []) Plain (codes "uv" ∷ codes "uv" ∷ codes "uv" ∷ []) }
    ensures by_slashes { Ends no_options shifted_by_slashes shifted_setting (units_with [] []) Plain (codes "uv" ∷ codes "uv" ∷ codes "uv" ∷ []) }
    ensures by_elements { Ends no_options shifted_by_elements shifted_setting (units_with [] []) Plain (codes "uv" ∷ codes "uv" ∷ codes "uv" ∷ []) }
    ensures by_values { Ends no_options shifted_by_values shifted_setting (units_with [] []) Plain (codes "uv" ∷ codes "uv" ∷ codes "wx" ∷ []) }
{}

/// What stops a format before an item's descriptor comes before a value that the item lacks, and what stops its field behind it.
pub fn faults_in_their_order()
    ensures file_used_up { Ends no_options (without_a_value (codes "(I2)") (num 1 ∷ expr.Name K ∷ [])) (setting_apart (units_of no_options (without_a_value (codes "(I2)") (num 1 ∷ expr.Name K ∷ [])))) (units_with [] []) Plain (codes "  -1" ∷ []) }
    ensures file_used_up_before_a_variable { Ends no_options (without_a_value (codes "(I2)") (num 1 ∷ expr.Name M ∷ [])) (setting_apart (units_of no_options (without_a_value (codes "(I2)") (num 1 ∷ expr.Name M ∷ [])))) (units_with [] []) Plain (codes "  -1" ∷ []) }
    ensures text_too_long { Ends no_options (without_a_value (codes "('abc',I2)") (expr.Name K ∷ [])) (setting_apart (units_of no_options (without_a_value (codes "('abc',I2)") (expr.Name K ∷ [])))) (units_with [] []) Plain (codes "  5" ∷ []) }
    ensures no_descriptor { Ends no_options (without_a_value (codes "(1X)") (expr.Name K ∷ [])) (setting_apart (units_of no_options (without_a_value (codes "(1X)") (expr.Name K ∷ [])))) (units_with [] []) Plain (codes "  4" ∷ []) }
    ensures field_too_long { MeetsApart no_options (without_a_value (codes "(I3)") (expr.Name K ∷ [])) [] 1 NoValue }
{}
