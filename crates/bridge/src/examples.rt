//! An instance of what the law asks for.

ghost use Rattle.std.specs.Prelude.{◌≡◌, ℕ, Some};
ghost use Rattle.lowering_laws.specs.run_state.Units.{Units};
ghost use Rattle.lowering_laws.specs.f_tree.Values.{NoMeaning};
ghost use Rattle.lowering_laws.specs.f_tree.Meaning.{ftn, act_of};
ghost use Rattle.lowering_laws.specs.lowering.Units.{lowered_unit};
ghost use Rattle.emitted_texts.specs.faithful.Faithful.{SameRuns};
ghost use Rattle.bridge.specs.Bridge.{IsTranslated};
ghost use Rattle.bridge.specs.Example.{its_units, its_setting, its_facts, its_text, its_files, its_translation};

/// A main program with a DO loop and a PRINT is lowered to the text that is said, and all that is asked of it and of its C file is so.
pub fn example_is_translated()
    ensures lowered { lowered_unit its_facts ≡ Some its_text }
    ensures translated { IsTranslated its_setting its_units its_files its_translation }
{}
