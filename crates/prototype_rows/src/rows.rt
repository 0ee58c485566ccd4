//! The prototypes of a file whose forms are not all translated, each row as a clause of a call that does nothing.
#![tactic(auto)]

ghost use Rattle.std.specs.Prelude.{◌++◌, ◌∷◌, [], ◌≡◌, codes};
ghost use Rattle.prototypes.specs.f_tree.Runs.{no_options};
ghost use Rattle.prototypes.specs.FilePrototypes.{file_prototypes};
ghost use Rattle.prototypes.specs.PrototypeText.{prototype_text};
ghost use Rattle.prototype_rows.specs.SummingSource.{add, summing};

/// A subroutine with a common block and a DO has one prototype, which is one line.
pub fn summing_unit_has_its_prototype()
    ensures prototypes { file_prototypes no_options summing ≡ add ∷ [] }
    ensures text { prototype_text (add ∷ []) ≡ codes "extern int add_(integer *n, integer *s);" ++ 10 ∷ [] }
{}
