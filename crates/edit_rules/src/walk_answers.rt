//! Laws of the walk through a format: exactly where its answers come that are no edit. A function here does nothing, and its contract is
//! the law.
ghost use Rattle.std.specs.Prelude.{◌≡◌, ◌↔◌, ℕ, false, true, List, []};
ghost use Rattle.edit_meaning.specs.Formats as formats;
ghost use Rattle.edit_meaning.specs.Formats.{closing};
ghost use Rattle.edit_meaning.specs.Transfers.{for_next};
ghost use Rattle.edit_rules.specs.Walks.{Given};
ghost use Rattle.edit_rules.specs.declared.edits.Edit.{Edit};
ghost use Rattle.edit_rules.specs.declared.edits.Edit.TheVariants as edit;
ghost use Rattle.edit_rules.specs.declared.format_walk.FormatWalk.{FormatWalk};

/// Where no item is wanted, `Done` comes exactly where the format gives nothing more, and `NoDescriptor` never. Where an item is wanted,
/// `NoDescriptor` comes exactly where the format gives nothing more for it, and then the item gets no descriptor; `Done` never comes
/// (ANSI X3.9-1978, section 13.3).
pub fn answers_that_are_no_edit()
    ensures done { (text : List ℕ) → (again rest : List formats.Edit) → (walk : FormatWalk) → (given : Edit)
        → Given false text again rest walk given → (given ≡ edit.Done) ↔ (closing rest ≡ []) }
    ensures never_none { (text : List ℕ) → (again rest : List formats.Edit) → (walk : FormatWalk) → (given : Edit)
        → Given false text again rest walk given → given ≡ edit.NoDescriptor → ⊥ }
    ensures none { (text : List ℕ) → (again rest : List formats.Edit) → (walk : FormatWalk) → (given : Edit)
        → Given true text again rest walk given → (given ≡ edit.NoDescriptor) ↔ ((for_next again rest).edits ≡ []) }
    ensures unserved { (text : List ℕ) → (again rest : List formats.Edit) → (walk : FormatWalk) → (given : Edit)
        → Given true text again rest walk given → given ≡ edit.NoDescriptor → (for_next again rest).unserved ≡ 1 }
    ensures never_done { (text : List ℕ) → (again rest : List formats.Edit) → (walk : FormatWalk) → (given : Edit)
        → Given true text again rest walk given → given ≡ edit.Done → ⊥ }
{}
