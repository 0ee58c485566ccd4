//! Laws of both directions of a formatted transfer: what was written is read back. A function here does nothing, and its contract is the law.
ghost use Rattle.std.specs.Prelude.{◌≡◌, ℕ, ℤ, ◌+◌, ◌-◌, ◌≤◌, ◌<◌, ◌++◌, Bool, true, None, Option, Ok, List, map, length, drop, take, replicate, IsTrue};
ghost use Rattle.edit_meaning.specs.EditedFields.{int_text, int_field, logical_field, text_field};
ghost use Rattle.edit_meaning.specs.EditedRecords.{Sheet, unit_sheet, made, made_on};
ghost use Rattle.edit_meaning.specs.Formats.{Format};
ghost use Rattle.edit_meaning.specs.Listed.{ListedValue};
ghost use Rattle.edit_meaning.specs.ReadBack.{has_32_bits, stand_whole, follow_one_another, AreKept, want_of, read_as};
ghost use Rattle.edit_meaning.specs.TakenFields.{int_in, logical_in, text_in};
ghost use Rattle.edit_meaning.specs.TakenRecords.{taken};

/// A field that is wide enough for its value is read back: an integer's sign and digits, whatever blanks mean; a logical's letter; a text.
/// A wider field of a text pads it on the left, and a narrower one keeps its leftmost characters, behind which input pads with blanks.
pub fn fields_are_read_back()
    ensures integers { (number : ℤ) → (width : ℕ) → (least : Option ℕ) → (plus zeros : Bool) → IsTrue (has_32_bits number)
        → length (int_text number least plus) ≤ width → int_in (int_field number width least plus) zeros ≡ Ok number }
    ensures logicals { (truth : Bool) → (width : ℕ) → 0 < width → logical_in (logical_field truth width) ≡ Ok truth }
    ensures texts { (text : List ℕ) → (width : ℕ) → length text ≤ width → text_in (text_field text width) (length text) ≡ text }
    ensures wider { (text : List ℕ) → (width : ℕ) → length text ≤ width → text_field text width ≡ replicate (width - length text) 32 ++ text }
    ensures narrower { (text : List ℕ) → (width : ℕ) → width ≤ length text → text_field text width ≡ take width text }
    ensures cut { (text : List ℕ) → (width : ℕ) → width ≤ length text
        → text_in (text_field text width) (length text) ≡ take width text ++ replicate (length text - width) 32 }
{}

/// Records that a format wrote are read back by the same format: the output of all values came to its end, no text of the format stands
/// among them, and each value has a field that is wide enough behind all that its record has so far. Then an input of the same types takes
/// the values, and comes to its end, whatever blanks mean.
pub fn records_are_read_back()
    ensures values { (format : Format) → (values : List ListedValue) → (zeros : Bool) → (made format values true).halted ≡ None
        → IsTrue (stand_whole unit_sheet format values) → (taken format (made format values true).complete (map want_of values) zeros).values ≡ map read_as values }
    ensures ends { (format : Format) → (values : List ListedValue) → (zeros : Bool) → (made format values true).halted ≡ None
        → IsTrue (stand_whole unit_sheet format values) → (taken format (made format values true).complete (map want_of values) zeros).halted ≡ None }
{}

/// The same of the records of a unit or an internal file where they are kept: blanks may stand behind each, as they do in an internal file,
/// and further records behind them all. The records as they were written are kept so.
pub fn kept_records_are_read_back()
    ensures values { (sheet : Sheet) → (format : Format) → (values : List ListedValue) → (kept : List (List ℕ)) → (zeros : Bool) → sheet.columns ≤ 1024
        → (made_on sheet format values true).halted ≡ None → IsTrue (stand_whole sheet format values) → AreKept (made_on sheet format values true).complete kept
        → (taken format kept (map want_of values) zeros).values ≡ map read_as values }
    ensures ends { (sheet : Sheet) → (format : Format) → (values : List ListedValue) → (kept : List (List ℕ)) → (zeros : Bool) → sheet.columns ≤ 1024
        → (made_on sheet format values true).halted ≡ None → IsTrue (stand_whole sheet format values) → AreKept (made_on sheet format values true).complete kept
        → (taken format kept (map want_of values) zeros).halted ≡ None }
    ensures as_written { (sheet : Sheet) → (format : Format) → (values : List ListedValue) → sheet.columns ≤ 1024
        → (made_on sheet format values true).halted ≡ None → IsTrue (stand_whole sheet format values)
        → AreKept (made_on sheet format values true).complete (made_on sheet format values true).complete }
{}

/// Values stand whole where each has a field that is wide enough, and nothing but TR, X, slashes, S, SP, SS, BN, BZ, scale factors and colons
/// stands between the fields.
pub fn fields_that_follow_stand_whole()
    ensures { (sheet : Sheet) → (format : Format) → (values : List ListedValue) → IsTrue (follow_one_another format values)
        → IsTrue (stand_whole sheet format values) }
{}
