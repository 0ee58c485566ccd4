//! Laws of the edit rules: what the definitions owe to each other. A function here does nothing, and its contract is the law.
ghost use Rattle.std.specs.Prelude.{◌≡◌, ℕ, suc, ◌≤◌, ◌<◌, Bool, false, true, None, Some, List, []};
ghost use Rattle.edit_meaning.specs.Formats.{Format, TextIn, edits_for, closing};
ghost use Rattle.edit_meaning.specs.Halts.{Number};
ghost use Rattle.edit_meaning.specs.Transfers.{begun, one_more, with_each, closed_by};
ghost use Rattle.edit_meaning.specs.EditedRecords.{Sheet, Output, output, output_start, output_closed, field_of, with_field, made_on};
ghost use Rattle.edit_meaning.specs.TakenRecords.{Want, input, input_start, taken};
ghost use Rattle.edit_meaning.specs.Listed.{ListedValue, Text};

/// The edits that items take, with one more item: where those before were all served it is served from what they left of the pass,
/// and from the format gone on with where that has no descriptor (ANSI X3.9-1978, section 13.3).
pub fn one_more_item()
    ensures { (format : Format) → (items : ℕ) → edits_for format (suc items) ≡ one_more format (edits_for format items) }
{}

/// An output whose values come one at a time makes what the output of the whole list makes, open and closed.
pub fn output_item_by_item()
    ensures open_ { (sheet : Sheet) → (format : Format) → (values : List ListedValue)
        → (with_each (output sheet) format values (begun format (output_start sheet))).state ≡ made_on sheet format values false }
    ensures closed { (sheet : Sheet) → (format : Format) → (values : List ListedValue)
        → let progress = with_each (output sheet) format values (begun format (output_start sheet)) in
        output_closed sheet progress.left progress.state ≡ made_on sheet format values true }
{}

/// An input whose items come one at a time takes what the input of the whole list takes.
pub fn input_item_by_item()
    ensures { (format : Format) → (records : List (List ℕ)) → (wants : List Want) → (zeros : Bool)
        → let progress = with_each input format wants (begun format (input_start records zeros)) in
        closed_by input (closing progress.left) progress.state ≡ taken format records wants zeros }
{}

/// An item of length 0 under A without a width writes nothing: the record in the making and the position stay. Where the position is past the
/// last column it is error number 5 all the same.
pub fn empty_text_writes_nothing()
    ensures within { (sheet : Sheet) → (out : Output) → out.before ≤ sheet.columns → with_field sheet (field_of (TextIn None) (Text []) out.plus) out ≡ out }
    ensures past { (sheet : Sheet) → (out : Output) → sheet.columns < out.before
        → (with_field sheet (field_of (TextIn None) (Text []) out.plus) out).halted ≡ Some (Number 5) }
{}
