//! How many objects lowered program units need, as the contract of a call that does nothing.

ghost use Rattle.lowered_objects.specs.FewObjects.{EachTextNeedsFewObjects};

/// For each node of its statements as they are read, the text of a lowered unit keeps at most two temporaries and passes at most three constants; and the texts
/// that its STOP statements pass, each with a zero byte, have no more bytes than these nodes and those texts. So it does behind what is kept of dummy arrays
/// (5.5.1, 6, 10 to 12 and 15).
pub fn lowered_texts_need_few_objects()
    ensures { EachTextNeedsFewObjects }
{}
