//! Laws of C texts that are printed and read (C89, 3.7). The functions here do nothing; their contracts are the laws.
#![tactic(auto)]

ghost use Rattle.c_text_laws.specs.ReadingLaws.{EachSpelledFileIsRead, EachPrintedFileIsRead, EachFaithfulTextIsRead};

/// Whatever text spells a file is read as that file, or not for want of memory.
pub fn spelled_texts_are_read()
    ensures { EachSpelledFileIsRead }
{}

/// The printed text of each well-formed file whose strings are of bytes is read back as that file, or not for want of memory.
pub fn printed_texts_are_read_back()
    ensures { EachPrintedFileIsRead }
{}

/// Each text of a translation is read back as the file that was translated to, or not for want of memory.
pub fn translated_texts_are_read_back()
    ensures { EachFaithfulTextIsRead }
{}
