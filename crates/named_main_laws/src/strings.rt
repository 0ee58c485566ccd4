//! The strings of the C files of main programs, as the contract of a call that does nothing.

ghost use Rattle.named_main_laws.specs.NamedBodies.{EachMainFileIsOfBytes};

/// Where the text of each STOP statement is of bytes, the file that is made for a main program from items by names has strings of bytes alone: its statements
/// have no strings but those texts, and its declarations have none (11.12; C89, 3.1.4).
pub fn main_files_are_of_bytes()
    ensures { EachMainFileIsOfBytes }
{}
