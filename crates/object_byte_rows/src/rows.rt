//! What bounds the bytes of the objects of two files, as the contract of a call that does nothing.

ghost use Rattle.object_byte_rows.specs.Examples.{ExampleIsCounted};

/// A main program with an array of three integers and a logical variable, and a subroutine with an integer variable in another file, have sequences of 20 bytes,
/// since the dummy argument has none; their trees have 35 nodes, and the texts of their STOP statements five characters, those of a logical IF among them
/// (11.12, 15.9.3 and 17.1).
pub fn example_is_counted()
    ensures { ExampleIsCounted }
{}
