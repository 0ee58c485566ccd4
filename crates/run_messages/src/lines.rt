//! The lines of a run, each said in its pieces (CSTR 149, appendix on the run time library; ANSI X3.9-1978, 11.12 and 12.7).

ghost use Rattle.std.specs.Prelude.{◌≡◌};
ghost use Rattle.c_tree.specs.FaultNames.{fault_name};
ghost use Rattle.shelf_texts.specs.Messages.{Said};
ghost use Rattle.run_messages.specs.RunLines.{not_c_line, link_line, fault_line, out_of_steps_line, device_line, io_line, range_line, stop_line, uncounted_line};

use c_tree::outcome::CFault;
use f2c_outside::shelves::Shelf;
use itoa::Buffer;
use shelf_texts::say;

/// The name of a fault (C89, 3.3 and 3.6, leave these acts undefined), as its line gives it.
pub fn fault_text(fault: CFault) -> &'static [u8]
    ensures { result.now ≡ fault_name fault }
{
    fault.name()
}

/// Says `f2c: FILE:LINE: not in the C subset`, of the first line at which a file is no C text (C89, 3.7).
pub fn say_not_c<H: Shelf>(shelf: &mut H, name: &[u8], line: usize)
    ensures { Said (not_c_line name.now line) (H.state shelf.old) (H.state shelf.new) }
{
    let mut printed = Buffer::new();
    let pieces: [&[u8]; 5] = [
        b"f2c: ",
        name,
        b":",
        printed.format(line).as_bytes(),
        b": not in the C subset\n",
    ];
    say(shelf, &pieces);
}

/// Says `f2c: link K`, of the rule that the files break so that they are no program (C89, 3.1.2.2 and 3.7).
pub fn say_link<H: Shelf>(shelf: &mut H, rule: u8)
    ensures { Said (link_line rule) (H.state shelf.old) (H.state shelf.new) }
{
    let mut printed = Buffer::new();
    let pieces: [&[u8]; 3] = [b"f2c: link ", printed.format(rule).as_bytes(), b"\n"];
    say(shelf, &pieces);
}

/// Says `f2c: fault KIND in FUNCTION`, of an act without meaning (C89, 3.3 and 3.6) and the function that was active.
pub fn say_fault<H: Shelf>(shelf: &mut H, kind: &[u8], function: &[u8])
    ensures { Said (fault_line kind.now function.now) (H.state shelf.old) (H.state shelf.new) }
{
    let pieces: [&[u8]; 5] = [b"f2c: fault ", kind, b" in ", function, b"\n"];
    say(shelf, &pieces);
}

/// Says `f2c: out of steps`, of a run that did not end within its limit of steps (C89, 2.1.2.3).
pub fn say_out_of_steps<H: Shelf>(shelf: &mut H)
    ensures { Said out_of_steps_line (H.state shelf.old) (H.state shelf.new) }
{
    let pieces: [&[u8]; 1] = [b"f2c: out of steps\n"];
    say(shelf, &pieces);
}

/// Says `f2c: unit U: device fault`, of the external unit whose device failed (ANSI X3.9-1978, 12.3).
pub fn say_device_fault<H: Shelf>(shelf: &mut H, unit: i32)
    ensures { Said (device_line unit) (H.state shelf.old) (H.state shelf.new) }
{
    let mut printed = Buffer::new();
    let pieces: [&[u8]; 3] = [
        b"f2c: unit ",
        printed.format(unit).as_bytes(),
        b": device fault\n",
    ];
    say(shelf, &pieces);
}

/// Says `f2c: I/O error NUMBER`, of an input or output statement that asks for no error (ANSI X3.9-1978, 12.7).
pub fn say_io_error<H: Shelf>(shelf: &mut H, number: i32)
    ensures { Said (io_line number) (H.state shelf.old) (H.state shelf.new) }
{
    let mut printed = Buffer::new();
    let pieces: [&[u8]; 3] = [b"f2c: I/O error ", printed.format(number).as_bytes(), b"\n"];
    say(shelf, &pieces);
}

/// Says `f2c: range VARIABLE NUMBER in UNIT line CARD`, of a place outside its declared bounds (ANSI X3.9-1978, 5.4 and 5.7).
pub fn say_range<H: Shelf>(shelf: &mut H, variable: &[u8], number: i32, unit: &[u8], card: i32)
    ensures { Said (range_line (record { variable = variable.now; number = number; unit = unit.now; card = card })) (H.state shelf.old) (H.state shelf.new) }
{
    let mut printed_number = Buffer::new();
    let mut printed_card = Buffer::new();
    let pieces: [&[u8]; 9] = [
        b"f2c: range ",
        variable,
        b" ",
        printed_number.format(number).as_bytes(),
        b" in ",
        unit,
        b" line ",
        printed_card.format(card).as_bytes(),
        b"\n",
    ];
    say(shelf, &pieces);
}

/// Says `STOP TEXT statement executed` (ANSI X3.9-1978, 11.12).
pub fn say_stop<H: Shelf>(shelf: &mut H, text: &[u8])
    ensures { Said (stop_line text.now) (H.state shelf.old) (H.state shelf.new) }
{
    let pieces: [&[u8]; 3] = [b"STOP ", text, b" statement executed\n"];
    say(shelf, &pieces);
}

/// Says `f2c: too much to count`, of an input that looks for an item in more steps than 64 bits tell (ANSI X3.9-1978, 13.6.1).
pub fn say_uncounted<H: Shelf>(shelf: &mut H)
    ensures { Said uncounted_line (H.state shelf.old) (H.state shelf.new) }
{
    let pieces: [&[u8]; 1] = [b"f2c: too much to count\n"];
    say(shelf, &pieces);
}
