//! Devices over real files and streams.

use crate::real_shelf::file_holds;
use f2c_outside::devices::{Device, DeviceFault, Got};
use f2c_outside::host_devices::{HostInput, HostOutput};
use f2c_outside::host_file::HostFile;
use f2c_outside::host_shelf::HostShelf;
use f2c_outside::shelves::{Place, Shelf, ShelfFault};
use f2c_outside::texts::Name;
use std::fs;
use std::process::Abort;
use std::test::Fail;

/// A call of a device that is to succeed.
#[derive(Clone, Copy)]
enum Step<'a> {
    /// It reads this record.
    Read(&'a [u8]),
    /// It reads into four bytes a record of more, so many.
    Long(usize),
    /// It reads at the end.
    End,
    /// It writes this record.
    Write(&'a [u8]),
    /// It goes back.
    Back,
    /// It goes before the first record.
    Rewind,
    /// It cuts off the records from the position on.
    Cut,
    /// It finds so many records where it finishes.
    Finish(u64),
}

/// Whether the call of a step does as the step says.
fn does<D: Device>(device: &mut D, step: &Step) -> bool {
    let mut into = [0u8; 5000];
    match step {
        Step::Read(line) => {
            device.read_record(&mut into) == Got::Line(line.len()) && into.starts_with(line)
        }
        Step::Long(count) => device.read_record(&mut into[..4]) == Got::Long(*count),
        Step::End => device.read_record(&mut into) == Got::End,
        Step::Write(line) => device.write_record(line) == Ok(()),
        Step::Back => device.back() == Ok(()),
        Step::Rewind => device.rewind() == Ok(()),
        Step::Cut => device.end_file() == Ok(()),
        Step::Finish(records) => device.finish() == Ok(*records),
    }
}

/// Calls a device as the steps say.
fn run_steps<D: Device>(rt: &impl Abort, device: &mut D, steps: &[Step]) {
    for (number, step) in steps.iter().enumerate() {
        assert!(rt; does(device, step), "step {number}");
    }
}

#[test]
fn a_real_file_holds_what_was_written(rt: HostRuntime) -> Result<(), Fail> {
    use Step::{Back, Cut, End, Finish, Long, Read, Rewind, Write};
    let path = "file_test.txt";
    let long = [b'x'; 5000];
    let mut device = HostFile::new(rt.alloc(), rt, Name::new(rt.alloc(), path.as_bytes())?);
    assert!(rt;
        fs::read(&rt, path).is_err(),
        "it is opened at the first call"
    );
    fs::write(&rt, path, b"ONE\n\nTHREE".as_slice())?;
    run_steps(
        &rt,
        &mut device,
        &[
            Finish(3),
            Read(b"ONE"),
            Read(b""),
            Long(5),
            End,
            Write(b"FOUR"),
        ],
    );
    assert!(rt; file_holds(&rt, path, b"ONE\n\nTHREE\nFOUR\n"));
    run_steps(
        &rt,
        &mut device,
        &[Back, Back, Back, Write(b"2"), Finish(2)],
    );
    assert!(rt; file_holds(&rt, path, b"ONE\n2\n"));
    run_steps(&rt, &mut device, &[Rewind, Read(b"ONE"), Cut, Finish(1)]);
    assert!(rt; file_holds(&rt, path, b"ONE\n"));
    run_steps(
        &rt,
        &mut device,
        &[
            Write(&long),
            Write(b"END"),
            Back,
            Back,
            Read(&long),
            Read(b"END"),
        ],
    );
    fs::remove_file(&rt, path)?;
    Ok(())
}

#[test]
fn a_stream_takes_and_gives_records(rt: HostRuntime) -> Result<(), Fail> {
    use Step::{Back, End, Finish, Long, Read, Rewind, Write};
    let path = "stream_test.txt";
    let mut output = HostOutput::new(fs::create(&rt, path)?);
    run_steps(&rt, &mut output, &[Write(b"ONE"), Write(b""), Finish(2)]);
    assert!(rt; !does(&mut output, &Back));
    assert!(rt; file_holds(&rt, path, b"ONE\n\n"));
    fs::write(&rt, path, b"ONE\n\nTHREE".as_slice())?;
    let mut input = HostInput::new(rt.alloc(), fs::open(&rt, path)?);
    run_steps(
        &rt,
        &mut input,
        &[Read(b"ONE"), Read(b""), Long(5), End, Finish(3)],
    );
    assert!(rt; !does(&mut input, &Rewind));
    fs::remove_file(&rt, path)?;
    Ok(())
}

#[test]
fn what_cannot_be_read_or_written_fails(rt: HostRuntime) -> Result<(), Fail> {
    let mut shelf = HostShelf::new(rt.alloc(), rt, rt.stderr());
    let missing = Name::new(rt.alloc(), b"no_such_folder/file")?;
    let folder = Name::new(rt.alloc(), b".")?;
    for name in [&missing, &folder] {
        let mut device = HostFile::new(rt.alloc(), rt, name.copy(rt.alloc())?);
        assert!(rt; device.read_record(&mut [0u8; 4]) == Got::Failed);
        assert!(rt; device.write_record(b"A") == Err(DeviceFault::Failed));
        assert!(rt; device.end_file() == Err(DeviceFault::Failed));
        assert!(rt; device.finish() == Err(DeviceFault::Failed));
        let place = Place::File(name.copy(rt.alloc())?);
        assert!(rt; shelf.start_write(&place) == Err(ShelfFault::Failed));
    }
    let place = Place::File(missing);
    assert!(rt; shelf.start_read(&place) == Err(ShelfFault::Missing));
    let place = Place::File(folder);
    assert!(rt; shelf.start_read(&place) == Ok(()));
    assert!(rt; shelf.take(&mut [0u8; 4]) == Err(ShelfFault::Failed));
    Ok(())
}
