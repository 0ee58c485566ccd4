//! What no clause says: that a real file answers as the device in memory does, whose answers are proved.

use f2c_outside::devices::{Device, Got};
use f2c_outside::host_file::HostFile;
use f2c_outside::memory_device::MemoryDevice;
use f2c_outside::texts::Name;
use std::fs;
use std::process::Abort;
use std::test::Fail;

/// How many sequences of calls are tried.
const SEQUENCES: u32 = 1_000;

/// How many calls a sequence has.
const CALLS: u32 = 30;

/// The most bytes of a record: more than a file is read at once.
const LONGEST: usize = 4_200;

/// The lengths of records. Those past 4,000 lie about the end of a piece that a file is read in.
const LENGTHS: [usize; 12] = [0, 0, 1, 1, 2, 3, 5, 8, 13, 4095, 4096, 4097];

/// A fixed course of numbers.
#[derive(Drop)]
struct Course {
    state: u64,
}

impl Course {
    /// The next number, below a bound.
    fn below(&mut self, bound: u32) -> u32 {
        self.state = self
            .state
            .wrapping_mul(6_364_136_223_846_793_005)
            .wrapping_add(1_442_695_040_888_963_407);
        let high = (self.state >> 33) as u32;
        high.checked_rem(bound).unwrap_or(0)
    }

    /// The next record, a part of these bytes.
    fn record<'a>(&mut self, bytes: &'a [u8]) -> &'a [u8] {
        let length = LENGTHS.get(self.below(12) as usize).copied().unwrap_or(0);
        let start = self.below(26) as usize;
        bytes
            .get(start..start.saturating_add(length))
            .unwrap_or(b"")
    }
}

/// Bytes that records are cut from: letters, and bytes that no text has.
fn letters() -> [u8; LONGEST] {
    let mut bytes = [0u8; LONGEST];
    let mut next = b'A';
    for byte in &mut bytes {
        *byte = next;
        next = match next {
            b'Z' => b'\r',
            b'\r' => 255,
            255 => 0,
            0 => b'A',
            _ => next.saturating_add(1),
        };
    }
    bytes
}

/// Whether a read finds the same on both devices, and puts the same bytes into a slice of so much room.
fn reads_alike<D: Device, E: Device>(one: &mut D, other: &mut E, room: usize) -> bool {
    let mut into = [b'.'; LONGEST];
    let mut into_other = [b'.'; LONGEST];
    let room = room.min(LONGEST);
    let got = one.read_record(&mut into[..room]);
    got != Got::Failed
        && got == other.read_record(&mut into_other[..room])
        && into.as_slice() == into_other.as_slice()
}

/// Makes the next call of both devices, and says whether it succeeded on both with the same answer.
fn answers_alike<D: Device, E: Device>(
    course: &mut Course,
    bytes: &[u8],
    one: &mut D,
    other: &mut E,
) -> bool {
    match course.below(13) {
        0..=2 => reads_alike(one, other, LONGEST),
        3 => reads_alike(one, other, 2),
        4..=6 => {
            let record = course.record(bytes);
            one.write_record(record) == Ok(()) && other.write_record(record) == Ok(())
        }
        7..=9 => one.back() == Ok(()) && other.back() == Ok(()),
        10 => one.rewind() == Ok(()) && other.rewind() == Ok(()),
        11 => one.end_file() == Ok(()) && other.end_file() == Ok(()),
        _ => {
            let records = one.finish();
            records.is_ok() && records == other.finish()
        }
    }
}

/// Whether both devices have the same records, from the first on.
fn holds_alike<D: Device, E: Device>(one: &mut D, other: &mut E) -> bool {
    if one.rewind().is_err() || other.rewind().is_err() {
        return false;
    }
    let Ok(records) = one.finish() else {
        return false;
    };
    for _ in 0..=records {
        if !reads_alike(one, other, LONGEST) {
            return false;
        }
    }
    other.finish() == Ok(records) && one.read_record(&mut []) == Got::End
}

/// Fills a device and a text with the same records: up to five, of which the last may lack its line feed.
fn fill(
    course: &mut Course,
    bytes: &[u8],
    device: &mut MemoryDevice,
    text: &mut Vec<u8>,
) -> Result<(), Fail> {
    let count = course.below(6);
    let mut is_empty = true;
    for _ in 0..count {
        let record = course.record(bytes);
        device.add(record)?;
        text.extend_from_slice(record)?;
        text.push(b'\n')?;
        is_empty = record.is_empty();
    }
    if !is_empty && course.below(2) == 0 {
        let _end = text.pop();
    }
    Ok(())
}

#[test]
fn a_real_file_answers_as_the_device_in_memory(rt: HostRuntime) -> Result<(), Fail> {
    let path = "device_rows.txt";
    let bytes = letters();
    let mut course = Course { state: 77 };
    for sequence in 0..SEQUENCES {
        let mut device = MemoryDevice::new(rt.alloc())?;
        let mut text = Vec::new(rt.alloc());
        fill(&mut course, &bytes, &mut device, &mut text)?;
        fs::write(&rt, path, text.as_slice())?;
        let mut file = HostFile::new(rt.alloc(), rt, Name::new(rt.alloc(), path.as_bytes())?);
        for call in 0..CALLS {
            assert!(rt;
                answers_alike(&mut course, &bytes, &mut file, &mut device),
                "sequence {sequence}, call {call}"
            );
        }
        assert!(rt; holds_alike(&mut file, &mut device), "sequence {sequence}");
    }
    fs::remove_file(&rt, path)?;
    Ok(())
}
