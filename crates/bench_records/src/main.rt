//! Writes so many records to the file `records.txt`, rewinds it, reads all, goes back over half of them one
//! by one, writes a record there, and prints how many were read.
#![tactic(auto)]

use f2c_outside::devices::{Device, Got};
use f2c_outside::host_file::HostFile;
use f2c_outside::texts::Name;
use std::env;
use std::process::ExitCode;

/// How many records are written where no word says it.
const RECORDS: u32 = 1_000;

/// The number of the command line, or `RECORDS` where there is none.
fn wanted(rt: &HostRuntime) -> u32 {
    let Ok(mut words) = env::args(rt) else {
        return RECORDS;
    };
    match words.nth(1) {
        Some(word) => word.parse::<u32>().unwrap_or(RECORDS),
        None => RECORDS,
    }
}

/// Writes so many records, and says whether no call failed.
fn write_records<D: Device>(file: &mut D, count: u32) -> bool {
    for _ in 0..count {
        if file
            .write_record(b"A RECORD OF THIRTY-TWO CHARACTERS")
            .is_err()
        {
            return false;
        }
    }
    true
}

/// Reads to the end, and answers how many records there were; `None` where a call failed.
fn read_records<D: Device>(file: &mut D, count: u32) -> Option<u32> {
    let mut into = [0u8; 80];
    for found in 0..=count {
        match file.read_record(&mut into) {
            Got::Line(_) => {}
            Got::End => return Some(found),
            Got::Long(_) | Got::Failed => return None,
        }
    }
    None
}

/// Goes back over so many records, and says whether no call failed.
fn go_back<D: Device>(file: &mut D, count: u32) -> bool {
    for _ in 0..count {
        if file.back().is_err() {
            return false;
        }
    }
    true
}

/// Writes, rewinds and reads, and answers how many records were read; then goes back to the middle and
/// writes there. `None` where a call failed.
fn records_of<D: Device>(file: &mut D, count: u32) -> Option<u32> {
    if !write_records(file, count) || file.rewind().is_err() {
        return None;
    }
    let found = read_records(file, count)?;
    if go_back(file, found / 2) && write_records(file, 1) {
        Some(found)
    } else {
        None
    }
}

/// Prints how many records were read, or fails.
fn main(rt: HostRuntime) -> ExitCode {
    let Ok(name) = Name::new(rt.alloc(), b"records.txt") else {
        return ExitCode::from(1);
    };
    let mut file = HostFile::new(rt.alloc(), rt, name);
    match records_of(&mut file, wanted(&rt)) {
        Some(count) if rt.println(format_args!("{count} records")).is_ok() => ExitCode::from(0),
        _ => ExitCode::from(1),
    }
}
