//! Edits so many integers into fields of a width, takes each back, and prints how many came back as they were.
#![tactic(auto)]

use edit_rules::{edit_int, take_int};
use std::env;
use std::process::ExitCode;

/// The widest field.
const WIDEST: usize = 1024;

/// How many integers there are where no word says it.
const INTEGERS: u32 = 1_000_000;

/// The width where no word says it, which holds every integer.
const WIDTH: u32 = 16;

/// How far an integer is from the one before, so that they spread over 32 bits.
const STEP: i32 = 1_640_531_527;

/// The number at a place of the command line, or `otherwise` where there is none.
fn word_at(rt: &HostRuntime, place: usize, otherwise: u32) -> u32 {
    let Ok(mut words) = env::args(rt) else {
        return otherwise;
    };
    match words.nth(place) {
        Some(word) => word.parse::<u32>().unwrap_or(otherwise),
        None => otherwise,
    }
}

/// Whether the number comes back from the field that it is edited into.
fn comes_back(number: i32, field: &mut [u8]) -> bool {
    let width = field.len();
    edit_int(number, width, None, false, field);
    match take_int(field, false) {
        Ok(back) => back == number,
        Err(_) => false,
    }
}

/// How many of so many integers, spread over 32 bits, come back.
fn count_back(count: u32, field: &mut [u8]) -> u32 {
    let mut back: u32 = 0;
    let mut number: i32 = 0;
    for _ in 0..count {
        if comes_back(number, field) {
            back = back.saturating_add(1);
        }
        number = number.wrapping_add(STEP);
    }
    back
}

/// Edits and takes back so many integers.
fn main(rt: HostRuntime) -> ExitCode {
    let count = word_at(&rt, 1, INTEGERS);
    let width = (word_at(&rt, 2, WIDTH) as usize).min(WIDEST);
    let mut line = [0u8; WIDEST];
    let back = count_back(count, &mut line[..width]);
    if rt.println(format_args!("{back} integers")).is_ok() {
        ExitCode::from(0)
    } else {
        ExitCode::from(1)
    }
}
