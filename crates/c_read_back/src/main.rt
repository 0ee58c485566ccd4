//! Reads a C text of standard input back into its tree, and prints the text of the tree. Of a text that is none it prints at which line it is refused, and
//! ends with status 1; with status 5 for want of memory, and 3 where a stream failed.
#![tactic(auto)]

use c_file_reader::{ReadFail, read_c};
use c_text::print_c;
use std::io::{Read, Write};
use std::process::ExitCode;

/// Prints the text of the tree that the bytes spell, and gives the exit status.
fn read_back(rt: &HostRuntime, bytes: &[u8]) -> u8 {
    let alloc = rt.alloc();
    let file = match read_c(alloc, bytes) {
        Ok(file) => file,
        Err(ReadFail::NotC { line }) => {
            return match rt.println(format_args!("no C at line {line}")) {
                Ok(()) => 1,
                Err(_) => 3,
            };
        }
        Err(ReadFail::NoMemory) => return 5,
    };
    let Ok(text) = print_c(alloc, &file) else {
        return 5;
    };
    match rt.stdout().write_all(text.as_slice()) {
        Ok(()) => 0,
        Err(_) => 3,
    }
}

/// Reads standard input to its end.
fn main(rt: HostRuntime) -> ExitCode {
    let mut bytes = Vec::new(rt.alloc());
    match rt.stdin().read_to_end(&mut bytes) {
        Ok(_) => ExitCode::from(read_back(&rt, bytes.as_slice())),
        Err(_) => ExitCode::from(3),
    }
}
