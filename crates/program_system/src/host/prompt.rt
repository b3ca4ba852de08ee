//! Prompts.
use just_host::Confirmation;
use std::alloc::Global;
use std::io;
use std::io::{BufRead, Input, Read};

/// A line is at most so many bytes long, with what ends it.
const LINE_LIMIT: u64 = 65_536;

/// What the user says by a line: `y` and `yes`, in any capitals and white space around, confirm.
pub fn said(line: &str) -> Confirmation {
    let word = line.trim();
    if word.eq_ignore_ascii_case("y") || word.eq_ignore_ascii_case("yes") {
        Confirmation::Yes
    } else {
        Confirmation::No
    }
}

/// What the user says by these bytes. No byte is no answer, nor is a line past the limit or one that isn't UTF-8.
fn heard(line: &[u8]) -> Confirmation {
    if line.is_empty() || line.len() as u64 > LINE_LIMIT {
        return Confirmation::Failed;
    }
    match std::str::from_utf8(line) {
        Ok(line) => said(line),
        Err(_) => Confirmation::Failed,
    }
}

/// One line of the input, or what comes before the end or the limit.
fn read_line<I: Input>(input: &I, line: &mut Vec<u8>) -> io::Result<usize> {
    input.reader().take(LINE_LIMIT + 1).read_until(b'\n', line)
}

/// What the user says by a line of standard input.
pub fn answered<R: Input + Alloc<A = Global>>(rt: &R) -> Confirmation {
    let mut line = Vec::new(rt.alloc());
    match read_line(rt, &mut line) {
        Ok(_) => heard(line.as_slice()),
        Err(_) => Confirmation::Failed,
    }
}
