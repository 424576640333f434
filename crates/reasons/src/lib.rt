// What a refusal says on standard error: one sentence with the record and its numbers. No contract can say what a call of the operating system writes, so
// these promise only to be safe and to end; tests/printed.test holds each sentence against an independent checker. Where one record has several faults, the
// first in the order of its words is said.
#![tactic(auto)]

use std::io::Write;
use std::{fmt, io};

pub mod file;
pub mod lists;
mod names;
pub mod records;
pub mod said;

// How an `io::Error` ends that has a number of the system.
const NUMBERED: &str = " (os error ";

/// Prints a sentence on a line of its own. What cannot be written is lost.
pub fn report<E: Write, S: fmt::Display + Drop>(err: &mut E, sentence: S) {
    let _ = writeln!(err, "conepalhui: {sentence}");
}

/// Prints something as it is.
pub fn text<E: Write>(err: &mut E, bytes: &[u8]) {
    let _ = err.write_all(bytes);
}

// A writer that leaves out the end " (os error N)" that an `io::Error` adds to the system's words.
#[derive(Drop)]
struct Words<'a, E> {
    to: &'a mut E,
    is_over: bool,
}

impl<E: Write> fmt::Write for Words<'_, E> {
    fn write_str(&mut self, s: &str) -> fmt::Result {
        if self.is_over || s.starts_with(NUMBERED) {
            self.is_over = true;
            return Ok(());
        }
        self.to.write_all(s.as_bytes()).map_err(|_| fmt::Error)
    }
}

/// Prints on a line what failed, as the caller names it, and the system's words for it.
pub fn fail<E: Write>(err: &mut E, what: &[u8], error: &io::Error) {
    text(err, what);
    text(err, b": ");
    let mut words = Words {
        to: &mut *err,
        is_over: false,
    };
    let _ = fmt::Write::write_fmt(&mut words, error);
    text(err, b"\n");
}

/// Begins a line.
pub fn begin<E: Write>(err: &mut E) {
    text(err, b"conepalhui: ");
}

/// A number as a word, or the largest word where it is larger.
// Kept: no `From`, since a usize need not fit a u32, and no method of std stops at the largest word.
pub fn small(n: usize) -> u32 {
    u32::try_from(n).unwrap_or(u32::MAX)
}
