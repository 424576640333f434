// Signed numbers of a list: read, and printed.
use crate::text;
use std::alloc::{AllocError, Global};
use std::io;
use std::io::Write;

// The largest value that has room for one more digit.
const MAX_BEFORE_DIGIT: u64 = u64::MAX / 10 - 1;

/// Prints numbers up to the last that is not 0, each after a space, and ends the line.
pub(crate) fn show_used<O: Write>(out: &mut O, numbers: &[i64]) -> io::Result<()> {
    let Some(last) = numbers.iter().rposition(|z| *z != 0) else {
        return writeln!(out, " all 0");
    };
    for z in &numbers[..last + 1] {
        write!(out, " {z}")?;
    }
    if last + 1 < numbers.len() {
        write!(out, ", then 0")?;
    }
    writeln!(out)
}

// One digit more. What has too many is cut.
fn with_digit(value: u64, byte: u8) -> u64 {
    if MAX_BEFORE_DIGIT < value {
        return value;
    }
    value * 10 + u64::from(text::digit(byte))
}

fn worth(digits: &[u8]) -> u64 {
    digits
        .iter()
        .fold(0, |value, byte| with_digit(value, *byte))
}

fn at_least_zero(size: u64) -> i64 {
    i64::try_from(size).unwrap_or(0)
}

// The number so far below zero: the smallest one is no i64 above zero.
fn minus(size: u64) -> i64 {
    match size.checked_sub(1) {
        Some(less) => !at_least_zero(less),
        None => 0,
    }
}

// A number in decimal, with a minus in front where it is negative.
// Kept: a byte that is no digit counts as 0, and a to f as 10 to 15, where parse refuses the word; what the program takes stays.
fn number(word: &[u8]) -> i64 {
    match word.strip_prefix(b"-") {
        Some(digits) => minus(worth(digits)),
        None => at_least_zero(worth(word)),
    }
}

/// The words of a text as numbers.
pub(crate) fn words(alloc: Global, text: &[u8]) -> Result<Vec<i64>, AllocError> {
    text::words_of(alloc, text)?
        .iter()
        .map(|word| number(word))
        .collect(alloc)
}
