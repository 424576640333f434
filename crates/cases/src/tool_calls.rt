// What the operator's program asks of its arguments and of what it saw, on the bytes that stand for plan and cursor.
use crate::{Call, Given};
use decimal::DecimalError;
use std::io;
use std::io::Write;
use units::TimeError;

fn digits<O: Write>(out: &mut O, bytes: &[u8]) -> io::Result<()> {
    match decimal::read_decimal(bytes) {
        Ok(value) => writeln!(out, "value {value}"),
        Err(DecimalError::Empty) => writeln!(out, "empty"),
        Err(DecimalError::NoDigit(at)) => writeln!(out, "no digit at {at}"),
        Err(DecimalError::TooLarge) => writeln!(out, "too large"),
    }
}

// A time that was read, or that it is none, for whatever reason.
fn time<O: Write>(out: &mut O, read: Result<u32, TimeError>) -> io::Result<()> {
    match read {
        Ok(ns) => writeln!(out, "ns {ns}"),
        Err(_) => writeln!(out, "no time"),
    }
}

/// Prints whether something holds.
pub(crate) fn holds<O: Write>(out: &mut O, it: bool) -> io::Result<()> {
    let word = if it { "yes" } else { "no" };
    writeln!(out, "{word}")
}

fn edition<O: Write>(out: &mut O, saved: &[u8]) -> io::Result<()> {
    match seen::edition_of(saved) {
        Some(number) => writeln!(out, "edition {number}"),
        None => writeln!(out, "none"),
    }
}

pub(crate) fn asked<O: Write>(out: &mut O, call: &Call<'_>, given: &Given) -> io::Result<bool> {
    let number = call.numbers.at(0);
    match call.verb {
        b"digits" => digits(out, &given.saved)?,
        b"time" => time(out, units::read_time(&given.saved))?,
        b"rate" => time(out, units::read_rate(&given.saved))?,
        b"same" => holds(out, seen::same(&given.plan, &given.saved))?,
        // Calls on what is kept beside a cursor, with an edition of the rules.
        b"known" => holds(out, seen::known(&given.saved, number, &given.plan))?,
        b"copy" => holds(out, seen::is_copy(&given.saved, number))?,
        b"edition" => edition(out, &given.saved)?,
        _ => return Ok(false),
    }
    Ok(true)
}
