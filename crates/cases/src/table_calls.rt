// The calls on a table, each with its answer printed.
use crate::Call;
use basics::Refusal;
use checker::SliceAnswer;
use files::{Cursor, Returned};
use rules::Rule;
use show::told;
use std::io;
use std::io::Write;
use table::Move;

/// Prints a cursor, and ends no line.
pub(crate) fn cursor<O: Write>(out: &mut O, c: Cursor) -> io::Result<()> {
    let Cursor {
        revision,
        leg,
        place,
    } = c;
    write!(out, "cursor {revision} {leg} {place}")
}

/// Prints the cursor that a refusal gave back.
pub(crate) fn given_back<O: Write>(out: &mut O, back: Cursor) -> io::Result<()> {
    write!(out, "given back: ")?;
    cursor(out, back)?;
    writeln!(out)
}

fn refused<O: Write>(out: &mut O, refusal: Refusal, back: Cursor) -> io::Result<()> {
    show::refused(out, refusal)?;
    given_back(out, back)
}

fn violated<O: Write>(out: &mut O, c: Cursor, steps: u32, rule: Rule) -> io::Result<()> {
    let rule = told::rule_word(rule);
    write!(out, "violated: ")?;
    cursor(out, c)?;
    writeln!(out, " steps {steps} rule {rule}")
}

fn went<O: Write>(out: &mut O, kind: &str, c: Cursor, steps: u32) -> io::Result<()> {
    write!(out, "{kind}: ")?;
    cursor(out, c)?;
    writeln!(out, " steps {steps}")
}

// Prints what a start or a move gave.
fn granted<O: Write>(out: &mut O, answer: Result<Cursor, Returned>) -> io::Result<Cursor> {
    match answer {
        Ok(c) => {
            write!(out, "granted: ")?;
            cursor(out, c)?;
            writeln!(out)?;
            Ok(c)
        }
        Err(Returned { refusal, cursor }) => {
            refused(out, refusal, cursor)?;
            Ok(cursor)
        }
    }
}

pub(crate) fn start<O: Write>(out: &mut O, t: &[u32]) -> io::Result<Cursor> {
    granted(out, checker::start(t))
}

pub(crate) fn slice<O: Write>(
    out: &mut O,
    t: &[u32],
    c: Cursor,
    budget: u32,
) -> io::Result<Cursor> {
    match checker::slice(t, c, budget) {
        SliceAnswer::Violated(c, steps, rule) => {
            violated(out, c, steps, rule)?;
            Ok(c)
        }
        SliceAnswer::NothingViolated(c, steps) => {
            went(out, "nothing violated", c, steps)?;
            Ok(c)
        }
        SliceAnswer::Paused(c, steps) => {
            went(out, "paused", c, steps)?;
            Ok(c)
        }
        SliceAnswer::Refused(refusal, c) => {
            refused(out, refusal, c)?;
            Ok(c)
        }
    }
}

pub(crate) fn move_leg<O: Write>(
    out: &mut O,
    t: &mut [u32],
    c: Cursor,
    mv: Move,
) -> io::Result<Cursor> {
    let after = granted(out, checker::move_leg(t, c, mv))?;
    write!(out, "table: ")?;
    show::rest_words(out, t, 0)?;
    Ok(after)
}

fn shape<O: Write>(out: &mut O, t: &[u32]) -> io::Result<()> {
    match shape::judged_shape(t) {
        Ok(()) => writeln!(out, "well-formed"),
        Err(refusal) => show::refused(out, refusal),
    }
}

// How many places so many legs have.
fn places<O: Write>(out: &mut O, legs: usize) -> io::Result<()> {
    if table::MAX_LEGS < legs {
        return Ok(());
    }
    let places = places::place_count(legs);
    writeln!(out, "places {places}")
}

pub(crate) fn asked<O: Write>(out: &mut O, call: &Call<'_>, t: &[u32]) -> io::Result<bool> {
    match call.verb {
        b"shape" => shape(out, t)?,
        b"places" => places(out, call.numbers.size(0))?,
        _ => return Ok(false),
    }
    Ok(true)
}
