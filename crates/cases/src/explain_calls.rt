// The calls that explain a place of a table, each with its answer printed.
use crate::Call;
use margins::{At, Margin, Nearest, Sides, Spare, Turns};
use repeats::Meeting;
use std::io;
use std::io::Write;

fn meeting<O: Write>(out: &mut O, t: &[u32], leg: u32, other: u32) -> io::Result<()> {
    match meeting::meeting(t, leg, other) {
        Ok(
            Some(
                Meeting {
                    first,
                    second,
                    instant,
                },
            ),
        ) => writeln!(out, "met: repeats {first} {second} instant {instant}"),
        Ok(None) => writeln!(out, "never"),
        Err(refusal) => show::refused(out, refusal),
    }
}

fn numbers<O: Write>(out: &mut O, margin: Margin) -> io::Result<()> {
    match margin {
        Margin::Free => write!(out, "free"),
        Margin::Sides(Sides { needs, has }) => write!(out, "needs {needs} has {has}"),
        Margin::Turns(
            Turns {
                divisor,
                after,
                hold,
                other,
            },
        ) => write!(
            out,
            "divisor {divisor} after {after} hold {hold} other {other}"
        ),
    }
}

fn to_spare<O: Write>(out: &mut O, spare: Spare) -> io::Result<()> {
    match spare {
        Spare::Free => writeln!(out),
        Spare::Left(n) => writeln!(out, " left {n}"),
        Spare::Lacks(n) => writeln!(out, " lacks {n}"),
    }
}

fn margin<O: Write>(out: &mut O, t: &[u32], leg: u32, place: u32) -> io::Result<()> {
    match margins::margin_at(t, leg, place) {
        Ok(At { margin, spare }) => {
            numbers(out, margin)?;
            to_spare(out, spare)
        }
        Err(refusal) => show::refused(out, refusal),
    }
}

fn offset<O: Write>(out: &mut O, word: &str, offset: Option<u32>) -> io::Result<()> {
    match offset {
        Some(x) => write!(out, "{word} {x}"),
        None => write!(out, "{word} none"),
    }
}

fn nearest<O: Write>(out: &mut O, t: &[u32], leg: u32, place: u32) -> io::Result<()> {
    match margins::nearest_at(t, leg, place) {
        Ok(Nearest { below, above }) => {
            offset(out, "below", below)?;
            offset(out, " above", above)?;
            writeln!(out)
        }
        Err(refusal) => show::refused(out, refusal),
    }
}

pub(crate) fn asked<O: Write>(out: &mut O, call: &Call<'_>, t: &[u32]) -> io::Result<bool> {
    let leg = call.numbers.at(0);
    let second = call.numbers.at(1);
    match call.verb {
        b"meeting" => meeting(out, t, leg, second)?,
        b"margin" => margin(out, t, leg, second)?,
        b"nearest" => nearest(out, t, leg, second)?,
        _ => return Ok(false),
    }
    Ok(true)
}
