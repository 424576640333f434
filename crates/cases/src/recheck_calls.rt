// The calls on a table of which one leg was moved, each with its answer printed. A line that asks whether two tables are the same but for a leg has after a
// colon the words of the other one.
use crate::text::Numbers;
use crate::{Call, Given, text, tool_calls};
use basics::Cause;
use recheck::{Place, Rechecked};
use show::told;
use std::io;
use std::io::Write;

// How many words the other table may have.
const MAX_OTHER: usize = 96;

fn recheck<O: Write>(out: &mut O, t: &[u32], leg: u32) -> io::Result<()> {
    match recheck::recheck(t, leg) {
        Ok(Rechecked::Violated(Place { leg, place }, rule, n)) => {
            let rule = told::rule_word(rule);
            writeln!(
                out,
                "violated: place {leg} {place} rule {rule} looked at {n}"
            )
        }
        Ok(Rechecked::NothingViolated(n)) => writeln!(out, "nothing violated: looked at {n}"),
        Err(refusal) => show::refused(out, refusal),
    }
}

// A leg that is not there is refused as a recheck refuses it.
fn compared<O: Write>(out: &mut O, call: &Call<'_>, given: &Given) -> io::Result<()> {
    let Some((front, words)) = text::split_once(call.rest, b':') else {
        return Ok(());
    };
    let numbers = Numbers::of(given.alloc, front)?;
    let other = text::words(given.alloc, words)?;
    if MAX_OTHER < other.len() {
        return Ok(());
    }
    let t = given.table.as_slice();
    let leg = numbers.at(0);
    match table::judged_size(t) {
        Ok(()) if t[table::LEGS_AT] <= leg => show::refused(out, Cause::NoLeg.at(0)),
        Ok(()) => tool_calls::holds(out, recheck::same::same_but_leg(t, &other, leg)),
        Err(refusal) => show::refused(out, refusal),
    }
}

pub(crate) fn asked<O: Write>(out: &mut O, call: &Call<'_>, given: &Given) -> io::Result<bool> {
    match call.verb {
        b"recheck" => recheck(out, &given.table, call.numbers.at(0))?,
        b"same-but" => compared(out, call, given)?,
        _ => return Ok(false),
    }
    Ok(true)
}
