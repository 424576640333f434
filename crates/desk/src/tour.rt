//! A survey: every violated place, each on a line as a check tells its first.
ghost use Rattle.checker.specs.Cursors.{CursorRight};

use crate::whole::ENOUGH;
use crate::{args, whole};
use files::Cursor;
use reasons::records;
use show::{answers, told};
use std::env::Env;
use std::io;
use std::io::Write;
use survey::Found;

/// How a survey ended: with so many violated places, and nothing violated after them up to the end; or paused, with where it stands.
#[derive(Clone, Copy, Debug, PartialEq, Eq)]
enum Ended {
    Over(u32, Cursor),
    Stands(u32, Cursor),
}

/// Looks at the next places, as many as the budget says, and notes each violated one.
// Kept: survey::step asks it of each cursor, and no other function here does.
fn surveyed<O: Write>(out: &mut O, t: &[u32], from: Cursor, budget: u32) -> io::Result<Ended>
    requires { CursorRight t.now from }
{
    let mut c = from;
    let mut left = budget;
    let mut count: u32 = 0;
    // Kept: no index is counted (count is of violated places); each step takes from the budget as many places as it looked at.
    while 0 < left {
        let found = survey::step(t, c, left);
        match found {
            Found::Over(end) => {
                return Ok(Ended::Over(count, end));
            }
            Found::Paused(at) => {
                return Ok(Ended::Stands(count, at));
            }
            Found::Violated(at, steps, rule, next) => {
                told::violated(out, at, rule)?;
                writeln!(out)?;
                c = next;
                left = left - steps;
                count = count.wrapping_add(1);
            }
        }
    }
    Ok(Ended::Stands(count, c))
}

/// Every violated place of a plan.
pub(crate) fn all<O: Write, E: Write>(out: &mut O, err: &mut E, t: &[u32]) -> io::Result<()> {
    let started = checker::start(t);
    match started {
        Ok(cursor) => {
            let legs = records::leg_count(t);
            answers::counts(out, legs)?;
            match surveyed(out, t, cursor, ENOUGH)? {
                Ended::Over(count, _) => answers::survey_told(out, count, legs),
                // It cannot pause: the budget is more than the places.
                Ended::Stands(_, _) => Ok(()),
            }
        }
        Err(returned) => whole::refused(out, err, t, returned.refusal),
    }
}

/// A part of a survey, from where it stands on. Its last line says where it stands then, or that it is over.
fn part_from<O: Write, E: Write>(
    out: &mut O,
    err: &mut E,
    t: &[u32],
    from: Cursor,
    budget: u32,
) -> io::Result<()> {
    let told = checker::cursors::judged_cursor(t, from);
    match told {
        Ok(()) => {
            let legs = records::leg_count(t);
            match surveyed(out, t, from, budget)? {
                Ended::Over(count, at) => {
                    answers::survey_part(out, b"status 0 over", count, at, legs)
                }
                Ended::Stands(count, at) => {
                    answers::survey_part(out, b"status 3 stands", count, at, legs)
                }
            }
        }
        Err(refusal) => whole::refused(out, err, t, refusal),
    }
}

/// Where the part of a survey begins that the arguments ask for, and its budget.
fn part_given<R: Env, E: Write>(rt: &R, err: &mut E, t: &[u32]) -> Option<(Cursor, u32)> {
    let leg = args::number_at(rt, err, args::LEG_AT, "the leg")?;
    let place = args::number_at(rt, err, args::PLACE_AT, "the place")?;
    let budget = args::number_at(rt, err, args::BUDGET_AT, "the budget")?;
    let from = Cursor {
        revision: records::header_word(t, table::REVISION_AT),
        leg,
        place,
    };
    Some((from, budget))
}

/// The part of a survey that the arguments ask for.
pub(crate) fn part<R: Env, O: Write, E: Write>(
    rt: &R,
    out: &mut O,
    err: &mut E,
    t: &[u32],
) -> io::Result<()> {
    match part_given(rt, err, t) {
        Some((from, budget)) => part_from(out, err, t, from, budget),
        None => Ok(()),
    }
}
