// What an operator and a planner do with a plan on standard input: words, shape; and with files: start PLAN CURSOR [--anew], slice PLAN CURSOR BUDGET,
// move PLAN CURSOR LEG OFFSET [PERIODS], recheck PLAN CURSOR LEG [OFFSET [PERIODS]], convert OLD NEW. It writes one answer; where a file cannot be read or written or is not ours, or an argument is wrong,
// it writes none and says so on standard error.
#![tactic(auto)]

use calls::{Call, Order};
use decimal::DecimalError;
use kept::Check;
use std::env::Env;
use std::io;
use std::io::Write;
use std::rt::Files;
use table::Move;

mod calls;
mod convert;
mod late;
mod plans;

// What is asked for: of the plan on standard input, of a plan and its check, or a conversion.
#[derive(Clone, Copy, Debug, PartialEq, Eq)]
enum Asked {
    Words,
    Shape,
    OfCheck(Order),
    Convert,
}

const VERB_AT: usize = 1;

const PLAN_AT: usize = 2;

const CURSOR_AT: usize = 3;

const FIRST_NUMBER_AT: usize = 4;

const ANEW_AT: usize = 4;

const OFFSET_AT: usize = 5;

const PERIODS_AT: usize = 6;

// An argument that has to be a number. Where it is none, that is said.
// Kept: no length stands beside the array: an argument is read into it and comes back as a slice.
fn number_at<R: Env, E: Write>(rt: &R, err: &mut E, i: usize, what: &str) -> Option<u32> {
    let mut room = [0u8; 4096];
    let text = input::argument(rt, err, i, &mut room, what.as_bytes())?;
    let why = match decimal::read_decimal(text) {
        Ok(value) => return Some(value),
        Err(DecimalError::Empty) => "it is empty",
        Err(DecimalError::NoDigit(_)) => "it has a byte that is no digit",
        Err(DecimalError::TooLarge) => "it is larger",
    };
    reasons::report(
        err,
        format_args!("{what} is not a number from 0 to 4294967295: {why}"),
    );
    None
}

// A start says whether a check that has begun may be dropped.
// Kept: no length stands beside the array: an argument is read into it and comes back as a slice.
fn start_order<R: Env, E: Write>(rt: &R, err: &mut E) -> Option<Order> {
    if !input::has_argument(rt, ANEW_AT) {
        return Some(Order::Start { anew: false });
    }
    let mut room = [0u8; 4096];
    match input::argument_or_nothing(rt, ANEW_AT, &mut room) {
        b"--anew" => Some(Order::Start { anew: true }),
        _ => {
            reasons::text(
                err,
                b"after the files a start takes --anew and nothing else\n",
            );
            None
        }
    }
}

// The move that is asked for. Its period word is 0 where it is not given.
fn move_given<R: Env, E: Write>(rt: &R, err: &mut E) -> Option<Move> {
    let leg = number_at(rt, err, FIRST_NUMBER_AT, "the leg")?;
    let offset = number_at(rt, err, OFFSET_AT, "the offset")?;
    let periods = if input::has_argument(rt, PERIODS_AT) {
        number_at(rt, err, PERIODS_AT, "the period word")?
    } else {
        0
    };
    Some(Move {
        leg,
        offset,
        periods,
    })
}

// A recheck moves the leg first, where an offset is given.
fn recheck_order<R: Env, E: Write>(rt: &R, err: &mut E) -> Option<Order> {
    if input::has_argument(rt, OFFSET_AT) {
        return Some(Order::MoveAndRecheck(move_given(rt, err)?));
    }
    Some(Order::Recheck(number_at(rt, err, FIRST_NUMBER_AT, "the leg")?))
}

// What is asked for, by the first argument.
// Kept: no length stands beside the array: an argument is read into it and comes back as a slice.
fn order_of<R: Env, E: Write>(rt: &R, err: &mut E) -> Option<Asked> {
    let mut room = [0u8; 4096];
    let order = match input::argument_or_nothing(rt, VERB_AT, &mut room) {
        b"words" => return Some(Asked::Words),
        b"shape" => return Some(Asked::Shape),
        b"convert" => return Some(Asked::Convert),
        b"start" => start_order(rt, err)?,
        b"slice" => Order::Slice {
            budget: number_at(rt, err, FIRST_NUMBER_AT, "the budget")?,
        },
        b"move" => Order::Move(move_given(rt, err)?),
        b"recheck" => recheck_order(rt, err)?,
        _ => {
            reasons::text(
                err,
                b"the first argument is words, shape, start, slice, move, recheck or convert\n",
            );
            return None;
        }
    };
    Some(Asked::OfCheck(order))
}

// A conversion, of which no check is asked, has the new file in the place of the cursor.
fn on_paths<'a, R: Files, O: Write, E: Write>(
    rt: &'a R,
    out: &'a mut O,
    err: &'a mut E,
    order: Option<Order>,
    plan: &'a [u8],
    cursor: &'a [u8],
) -> io::Result<()> {
    let Some(order) = order else {
        return convert::first(rt, out, err, plan, cursor);
    };
    let check = Check {
        rt,
        out,
        err,
        cursor,
    };
    let mut call = Call { check, plan };
    call.answered(order)
}

// Reads the two paths and does what is asked.
// Kept: no length stands beside the array: an argument is read into it and comes back as a slice.
fn on_files<R: Env + Files, O: Write, E: Write>(
    rt: &R,
    out: &mut O,
    err: &mut E,
    order: Option<Order>,
) -> io::Result<()> {
    let mut plan = [0u8; 4096];
    let Some(plan) = input::argument(rt, err, PLAN_AT, &mut plan, b"the path of the plan") else {
        return Ok(());
    };
    let mut cursor = [0u8; 4096];
    let Some(cursor) = input::argument(
        rt,
        err,
        CURSOR_AT,
        &mut cursor,
        b"the path of the cursor or of the new file",
    ) else {
        return Ok(());
    };
    on_paths(rt, out, err, order, plan, cursor)
}

fn run<R: Env + Files + Input, O: Write, E: Write>(
    rt: &R,
    out: &mut O,
    err: &mut E,
) -> io::Result<()> {
    match order_of(rt, err) {
        Some(Asked::Words) => plans::words(rt, out, err),
        Some(Asked::Shape) => plans::shape(rt, out, err),
        Some(Asked::OfCheck(order)) => on_files(rt, out, err, Some(order)),
        Some(Asked::Convert) => on_files(rt, out, err, None),
        None => Ok(()),
    }
}

fn main(rt: HostRuntime) {
    let mut out = output::to(rt.stdout());
    let _ = run(&rt, &mut out, &mut output::errors(rt.stderr()));
}
