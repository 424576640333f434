//! Pictures of the plan on standard input: link L FROM TO PLAN and stream S '' '' PLAN. FROM and TO say which stretch of time is drawn, in ns; where TO is empty, that is the link's cycle from FROM
//! on, or the beginning of it. Names are read beside PLAN, the path of the plan, which may be empty. It writes the picture as SVG, and a last line with the exit status, which ./conepalhui takes
//! off; where something cannot be read it writes no such line, and says so on standard error.
#![tactic(auto)]

use basics::Cause;
use decimal::DecimalError;
use plan::Named;
use plan_text::Draft;
use plan_text::names::Names;
use reasons::{records, report};
use shape::plan::Plan;
use show::answers;
use std::env::Env;
use std::io;
use std::io::Write;
use std::rt::Files;

mod axis;
mod letters;
mod link;
mod names;
mod page;
mod pairs;
mod plan;
mod rows;
mod stream;
mod stretch;
mod svg;

const KIND_AT: usize = 1;

const NUMBER_AT: usize = 2;

const FROM_AT: usize = 3;

const TO_AT: usize = 4;

const PATH_AT: usize = 5;

/// How long an argument may be.
const ROOM: usize = 4096;

/// What is asked for.
// Kept: it is read before the plan, so that what is wrong with an argument is said before what is wrong with the plan.
#[derive(Clone, Copy, Debug, PartialEq, Eq)]
enum Order {
    /// A link, and from when to when.
    // Kept: a TO that is not past FROM counts as none, given or not; an Option of it would be asked the same again in link::draw.
    Link { link: u32, from: u32, to: u32 },
    Stream(u32),
}

/// An argument that has to be a number: 0 where it is empty.
// Kept: desk, draw, export and operator each say another sentence of an argument that is no number, and draw takes an empty one as 0.
fn number_at<R: Env, E: Write>(rt: &R, err: &mut E, i: usize) -> Option<u32> {
    // Kept: the system puts an argument into lent bytes, and input gives back what came as a slice.
    let mut room = [0u8; ROOM];
    match decimal::read_decimal(input::argument_or_nothing(rt, i, &mut room)) {
        Ok(value) => Some(value),
        Err(DecimalError::Empty) => Some(0),
        Err(DecimalError::NoDigit(_) | DecimalError::TooLarge) => {
            report(err, "an argument is not a number from 0 to 4294967295");
            None
        }
    }
}

/// The order that the arguments give. The first letter of a kind says it.
fn order_given<R: Env, E: Write>(rt: &R, err: &mut E) -> Option<Order> {
    // Kept: the system puts an argument into lent bytes, and input gives back what came as a slice.
    let mut room = [0u8; ROOM];
    match input::argument_or_nothing(rt, KIND_AT, &mut room).first() {
        Some(b'l') => {
            let link = number_at(rt, err, NUMBER_AT)?;
            let from = number_at(rt, err, FROM_AT)?;
            let to = number_at(rt, err, TO_AT)?;
            Some(Order::Link { link, from, to })
        }
        Some(b's') => Some(Order::Stream(number_at(rt, err, NUMBER_AT)?)),
        _ => {
            reasons::text(err, b"the first argument is link or stream\n");
            None
        }
    }
}

/// Says that the plan has no such link or stream, and which it has.
// Kept: export says this of links alone, and slots with a label in front; all three see only reasons, which explains refused files and tables.
fn not_there<E: Write>(err: &mut E, record: &str, n: u32, count: u32) {
    match count.checked_sub(1) {
        None => report(
            err,
            format_args!("there is no {record} {n}: the plan has no {record}s"),
        ),
        Some(last) => report(
            err,
            format_args!("there is no {record} {n}: {record}s are 0 to {last}"),
        ),
    }
}

/// A link that the plan does not have.
fn no_link<O: Write, E: Write>(out: &mut O, err: &mut E, link: u32, links: u32) -> io::Result<()> {
    not_there(err, "link", link, links);
    answers::plan_refused(out, Cause::NoLink.at(0))
}

/// A stream that the plan does not have.
fn no_stream<O: Write, E: Write>(
    out: &mut O,
    err: &mut E,
    stream: u32,
    streams: u32,
) -> io::Result<()> {
    not_there(err, "stream", stream, streams);
    writeln!(out, "refused stream\nstatus 2")
}

fn draw<O: Write, E: Write>(
    out: &mut O,
    err: &mut E,
    order: Order,
    plan: &Plan,
    names: &Draft,
) -> io::Result<()> {
    let links = records::header_word(plan.words(), table::LINKS_AT);
    let streams = records::header_word(plan.words(), table::STREAMS_AT);
    let plan = Named { plan, names };
    match order {
        Order::Link { link, .. } if links <= link => no_link(out, err, link, links),
        Order::Link { link, from, to } => {
            link::draw(out, err, &plan, link, u64::from(from), u64::from(to))
        }
        Order::Stream(stream) if streams <= stream => no_stream(out, err, stream, streams),
        Order::Stream(stream) => stream::draw(out, &plan, stream),
    }
}

/// The names beside the plan whose path is given, if there are some.
fn read_names<'r, R: Env + Files, E: Write>(
    rt: &R,
    err: &mut E,
    path_room: &'r mut [u8],
    text: &'r mut [u8],
) -> Names<'r> {
    // Kept: the system puts an argument into lent bytes, and input gives back what came as a slice.
    let mut room = [0u8; ROOM];
    let path = input::argument_or_nothing(rt, PATH_AT, &mut room);
    if path.is_empty() {
        return Names::none();
    }
    Names::beside(rt, err, path, path_room, text)
}

/// Draws a plan with its names.
// Kept: the path of the names and their text are read into lent bytes, and come back as slices.
fn on_plan<R: Env + Files, O: Write, E: Write>(
    rt: &R,
    out: &mut O,
    err: &mut E,
    order: Order,
    plan: &Plan,
) -> io::Result<()> {
    let mut path = [0u8; plan_text::names::MAX_PATH];
    let mut text = [0u8; plan_text::TEXT_ROOM];
    let names = read_names(rt, err, &mut path, &mut text);
    let draft = names.draft(err, plan.words());
    draw(out, err, order, plan, &draft)
}

fn run<R: Env + Files + Input, O: Write, E: Write>(
    rt: &R,
    out: &mut O,
    err: &mut E,
) -> io::Result<()> {
    let Some(order) = order_given(rt, err) else {
        return Ok(());
    };
    // Kept: input::given_plan reads into lent words and gives back the table as a slice; nothing is allocated.
    let mut words = [0u32; table::MAX_TABLE_WORDS];
    let t = match input::given_plan(rt, err, &mut words)? {
        Ok(t) => t,
        Err(refusal) => return answers::plan_refused(out, refusal),
    };
    match Plan::judge(t) {
        Ok(plan) => on_plan(rt, out, err, order, &plan),
        Err(refusal) => {
            records::why(err, t, refusal);
            answers::plan_refused(out, refusal)
        }
    }
}

fn main(rt: HostRuntime) {
    let mut out = output::to(rt.stdout());
    let _ = run(&rt, &mut out, &mut output::errors(rt.stderr()));
}
