//! A planner's desk, on the plan on standard input: all, every violated place; part LEG PLACE BUDGET, those among the next places of a survey that stands there; first PLAN, given PLAN LEG
//! PLACE and cursor PLAN CURSOR, why a place holds or not; slack PLAN, where an accepted plan is thin. PLAN is the plan's path, beside which its names stand. It writes one answer, and a last line
//! with the exit status, which ./conepalhui takes off; where something cannot be read or an argument is wrong it writes no such line, and says so on standard error.
#![tactic(auto)]

use legs::NamedTable;
use plan_text::names::Names;
use plan_text::{Draft, names};
use show::answers;
use std::env::Env;
use std::io;
use std::io::Write;
use std::rt::Files;

mod args;
mod explain;
mod legs;
mod saved;
mod slack;
mod tour;
mod whole;

/// What is asked for.
// Kept: it is matched once, and no closure could take what each arm takes: all take out and err, some rt too, and others names.
#[derive(Clone, Copy, Debug, PartialEq, Eq)]
enum Verb {
    All,
    Part,
    Named(Question),
}

/// What is answered with the names of nodes and streams.
// Kept: it is matched once, and no closure could take what each arm takes: all take out and err, some rt too, and others names.
#[derive(Clone, Copy, Debug, PartialEq, Eq)]
enum Question {
    First,
    Given,
    Cursor,
    Slack,
}

/// The verb that the first argument gives. Its first letter says it.
fn verb_given<R: Env, E: Write>(rt: &R, err: &mut E) -> Option<Verb> {
    // Kept: the system puts an argument into lent bytes, and input gives back what came as a slice.
    let mut room = [0u8; args::ROOM];
    match input::argument_or_nothing(rt, args::VERB_AT, &mut room).first() {
        Some(b'a') => Some(Verb::All),
        Some(b'p') => Some(Verb::Part),
        Some(b'f') => Some(Verb::Named(Question::First)),
        Some(b'g') => Some(Verb::Named(Question::Given)),
        Some(b'c') => Some(Verb::Named(Question::Cursor)),
        Some(b's') => Some(Verb::Named(Question::Slack)),
        _ => {
            reasons::text(
                err,
                b"the first argument is all, part, first, given, cursor or slack\n",
            );
            None
        }
    }
}

/// The leg and the place that the arguments ask for.
fn place_given<R: Env, E: Write>(rt: &R, err: &mut E) -> Option<(u32, u32)> {
    let leg = args::number_at(rt, err, args::GIVEN_LEG_AT, "the leg")?;
    let place = args::number_at(rt, err, args::GIVEN_PLACE_AT, "the place")?;
    Some((leg, place))
}

fn given_place<R: Env, O: Write, E: Write>(
    rt: &R,
    out: &mut O,
    err: &mut E,
    plan: NamedTable,
) -> io::Result<()> {
    match place_given(rt, err) {
        Some((leg, place)) => explain::place(out, err, plan, leg, place),
        None => Ok(()),
    }
}

fn cursor_place<R: Env + Files, O: Write, E: Write>(
    rt: &R,
    out: &mut O,
    err: &mut E,
    plan: NamedTable,
) -> io::Result<()> {
    // Kept: the system puts an argument into lent bytes, and input gives back what came as a slice.
    let mut room = [0u8; args::ROOM];
    let what = b"the path of the cursor";
    match input::argument(rt, err, args::CURSOR_AT, &mut room, what) {
        Some(path) => saved::place(rt, out, err, plan, path),
        None => Ok(()),
    }
}

/// Answers a question. The names beside the plan are read first.
fn named<R: Env + Files, O: Write, E: Write>(
    rt: &R,
    out: &mut O,
    err: &mut E,
    t: &[u32],
    question: Question,
) -> io::Result<()> {
    // Kept: the system puts an argument into lent bytes, and input gives back what came as a slice.
    let mut room = [0u8; args::ROOM];
    let path = input::argument_or_nothing(rt, args::PLAN_AT, &mut room);
    // Kept: the path of the names and their text are read into lent bytes, and come back as slices.
    let mut names_path = [0u8; names::MAX_PATH];
    // Kept: as the path of the names.
    let mut text = [0u8; plan_text::TEXT_ROOM];
    let names = Names::beside(rt, err, path, &mut names_path, &mut text);
    let draft = names.draft(err, t);
    answer(rt, out, err, t, &draft, question)
}

fn answer<R: Env + Files, O: Write, E: Write>(
    rt: &R,
    out: &mut O,
    err: &mut E,
    t: &[u32],
    names: &Draft,
    question: Question,
) -> io::Result<()> {
    let plan = NamedTable { t, names };
    match question {
        Question::First => explain::first(out, err, plan),
        Question::Given => given_place(rt, out, err, plan),
        Question::Cursor => cursor_place(rt, out, err, plan),
        Question::Slack => slack::of(out, err, plan),
    }
}

fn run<R: Env + Files + Input, O: Write, E: Write>(
    rt: &R,
    out: &mut O,
    err: &mut E,
) -> io::Result<()> {
    // Kept: input::given_plan reads into lent words and gives back the table as a slice; nothing is allocated.
    let mut words = [0u32; table::MAX_TABLE_WORDS];
    let t = match input::given_plan(rt, err, &mut words)? {
        Ok(t) => t,
        Err(refusal) => return answers::plan_refused(out, refusal),
    };
    match verb_given(rt, err) {
        Some(Verb::All) => tour::all(out, err, t),
        Some(Verb::Part) => tour::part(rt, out, err, t),
        Some(Verb::Named(question)) => named(rt, out, err, t, question),
        None => Ok(()),
    }
}

fn main(rt: HostRuntime) {
    let mut out = output::to(rt.stdout());
    let _ = run(&rt, &mut out, &mut output::errors(rt.stderr()));
}
