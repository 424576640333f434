// The gate lists of a plan for its switches: print BASE DEVICE LINK, write BASE DEVICE LINK FILE and all BASE FOLDER, of the plan on standard input; and read, of the list file there. Where BASE is
// empty, lists are written as list files, and printed a pair to a line; where it is a base time, they are written and printed as tc takes them, for a DEVICE or for any. It writes one answer, and a last
// line with the exit status, which ./conepalhui takes off; where something cannot be read or written it writes no such line, and says so on standard error. A FILE is written beside its name, and a FOLDER
// is there and empty: it is ./conepalhui that gives each its name.
#![tactic(auto)]

use crate::form::Form;
use show::answers;
use std::env::Env;
use std::io;
use std::io::Write;
use std::rt::{Clock, Files};

mod all;
mod form;
mod judge;
mod one;
mod out;
mod read;
mod why;

const VERB_AT: usize = 1;

const BASE_AT: usize = 2;

const DEVICE_AT: usize = 3;

const LINK_AT: usize = 4;

const FILE_AT: usize = 5;

const FOLDER_AT: usize = 3;

/// What is asked for of the plan on standard input.
// Kept: nobody compares or prints it, and each derive more is a function more to prove.
// Kept: it is matched once, where each arm takes other arguments.
#[derive(Clone, Copy)]
enum OfPlan {
    Print(u32),
    Write(u32),
    All,
}

/// What is asked for.
// Kept: two kinds of orders and no Option, since reading a list is an order too; it is matched once, and no closure could take what each arm takes.
// Kept: nobody compares or prints it, and each derive more is a function more to prove.
#[derive(Clone, Copy)]
enum Order {
    OfPlan(OfPlan),
    Read,
}

// The link that is asked for, or nothing where there is no number of one, which is said.
// Kept: std hands an argument out as bytes into a lent array alone; env::args gives none of them where one is no UTF-8.
// Kept: desk, draw, export and operator each say another sentence of an argument that is no number, and draw takes an empty one as 0.
fn link_given<R: Env, E: Write>(rt: &R, err: &mut E) -> Option<u32> {
    let mut room = [0u8; 4096];
    let digits = input::argument_or_nothing(rt, LINK_AT, &mut room);
    let link = decimal::read_decimal(digits).ok();
    if link.is_none() {
        reasons::text(err, b"the link is not a number from 0 to 4294967295\n");
    }
    link
}

// What is asked for: the first letter tells a verb.
// Kept: std hands an argument out as bytes into a lent array alone; env::args gives none of them where one is no UTF-8.
fn order_given<R: Env, E: Write>(rt: &R, err: &mut E) -> Option<Order> {
    let mut room = [0u8; 4096];
    match input::argument_or_nothing(rt, VERB_AT, &mut room) {
        [b'p', ..] => Some(Order::OfPlan(OfPlan::Print(link_given(rt, err)?))),
        [b'w', ..] => Some(Order::OfPlan(OfPlan::Write(link_given(rt, err)?))),
        [b'a', ..] => Some(Order::OfPlan(OfPlan::All)),
        [b'r', ..] => Some(Order::Read),
        _ => {
            reasons::text(err, b"the first argument is print, write, all or read\n");
            None
        }
    }
}

// Kept: std hands an argument out as bytes into a lent array alone; env::args gives none of them where one is no UTF-8.
fn write_to_file<R: Env + Files, O: Write, E: Write>(
    rt: &R,
    out: &mut O,
    err: &mut E,
    t: &[u32],
    link: u32,
    form: Form<'_>,
) -> io::Result<()> {
    let mut room = [0u8; 4096];
    match input::argument(rt, err, FILE_AT, &mut room, b"the path of the list") {
        Some(path) => one::written(rt, out, err, t, link, path, form),
        None => Ok(()),
    }
}

// Kept: std hands an argument out as bytes into a lent array alone; env::args gives none of them where one is no UTF-8.
fn write_to_folder<R: Clock + Env + Files, O: Write, E: Write>(
    rt: &R,
    out: &mut O,
    err: &mut E,
    t: &[u32],
    base: &[u8],
) -> io::Result<()> {
    let form = Form { base, device: b"" };
    let mut room = [0u8; 4096];
    match input::argument(rt, err, FOLDER_AT, &mut room, b"the path of the folder") {
        Some(folder) => all::written(rt, out, err, t, folder, form),
        None => Ok(()),
    }
}

// Kept: std hands an argument out as bytes into a lent array alone; env::args gives none of them where one is no UTF-8.
fn on_table<R: Clock + Env + Files, O: Write, E: Write>(
    rt: &R,
    out: &mut O,
    err: &mut E,
    order: OfPlan,
    t: &[u32],
) -> io::Result<()> {
    let mut base = [0u8; 4096];
    let mut device = [0u8; 4096];
    let form = Form {
        base: input::argument_or_nothing(rt, BASE_AT, &mut base),
        device: input::argument_or_nothing(rt, DEVICE_AT, &mut device),
    };
    match order {
        OfPlan::Print(link) => one::printed(out, err, t, link, form),
        OfPlan::Write(link) => write_to_file(rt, out, err, t, link, form),
        OfPlan::All => write_to_folder(rt, out, err, t, form.base),
    }
}

// Kept: the table is read into lent words, as files::read_plan takes them, and comes back as a slice.
fn on_plan<R: Clock + Env + Files + Input, O: Write, E: Write>(
    rt: &R,
    out: &mut O,
    err: &mut E,
    order: OfPlan,
) -> io::Result<()> {
    let mut words = [0u32; table::MAX_TABLE_WORDS];
    match input::given_plan(rt, err, &mut words) {
        Ok(Ok(t)) => on_table(rt, out, err, order, t),
        Ok(Err(refusal)) => answers::plan_refused(out, refusal),
        Err(_) => Ok(()),
    }
}

fn run<R: Clock + Env + Files + Input, O: Write, E: Write>(
    rt: &R,
    out: &mut O,
    err: &mut E,
) -> io::Result<()> {
    match order_given(rt, err) {
        Some(Order::OfPlan(order)) => on_plan(rt, out, err, order),
        Some(Order::Read) => read::printed(rt, out, err),
        None => Ok(()),
    }
}

fn main(rt: HostRuntime) {
    let mut out = output::to(rt.stdout());
    let _ = run(&rt, &mut out, &mut output::errors(rt.stderr()));
}
