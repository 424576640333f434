// Admits streams to a plan, one after the other, and writes the enlarged plan under a new name: slots PLAN NEW, with what is wanted on standard input (lines.rt).
// No old leg moves, and PLAN is only read. It writes one answer, and a last line with the exit status, which ./conepalhui takes off; where a file cannot be read or
// written it writes no such line, and says so on standard error. NEW is written once, at the end.
#![tactic(auto)]

use crate::lines::Requests;
use durable::FileRead;
use input::PLAN_ROOM;
use reasons::report;
use show::answers;
use std::env::Env;
use std::io;
use std::io::Write;
use std::rt::{Clock, Files};

mod judge;
mod lines;
mod list;
mod out;
mod route;
mod search;
mod times;
mod why;

const PLAN_AT: usize = 1;

const NEW_AT: usize = 2;

// How long an argument may be.
const ROOM: usize = 4096;

// One byte more than what is wanted may have.
const TEXT_ROOM: usize = lines::MAX_BYTES + 1;

// Kept: rt, out and err are lent apart, each to what reads, prints or explains; a struct of them would put its three type parameters on all of those.
fn on_plan<R: Clock + Files, O: Write, E: Write>(
    rt: &R,
    out: &mut O,
    err: &mut E,
    requests: Requests,
    new_path: &[u8],
    plan: &[u8],
) -> io::Result<()> {
    // Kept: files::read_plan reads into lent words, and what it read goes on as a slice; nothing is allocated.
    let mut words = [0u32; table::MAX_TABLE_WORDS];
    match files::read_plan(plan, &mut words) {
        Err(refusal) => {
            reasons::file::why(err, plan, refusal);
            answers::plan_refused(out, refusal)
        }
        Ok(n) => {
            let t = words.get(..n).unwrap_or(&[]);
            if judge::stands(out, err, requests, t)? {
                list::admitted(rt, out, err, requests, new_path, t)?;
            }
            Ok(())
        }
    }
}

// Kept: requests and new_path part in list::admitted: take_all gets the one, write_new the other.
fn on_paths<R: Clock + Files, O: Write, E: Write>(
    rt: &R,
    out: &mut O,
    err: &mut E,
    requests: Requests,
    plan_path: &[u8],
    new_path: &[u8],
) -> io::Result<()> {
    // Kept: durable::file reads into lent bytes and gives back what it read as a slice, and a byte past the largest file is seen.
    let mut bytes = [0u8; PLAN_ROOM];
    match durable::file(rt, err, plan_path, &mut bytes) {
        FileRead::Bytes(plan) => {
            on_plan(rt, out, err, requests, new_path, plan)?;
        }
        FileRead::Missing => durable::missing(err, plan_path),
        FileRead::Failed => {}
    }
    Ok(())
}

fn on_text<R: Clock + Env + Files, O: Write, E: Write>(
    rt: &R,
    out: &mut O,
    err: &mut E,
    text: &[u8],
) -> io::Result<()> {
    let requests = match Requests::read(text) {
        Ok(requests) => requests,
        Err(e) => {
            report(err, e);
            return Ok(());
        }
    };
    // Kept: the system puts an argument into lent bytes, and input gives back what came as a slice.
    let mut room = [0u8; ROOM];
    let Some(plan) = input::argument(rt, err, PLAN_AT, &mut room, b"the path of the plan") else {
        return Ok(());
    };
    // Kept: as the room of the plan's path.
    let mut room_of_new = [0u8; ROOM];
    let what = b"the path of the new file";
    let Some(new) = input::argument(rt, err, NEW_AT, &mut room_of_new, what) else {
        return Ok(());
    };
    on_paths(rt, out, err, requests, plan, new)
}

fn run<R: Clock + Env + Files + Input, O: Write, E: Write>(
    rt: &R,
    out: &mut O,
    err: &mut E,
) -> io::Result<()> {
    // Kept: input::standard reads into lent bytes and gives back what it read as a slice, and a byte past the most is seen.
    let mut room = [0u8; TEXT_ROOM];
    match input::standard(rt, &mut room) {
        Ok(text) if text.len() == TEXT_ROOM => {
            let most = lines::MAX_BYTES;
            report(
                err,
                format_args!("what is wanted has more than {most} bytes"),
            );
            Ok(())
        }
        Ok(text) => on_text(rt, out, err, text),
        Err(e) => {
            reasons::fail(err, b"what is wanted", &e);
            Ok(())
        }
    }
}

fn main(rt: HostRuntime) {
    let mut out = output::to(rt.stdout());
    let _ = run(&rt, &mut out, &mut output::errors(rt.stderr()));
}
