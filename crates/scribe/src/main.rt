//! Plans as text, both ways. encode NEW [--replace] reads a text on standard input and writes the plan file NEW, and NEW.names where the text has names; decode [PLAN]
//! reads a plan file on standard input and writes its text, with the names that stand beside PLAN. A last line says the exit status, and ./conepalhui takes it off.
//! Where something cannot be read or written, there is none.
#![tactic(auto)]

use encode::Target;
use std::env::Env;
use std::io;
use std::io::Write;
use std::rt::Files;

mod decode;
mod encode;

const VERB_AT: usize = 1;

const PATH_AT: usize = 2;

const OPTION_AT: usize = 3;

/// How long an argument may be.
const ROOM: usize = 4096;

/// Whether a file that is there is replaced.
// Kept: no length stands beside the array: an argument is read into it and comes back as a slice.
fn is_replacing<R: Env>(rt: &R) -> bool {
    let mut room = [0u8; ROOM];
    matches!(
        input::argument_or_nothing(rt, OPTION_AT, &mut room),
        b"--replace"
    )
}

/// Does what the first argument asks.
// Kept: no length stands beside the array: an argument is read into it and comes back as a slice.
fn run<R: Env + Files + Input, O: Write, E: Write>(
    rt: &R,
    out: &mut O,
    err: &mut E,
) -> io::Result<()> {
    let mut verb = [0u8; ROOM];
    let mut path = [0u8; ROOM];
    let path = input::argument_or_nothing(rt, PATH_AT, &mut path);
    match input::argument_or_nothing(rt, VERB_AT, &mut verb) {
        b"encode" => {
            let target = Target {
                path,
                is_replacing: is_replacing(rt),
            };
            encode::to(rt, out, err, target)
        }
        b"decode" => decode::of(rt, out, err, path),
        _ => {
            reasons::text(err, b"the first argument is encode or decode\n");
            Ok(())
        }
    }
}

fn main(rt: HostRuntime) {
    let mut out = output::to(rt.stdout());
    let _ = run(&rt, &mut out, &mut output::errors(rt.stderr()));
}
