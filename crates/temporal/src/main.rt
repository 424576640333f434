//! Reads a temporal network from standard input, a constraint to a line, and writes times that keep all of its constraints, or a chain of constraints that no times
//! keep; or a refusal, and on standard error why. With the path of a claim it writes whether its times keep the network, or whether it is such a chain. A last line
//! says the exit status, and ./conepalhui takes it off. Where the input cannot be read it writes nothing.
#![tactic(auto)]

use durable::FileRead;
use std::env::Env;
use std::io;
use std::io::Write;
use std::rt::Files;
use wishes::reading;
use wishes::reading::Constraint;

mod claim;
mod out;
mod sentences;
mod solution;
mod verdict;

// The argument that is the path of a claim.
const CLAIM_AT: usize = 1;

// The bytes of the longest text and one more, so that a byte left over is seen.
const ROOM: usize = wishes::MAX_BYTES + 1;

// Solves a network, or judges the claim on it.
// Kept: what is read of a network lies here once, in arrays of the largest size, so that reading copies and allocates nothing.
fn answered<O: Write, E: Write>(
    out: &mut O,
    err: &mut E,
    network: &[u8],
    claim: Option<&[u8]>,
) -> io::Result<()> {
    let mut room = [Constraint::default(); wishes::KEPT_CONSTRAINTS];
    let wishes = reading::read(network, &mut room);
    if let Some(line) = wishes.wrong {
        sentences::wrong_lines(err, network);
        return out::refused_line(out, line);
    }
    let mut room = [0i64; wishes::KEPT_WORDS];
    let words = wishes.words(&mut room, |event| event);
    match claim {
        Some(claim) => verdict::judged(out, err, &wishes, words, claim),
        None => solution::solved(out, err, &wishes, words),
    }
}

// The same for the claim in a file.
// Kept: `durable::file` reads into lent bytes, and one byte past the longest text tells a longer one.
fn on_claim<R: Files, O: Write, E: Write>(
    rt: &R,
    out: &mut O,
    err: &mut E,
    network: &[u8],
    path: &[u8],
) -> io::Result<()> {
    let mut room = [0u8; ROOM];
    match durable::file(rt, err, path, &mut room) {
        FileRead::Bytes(claim) if wishes::MAX_BYTES < claim.len() => {
            sentences::too_long(out, err, "the claim")
        }
        FileRead::Bytes(claim) => { answered(out, err, network, Some(lines::without_mark(claim))) }
        FileRead::Missing => {
            durable::missing(err, path);
            Ok(())
        }
        FileRead::Failed => Ok(()),
    }
}

// Kept: `input::standard` and `input::argument` read into lent bytes, and one byte past the longest text tells a longer one.
fn run<R: Env + Files + Input, O: Write, E: Write>(
    rt: &R,
    out: &mut O,
    err: &mut E,
) -> io::Result<()> {
    let mut room = [0u8; ROOM];
    let Ok(network) = input::standard(rt, &mut room) else {
        return Ok(());
    };
    if network.len() == ROOM {
        return sentences::too_long(out, err, "the network");
    }
    let network = lines::without_mark(network);
    if !input::has_argument(rt, CLAIM_AT) {
        return answered(out, err, network, None);
    }
    let mut path = [0u8; 4096];
    match input::argument(rt, err, CLAIM_AT, &mut path, b"the path of the claim") {
        Some(path) => on_claim(rt, out, err, network, path),
        None => Ok(()),
    }
}

fn main(rt: HostRuntime) {
    let mut out = output::to(rt.stdout());
    let _ = run(&rt, &mut out, &mut output::errors(rt.stderr()));
}
