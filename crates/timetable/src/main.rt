// Reads a plan file from standard input, checks it whole, and writes what document 01 says: the number of legs and places, and accepted or the first
// violated place with its rule; or a refusal's number and position, and on standard error why. A last line says the exit status, and ./conepalhui takes it off.
// Where the input cannot be read it writes nothing. It takes no argument: so it rests on the contracts of read and write alone.
#![tactic(auto)]

use checker::SliceAnswer;
use files::Returned;
use reasons::records;
use show::answers;
use std::io;
use std::io::Write;

// More than any table has places.
const ENOUGH: u32 = u32::MAX;

fn checked<O: Write, E: Write>(out: &mut O, err: &mut E, t: &[u32]) -> io::Result<()> {
    let cursor = match checker::start(t) {
        Ok(cursor) => cursor,
        Err(Returned { refusal, .. }) => {
            records::why(err, t, refusal);
            return answers::plan_refused(out, refusal);
        }
    };
    answers::counts(out, records::leg_count(t))?;
    match checker::slice(t, cursor, ENOUGH) {
        SliceAnswer::Violated(at, _, rule) => answers::first_violated(out, at, rule),
        SliceAnswer::NothingViolated(_, _) => answers::accepted(out),
        // A whole check has no other verdict: the budget is more than the places, and the cursor is the start's.
        SliceAnswer::Paused(_, _) | SliceAnswer::Refused(_, _) => Ok(()),
    }
}

// Kept: timetable reaches no allocator (docs/TRUST.md), so the table lies in an array of the largest size, and what was read is a slice of it.
fn run<R: Input, O: Write, E: Write>(rt: &R, out: &mut O, err: &mut E) -> io::Result<()> {
    let mut room = [0u32; table::MAX_TABLE_WORDS];
    match input::given_plan(rt, err, &mut room)? {
        Ok(t) => checked(out, err, t),
        Err(refusal) => answers::plan_refused(out, refusal),
    }
}

fn main(rt: HostRuntime) {
    let mut out = output::to(rt.stdout());
    let _ = run(&rt, &mut out, &mut output::errors(rt.stderr()));
}
