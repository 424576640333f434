// A plan that may not be asked for a list. That is the answer, and it is written.
use crate::{out, why};
use basics::{Cause, Refusal};
use checker::SliceAnswer;
use files::Cursor;
use reasons::records;
use show::answers;
use std::io;
use std::io::Write;

// A whole check of a plan, which is well-formed. No table has as many places as the budget.
// Kept: slots has the same; of what both programs see only the library's crates know checker, and those ask for a cursor.
fn checked(t: &[u32]) -> SliceAnswer {
    let cursor = Cursor {
        revision: records::header_word(t, table::REVISION_AT),
        leg: 0,
        place: 0,
    };
    checker::slice(t, cursor, u32::MAX)
}

// A plan that is not accepted: the answer has the first violated place too.
fn not_accepted<O: Write, E: Write>(out: &mut O, err: &mut E, t: &[u32]) -> io::Result<()> {
    if let SliceAnswer::Violated(at, _, rule) = checked(t) {
        why::not_accepted(err, at);
        out::not_accepted(out, at, rule)?;
    }
    Ok(())
}

/// Why no list of a link may be asked for.
pub(crate) fn refused<O: Write, E: Write>(
    out: &mut O,
    err: &mut E,
    t: &[u32],
    link: u32,
    refusal: Refusal,
) -> io::Result<()> {
    match refusal.cause {
        Cause::NotAccepted => return not_accepted(out, err, t),
        Cause::NoLink => why::no_link(err, t, link),
        _ => records::why(err, t, refusal),
    }
    answers::plan_refused(out, refusal)
}
