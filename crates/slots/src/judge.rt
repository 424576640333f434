// Whether a plan takes streams at all. Where it does not, that is the answer, and it is written.
use crate::lines::Requests;
use crate::{out, why};
use basics::Cause;
use checker::SliceAnswer;
use checker::cursors::MAX_REVISION;
use files::Cursor;
use reasons::records;
use std::io;
use std::io::Write;

// A whole check of a plan, which is well-formed. No table has as many places as the budget.
// Kept: export has the same; of what both programs see only the library's crates know checker, and those ask for a cursor.
fn checked(t: &[u32]) -> SliceAnswer {
    let cursor = Cursor {
        revision: records::header_word(t, table::REVISION_AT),
        leg: 0,
        place: 0,
    };
    checker::slice(t, cursor, u32::MAX)
}

/// Whether the plan is accepted. Where it is not, the answer has the first violated place too.
// Kept: a bool says whether it is so, as callers ask and chain by &&; where it is not, why is said and answered here already.
pub(crate) fn is_accepted<O: Write, E: Write>(
    out: &mut O,
    err: &mut E,
    t: &[u32],
) -> io::Result<bool> {
    if let SliceAnswer::Violated(at, _, rule) = checked(t) {
        why::not_accepted(err, at);
        out::not_accepted(out, at, rule)?;
        return Ok(false);
    }
    Ok(true)
}

fn can_rise<O: Write, E: Write>(out: &mut O, err: &mut E, t: &[u32]) -> io::Result<bool> {
    if records::header_word(t, table::REVISION_AT) < MAX_REVISION {
        return Ok(true);
    }
    why::cannot_rise(err, b"");
    out::refused(out, b"", Cause::CannotRise.at(0))?;
    Ok(false)
}

fn is_well_formed<O: Write, E: Write>(out: &mut O, err: &mut E, t: &[u32]) -> io::Result<bool> {
    if let Err(returned) = checker::start(t) {
        let refusal = returned.refusal;
        records::why(err, t, refusal);
        show::refused(out, refusal)?;
        return Ok(false);
    }
    Ok(true)
}

// A stream alone, which has no label, is refused in the order of the admission, and a list as a whole where its plan is.
fn is_right<O: Write, E: Write>(
    out: &mut O,
    err: &mut E,
    requests: Requests,
    t: &[u32],
) -> io::Result<bool> {
    if !is_well_formed(out, err, t)? {
        return Ok(false);
    }
    let mut requests = requests;
    match requests.next() {
        Some(first) if !first.label.is_empty() => {
            Ok(can_rise(out, err, t)? && is_accepted(out, err, t)?)
        }
        _ => Ok(true),
    }
}

/// Whether streams may be looked at. Where they may not, that is the answer.
pub(crate) fn stands<O: Write, E: Write>(
    out: &mut O,
    err: &mut E,
    requests: Requests,
    t: &[u32],
) -> io::Result<bool> {
    let is_right = is_right(out, err, requests, t)?;
    if !is_right {
        out::nothing_written(out)?;
    }
    Ok(is_right)
}
