//! The place at which a saved cursor stands.
use crate::legs::NamedTable;
use crate::{explain, whole};
use basics::{Cause, Refusal};
use durable::FileRead;
use files::Cursor;
use reasons::{records, report};
use show::answers;
use show::answers::Part;
use std::io;
use std::io::Write;
use std::rt::Files;

/// The bytes of the longest cursor and one more, so that a byte left over is seen.
const CURSOR_ROOM: usize = files::MAX_CURSOR_BYTES + 1;

fn standing<O: Write, E: Write>(
    out: &mut O,
    err: &mut E,
    plan: NamedTable,
    at: Cursor,
) -> io::Result<()> {
    if records::header_word(plan.t, table::LEGS_AT) == at.leg {
        return writeln!(
            out,
            "the cursor is at the end: there is no place to explain\nstatus 0"
        );
    }
    explain::place(out, err, plan, at.leg, at.place)
}

/// A cursor that does not stand at a place of the plan: 8 and 9 are the cursor's, what comes before them the plan's.
fn not_standing<O: Write, E: Write>(
    out: &mut O,
    err: &mut E,
    t: &[u32],
    at: Cursor,
    refusal: Refusal,
) -> io::Result<()> {
    let revision = records::header_word(t, table::REVISION_AT);
    match refusal.cause {
        Cause::StaleCursor => report(
            err,
            format_args!(
                "the cursor is of revision {}, and the plan of revision {revision}",
                at.revision
            ),
        ),
        Cause::NoPlace => report(
            err,
            format_args!(
                "the cursor is at leg {}, place {}, which the plan does not have",
                at.leg, at.place
            ),
        ),
        _ => return whole::refused(out, err, t, refusal),
    }
    answers::judged(out, refusal, revision, Part::Cursor)
}

fn read<O: Write, E: Write>(
    out: &mut O,
    err: &mut E,
    plan: NamedTable,
    bytes: &[u8],
) -> io::Result<()> {
    let at = match files::read_cursor(bytes) {
        Ok(at) => at,
        Err(refusal) => {
            report(
                err,
                "the file that is given as the cursor is no saved cursor",
            );
            return answers::unread(out, refusal, Part::Cursor);
        }
    };
    match checker::cursors::judged_cursor(plan.t, at) {
        Ok(()) => standing(out, err, plan, at),
        Err(refusal) => not_standing(out, err, plan.t, at, refusal),
    }
}

/// Explains the place at which the cursor in a file stands.
pub(crate) fn place<R: Files, O: Write, E: Write>(
    rt: &R,
    out: &mut O,
    err: &mut E,
    plan: NamedTable,
    path: &[u8],
) -> io::Result<()> {
    // Kept: durable::file reads into lent bytes and gives back what it read as a slice, and no cursor is longer.
    let mut room = [0u8; CURSOR_ROOM];
    match durable::file(rt, err, path, &mut room) {
        FileRead::Bytes(bytes) => read(out, err, plan, bytes),
        FileRead::Missing => {
            durable::missing(err, path);
            Ok(())
        }
        FileRead::Failed => Ok(()),
    }
}
