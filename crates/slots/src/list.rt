// The streams that are wanted, one after the other: each is admitted to the table that the one before it left, or left out.
use crate::lines::{Request, Requests, Row};
use crate::route::Asked;
use crate::{judge, out, route, search, why};
use admission::Admitted;
use arrayvec::ArrayVec;
use basics::{Cause, Refusal};
use reasons::said::Said;
use std::io;
use std::io::Write;
use std::rt::{Clock, Files};

// How many streams are admitted and left out.
#[derive(Clone, Copy, Debug, PartialEq, Eq)]
struct Tally {
    admitted: u32,
    left_out: u32,
}

impl Tally {
    fn all(self) -> u32 {
        self.admitted.saturating_add(self.left_out)
    }
}

// Kept: tried to hand over one Asked, and the borrow checker covers none that is made in the loop of list::take_all, which changes the plan.
fn refused<O: Write, E: Write>(
    out: &mut O,
    err: &mut E,
    plan: &[u32],
    request: &Request<'_>,
    route: &Row,
    refusal: Refusal,
) -> io::Result<()> {
    if refusal.cause == Cause::NotAccepted {
        judge::is_accepted(out, err, plan)?;
        return Ok(());
    }
    let asked = Asked {
        plan,
        request,
        route,
    };
    asked.refused(err, refusal.cause);
    out::refused(out, request.label, refusal)
}

// Kept: rt, out and err are lent apart, as in main.
// Takes the streams in, where they fit. The plan is that with all that are admitted then. Returns nothing where a search did not end.
fn take_all<R: Clock, O: Write, E: Write>(
    rt: &R,
    out: &mut O,
    err: &mut E,
    requests: Requests,
    plan: &mut ArrayVec<u32, { table::MAX_TABLE_WORDS }>,
) -> io::Result<Option<Tally>> {
    // Kept: the admission writes the enlarged table into lent words, and says how many they are.
    let mut enlarged = [0u32; table::MAX_TABLE_WORDS];
    let mut tally = Tally {
        admitted: 0,
        left_out: 0,
    };
    let mut said = Said::at(input::seconds(rt));
    for request in requests {
        let now = input::seconds(rt);
        if said.is_due(now) {
            why::so_far(err, tally.admitted, tally.left_out);
            said = Said::at(now);
        }
        let route = route::of(plan.as_slice(), &request.way);
        match search::look(
            rt,
            err,
            plan.as_slice(),
            &request,
            route.first.as_slice(),
            &mut said,
            &mut enlarged,
        ) {
            Ok(Some(Admitted { offset, words })) => {
                let table = enlarged.get(..words).unwrap_or(&[]);
                out::admitted(out, request.label, table, offset)?;
                plan.clear();
                let _ = plan.try_extend_from_slice(table);
                tally.admitted = tally.admitted.saturating_add(1);
            }
            Err(refusal) => {
                refused(out, err, plan.as_slice(), &request, &route, refusal)?;
                tally.left_out = tally.left_out.saturating_add(1);
            }
            Ok(None) => {
                why::unended(err, request.label);
                return Ok(None);
            }
        }
    }
    Ok(Some(tally))
}

// Puts the new file under its name, which no other file has.
fn write_new<R: Files, O: Write, E: Write>(
    rt: &R,
    out: &mut O,
    err: &mut E,
    new_path: &[u8],
    t: &[u32],
    tally: Tally,
) -> io::Result<()> {
    // Kept: files::write_plan writes into lent bytes, and what it wrote goes on as a slice; nothing is allocated.
    let mut buffer = [0u8; files::MAX_FILE_BYTES];
    let Ok(n) = files::write_plan(t, &mut buffer) else {
        return Ok(());
    };
    let Some(file) = buffer.get(..n) else {
        return Ok(());
    };
    if durable::write_beside(rt, err, new_path, &[file])
        && durable::put_under_new_name(rt, err, new_path)
    {
        out::written(out, t, file.len(), tally.left_out, tally.all())?;
    }
    Ok(())
}

/// Admits what is wanted to a table, and writes the enlarged table to the new file. What is printed of the streams comes first: where
/// nobody reads that any more, the program ends there, and nothing is written.
pub(crate) fn admitted<R: Clock + Files, O: Write, E: Write>(
    rt: &R,
    out: &mut O,
    err: &mut E,
    requests: Requests,
    new_path: &[u8],
    words: &[u32],
) -> io::Result<()> {
    let mut plan = ArrayVec::new();
    let _ = plan.try_extend_from_slice(words);
    match take_all(rt, out, err, requests, &mut plan)? {
        None => Ok(()),
        Some(tally) if tally.admitted == 0 => out::nothing_written(out),
        Some(tally) => write_new(rt, out, err, new_path, plan.as_slice(), tally),
    }
}
