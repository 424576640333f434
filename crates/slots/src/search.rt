// The search for a slot in pieces, so that it can say how far it is. No piece is below a million first offsets; pieces are doubled while they take less than a second.
use crate::lines::Request;
use crate::why;
use admission::Admitted;
use basics::Refusal;
use reasons::said::Said;
use shape::streams::MAX_PERIOD;
use std::io::Write;
use std::rt::Clock;

// The first offsets of a piece at least.
const LEAST_PIECE: u32 = 1000000;

// No search has more pieces: the last one ends at the period.
const MOST_PIECES: u32 = MAX_PERIOD / LEAST_PIECE + 1;

// Where a piece ends that begins at a first offset and has so many of them.
fn end_of(from: u32, size: u32, period: u32) -> u32 {
    from.saturating_add(size).min(period).max(from)
}

// How many first offsets the next piece has, after one of so many that took so many seconds.
fn next_size(size: u32, seconds: i64) -> u32 {
    if seconds <= 0 {
        return size.saturating_mul(2);
    }
    if seconds == 1 {
        return size;
    }
    LEAST_PIECE.max(size / 2)
}

/// Looks for the least first offset that fits, and notes when something was said of it. Where one is found, the enlarged table is in the lent words.
/// No search ends with none.
// Kept: tried to hand over one Asked, and the borrow checker covers none that is made in the loop of list::take_all, which changes the plan.
pub(crate) fn look<R: Clock, E: Write>(
    rt: &R,
    err: &mut E,
    plan: &[u32],
    request: &Request<'_>,
    links: &[u32],
    said: &mut Said,
    out: &mut [u32],
) -> Result<Option<Admitted>, Refusal> {
    let want = request.want;
    let mut from = 0;
    let mut until = LEAST_PIECE;
    let mut began = input::seconds(rt);
    // Kept: no index is counted: pieces are as large as the clock allows, and the range only bounds their number.
    for _ in 0..MOST_PIECES {
        let found = admission::admit_between(plan, want, links, from, until, out)?;
        if found.is_some() {
            return Ok(found);
        }
        let now = input::seconds(rt);
        if said.is_due(now) {
            why::looked_through(err, request.label, until, want.period);
            *said = Said::at(now);
        }
        let size = next_size(until.saturating_sub(from), now.saturating_sub(began));
        from = until;
        until = end_of(from, size, want.period);
        began = now;
    }
    Ok(None)
}
