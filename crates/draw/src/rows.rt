//! The rows of a link's picture: the holds of each leg within the stretch.
use crate::axis::{LEFT, Steps, WIDTH};
use crate::page::Page;
use crate::{names, svg};
use rules::Frame;
use std::io;
use std::io::Write;

/// The columns that the name of a stream has.
const STREAM_ROOM: u64 = 20;

const MOST_REPEATS: u64 = 30000;

const MOST_STRIPES: u64 = 1024;

/// A hold is seen, however short it is.
const THINNEST: u64 = 200;

/// A gap is drawn where it is as wide as this.
const SEEN: u64 = 100;

/// A part of a row, from its upper edge on.
#[derive(Clone, Copy, Debug, PartialEq, Eq)]
struct Bars {
    y: u64,
    height: u64,
}

/// The first start of a leg whose hold is not over before an instant.
fn first_start(f: Frame, instant: u64) -> u64 {
    match instant.checked_sub(f.offset.saturating_add(f.hold)) {
        Some(past) if f.period != 0 => {
            let whole = past.saturating_sub(past % f.period);
            f.offset.saturating_add(whole).saturating_add(f.period)
        }
        _ => f.offset,
    }
}

impl Bars {
    /// Draws a stretch of time: from one end to the other, and at least as wide as a hold has to be.
    fn bar<O: Write>(
        self,
        out: &mut O,
        page: &Page,
        class: &str,
        from: u64,
        to: u64,
    ) -> io::Result<()> {
        let x = page.axis.place(from.max(page.axis.from));
        let end = page.axis.place(to.min(page.axis.to));
        let width = end.saturating_sub(x).max(THINNEST);
        svg::rect(out, class, x, self.y, width, self.height)
    }

    fn hold<O: Write>(self, out: &mut O, page: &Page, f: Frame, start: u64) -> io::Result<()> {
        let sent = start.saturating_add(f.wire);
        let end = start.saturating_add(f.hold);
        self.bar(out, page, "wire", start, end)?;
        if is_gap_seen(page, f) && sent < page.axis.to && page.axis.from < end {
            self.bar(out, page, "gap", sent, end)?;
        }
        Ok(())
    }

    /// The holds of a leg within the stretch.
    fn holds<O: Write>(self, out: &mut O, page: &Page, f: Frame) -> io::Result<()> {
        let starts = Steps {
            next: first_start(f, page.axis.from),
            step: f.period,
            end: page.axis.to,
            most: MOST_REPEATS,
        };
        for start in starts {
            self.hold(out, page, f, start)?;
        }
        Ok(())
    }
}

/// Whether the gap after a frame is wide enough to be seen.
fn is_gap_seen(page: &Page, f: Frame) -> bool {
    let from = page.axis.from;
    let end = page.axis.place(from.saturating_add(f.hold));
    let sent = page.axis.place(from.saturating_add(f.wire));
    SEEN <= end.saturating_sub(sent)
}

fn label<O: Write>(out: &mut O, page: &Page, a: usize, y: u64) -> io::Result<()> {
    svg::text(out, "leg-name", 2000, y, format_args!("leg {a}"))?;
    svg::begin_text(out, "stream-name", 9200, y)?;
    let plan = page.plan;
    names::stream(out, plan.names, plan.leg(a).stream, STREAM_ROOM)?;
    svg::end_text(out)
}

fn row<O: Write>(out: &mut O, page: &Page, a: usize, y: u64, is_bad: bool) -> io::Result<()> {
    let Some(leg) = page.plan.timed(a) else {
        return Ok(());
    };
    let f = leg.frame;
    let middle = y.saturating_add(page.tall / 2);
    label(out, page, a, middle.saturating_add(430))?;
    let class = if is_bad { "leg bad" } else { "leg" };
    writeln!(out, "<g class=\"{class}\">")?;
    let offset = f.offset;
    let end = f.offset.saturating_add(f.hold);
    let period = f.period;
    // What is shown where the pointer rests on a row.
    writeln!(
        out,
        "<title>leg {a}: from {offset} to {end} ns of each period of {period} ns</title>"
    )?;
    let inset = page.tall / 7;
    let bars = Bars {
        y: y.saturating_add(inset),
        height: page.tall.saturating_sub(inset.saturating_add(inset)),
    };
    bars.holds(out, page, f)?;
    writeln!(out, "</g>")
}

/// The rows of all legs on the link. Those that are in a violated place are marked.
pub(crate) fn all<O: Write>(out: &mut O, page: &Page, is_bad: &[bool]) -> io::Result<()> {
    let on_link = (0..page.plan.legs()).filter(|a| page.plan.is_on(*a, page.link));
    for (i, a) in on_link.enumerate() {
        let bad = is_bad.get(a).copied().unwrap_or(false);
        row(out, page, a, page.row(i as u64), bad)?;
    }
    Ok(())
}

/// Every other row has a ground of its own, so that it can be followed.
pub(crate) fn stripes<O: Write>(out: &mut O, page: &Page) -> io::Result<()> {
    let every_other = Steps {
        next: page.top,
        step: page.tall.saturating_add(page.tall),
        end: page.bottom(),
        most: MOST_STRIPES,
    };
    for y in every_other {
        svg::rect(out, "stripe", 1200, y, LEFT + WIDTH - 1200, page.tall)?;
    }
    Ok(())
}
