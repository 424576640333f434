//! What is violated on a link: pairs of legs that meet, and legs that leave their window. Each is judged by the calls that judge a check.
use crate::axis::LEFT;
use crate::page::Page;
use crate::plan::{Named, meet};
use crate::svg;
use reasons::small;
use std::io;
use std::io::Write;

/// So many violated places are listed.
pub(crate) const MOST_LISTED: usize = 20;

/// How tall the line of one is.
pub(crate) const LINE: u64 = 1800;

/// The radius of a mark.
const RING: u64 = 400;

/// A violated place: a leg that leaves its window, or one that meets a lower leg.
#[derive(Clone, Copy, Debug, PartialEq, Eq)]
pub(crate) enum Violated {
    Window(usize),
    Pair(usize, usize),
}

/// The violated places of a link in the order of a check: how many there are, the first of them, and whether each leg is in one.
#[derive(Drop)]
pub(crate) struct Found {
    pub(crate) count: u64,
    pub(crate) first: [Option<Violated>; MOST_LISTED],
    pub(crate) is_bad: [bool; table::MAX_LEGS],
}

impl Found {
    /// Judges windows and overlaps of the legs on a link.
    pub(crate) fn on_link(plan: &Named, link: u32) -> Found {
        let mut found = Found {
            count: 0,
            first: [None; MOST_LISTED],
            is_bad: [false; table::MAX_LEGS],
        };
        for a in (0..plan.legs()).filter(|a| plan.is_on(*a, link)) {
            found.judge_leg(plan, a);
        }
        found
    }

    fn judge_leg(&mut self, plan: &Named, a: usize) {
        let Some(leg) = plan.timed(a) else {
            return;
        };
        if !leg.keeps_window() {
            self.mark(a);
            self.add(Violated::Window(a));
        }
        for b in 0..a {
            if meet(&leg, b) {
                self.mark(a);
                self.mark(b);
                self.add(Violated::Pair(a, b));
            }
        }
    }

    fn mark(&mut self, a: usize) {
        if let Some(is_bad) = self.is_bad.get_mut(a) {
            *is_bad = true;
        }
    }

    fn add(&mut self, place: Violated) {
        if let Some(free) = self.first.get_mut(self.count as usize) {
            *free = Some(place);
        }
        self.count = self.count.saturating_add(1);
    }
}

/// Where the middle of the row of leg a is.
fn middle_of(page: &Page, a: usize) -> u64 {
    let above = (0..a).filter(|b| page.plan.is_on(*b, page.link)).count();
    page.row(above as u64).saturating_add(page.tall / 2)
}

/// Marks an instant in the rows of two legs.
fn mark<O: Write>(out: &mut O, page: &Page, a: usize, b: usize, instant: u64) -> io::Result<()> {
    let x = page.axis.place(instant);
    let upper = middle_of(page, b);
    let lower = middle_of(page, a);
    svg::line(out, "meet", x, upper, x, lower)?;
    svg::ring(out, "meets", x, upper, RING)?;
    svg::ring(out, "meets", x, lower, RING)
}

/// The line of a leg that leaves its window.
fn window_line<O: Write>(out: &mut O, page: &Page, a: usize, y: u64) -> io::Result<()> {
    let Some(leg) = page.plan.timed(a) else {
        return Ok(());
    };
    let f = leg.frame;
    let lacks = f.offset.saturating_add(f.hold).saturating_sub(f.period);
    let line = format_args!("leg {a} is not over before its period ends: it lacks {lacks} ns");
    svg::text(out, "fault", LEFT, y, line)
}

/// The line of a pair that meets, and where it first does.
fn pair_line<O: Write>(out: &mut O, page: &Page, a: usize, b: usize, y: u64) -> io::Result<()> {
    let Ok(Some(met)) = meeting::meeting(page.plan.words(), small(a), small(b)) else {
        return svg::text(out, "fault", LEFT, y, format_args!("leg {a} meets leg {b}"));
    };
    let instant = met.instant;
    let line = format_args!("leg {a} meets leg {b} first at {instant} ns");
    if (page.axis.from..page.axis.to).contains(&instant) {
        svg::text(out, "fault", LEFT, y, line)?;
        return mark(out, page, a, b, instant);
    }
    let further = format_args!("{line}, which is not drawn here");
    svg::text(out, "fault", LEFT, y, further)
}

/// Lists the first violated places of a link, from a height on.
pub(crate) fn list<O: Write>(out: &mut O, page: &Page, from: u64, found: &Found) -> io::Result<()> {
    let mut y = from;
    for place in found.first.iter().flatten() {
        match *place {
            Violated::Window(a) => window_line(out, page, a, y)?,
            Violated::Pair(a, b) => pair_line(out, page, a, b, y)?,
        }
        y = y.saturating_add(LINE);
    }
    Ok(())
}
