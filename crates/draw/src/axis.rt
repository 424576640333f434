//! The axis of time: where an instant stands, and round steps along it.
ghost use Rattle.std.specs.Prelude.{◌≤◌};
ghost use Rattle.std.specs.Iterator.{at_most};

use crate::svg;
use std::io;
use std::io::Write;

/// Where the plot begins, and how wide it is.
pub(crate) const LEFT: u64 = 25000;

pub(crate) const WIDTH: u64 = 80000;

/// More than any span of time that is drawn, in ns.
const LONGEST: u64 = 100_000_000_000;

/// There are at most so many steps: labels of eleven digits have room then.
const MOST_STEPS: u64 = 10;

const MOST_LINES: u64 = 12;

const MOST_PERIODS: u64 = 10;

/// The powers of ten that a step or a stretch is made of.
pub(crate) const POWERS: [u64; 11] = [
    1,
    10,
    100,
    1000,
    10_000,
    100_000,
    1_000_000,
    10_000_000,
    100_000_000,
    1_000_000_000,
    10_000_000_000,
];

/// Numbers from one on, each the step after the one before it: those below an end, and so many at most.
// Kept: step_by takes a usize above 0, and nothing here shows that of a step or period; at a step of 0 this ends after most.
#[derive(Clone, Copy, Debug, PartialEq, Eq, Drop)]
pub(crate) struct Steps {
    pub(crate) next: u64,
    pub(crate) step: u64,
    pub(crate) end: u64,
    pub(crate) most: u64,
}

impl Iterator for Steps {
    type Item = u64;

    ghost remaining = { λ s. at_most s.most };

    fn next(&mut self) -> Option<u64> {
        if self.end <= self.next || self.most == 0 {
            return None;
        }
        let next = self.next;
        self.next = next.saturating_add(self.step);
        self.most -= 1;
        Some(next)
    }
}

/// The stretch of time that is drawn.
#[derive(Clone, Copy, Debug, PartialEq, Eq)]
pub(crate) struct Axis {
    pub(crate) from: u64,
    pub(crate) to: u64,
}

impl Axis {
    /// How long the stretch is, at least 1 ns.
    pub(crate) fn span(self) -> u64
        ensures { 1 ≤ result }
    {
        self.to.saturating_sub(self.from).max(1)
    }

    /// Where an instant stands. What lies outside the stretch stands at its end.
    pub(crate) fn place(self, instant: u64) -> u64 {
        let past = instant.min(self.to).saturating_sub(self.from).min(LONGEST);
        LEFT.saturating_add(past.saturating_mul(WIDTH) / self.span())
    }

    /// The step between two lines: the least of 1, 2 or 5 times a power of ten that makes few steps.
    fn step(self) -> u64 {
        for power in POWERS {
            for times in [1, 2, 5] {
                let step = power.saturating_mul(times);
                if self.steps(step) <= MOST_STEPS {
                    return step;
                }
            }
        }
        LONGEST
    }

    /// How many steps there are in the stretch.
    fn steps(self, step: u64) -> u64 {
        self.span().checked_div(step).unwrap_or(u64::MAX)
    }

    /// The multiples of a step in the stretch.
    fn multiples(self, step: u64) -> Steps {
        Steps {
            next: self
                .from
                .checked_next_multiple_of(step)
                .unwrap_or(self.from),
            step,
            end: self.to.saturating_add(1),
            most: MOST_LINES,
        }
    }
}

/// The lines of the steps from a height to another.
pub(crate) fn grid<O: Write>(out: &mut O, axis: Axis, top: u64, bottom: u64) -> io::Result<()> {
    for at in axis.multiples(axis.step()) {
        let x = axis.place(at);
        svg::line(out, "grid", x, top, x, bottom)?;
    }
    Ok(())
}

/// The numbers of the steps, on one line of text.
pub(crate) fn labels<O: Write>(out: &mut O, axis: Axis, y: u64) -> io::Result<()> {
    let step = axis.step();
    let (unit, _) = svg::coarsest_unit(step);
    for at in axis.multiples(step) {
        let n = at.checked_div(unit).unwrap_or(at);
        svg::text(out, "mid small tick", axis.place(at), y, n)?;
    }
    Ok(())
}

/// The line of the axis itself.
pub(crate) fn base<O: Write>(out: &mut O, y: u64) -> io::Result<()> {
    svg::line(out, "axis", LEFT, y, LEFT + WIDTH, y)
}

/// What the numbers are.
pub(crate) fn caption<O: Write>(out: &mut O, axis: Axis, y: u64, after: &str) -> io::Result<()> {
    let (_, unit) = svg::coarsest_unit(axis.step());
    let caption = format_args!("time in {unit}{after}");
    svg::text(out, "mid small quiet", LEFT + WIDTH / 2, y, caption)
}

/// Where periods of a stream begin, if those are few. Their names stand so far above that the deadline's has room below them.
pub(crate) fn periods<O: Write>(
    out: &mut O,
    axis: Axis,
    period: u64,
    top: u64,
    bottom: u64,
) -> io::Result<()> {
    if MOST_PERIODS < axis.steps(period) {
        return Ok(());
    }
    for at in axis.multiples(period) {
        let x = axis.place(at);
        svg::line(out, "period", x, top, x, bottom)?;
        let name = format_args!("{} T", at.checked_div(period).unwrap_or(0));
        svg::text(out, "mid small quiet", x, top.saturating_sub(2400), name)?;
    }
    Ok(())
}
