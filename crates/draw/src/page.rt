//! The page of a link's picture: which rows it has, and where.
use crate::axis::Axis;
use crate::plan::Named;

/// More rows than this have the numbers of the axis above them too.
pub(crate) const MANY_ROWS: u64 = 24;

const FEW_ROWS: u64 = 12;

const MANY_MORE_ROWS: u64 = 60;

/// What is drawn: a link of a plan, the stretch, its cycle, how many legs it has, and where their rows begin and how tall each is.
// Kept: nobody compares or prints it, and Named, which it lends, has no equality.
#[derive(Clone, Copy)]
pub(crate) struct Page<'p> {
    pub(crate) plan: &'p Named<'p>,
    pub(crate) link: u32,
    pub(crate) axis: Axis,
    pub(crate) cycle: Option<u64>,
    pub(crate) legs: u64,
    pub(crate) top: u64,
    pub(crate) tall: u64,
}

impl<'p> Page<'p> {
    /// The page for a link and a stretch of time.
    pub(crate) fn new(
        plan: &'p Named<'p>,
        link: u32,
        axis: Axis,
        cycle: Option<u64>,
        legs: u64,
    ) -> Page<'p> {
        let tall = if legs <= FEW_ROWS {
            2800
        } else if legs <= MANY_MORE_ROWS {
            2000
        } else {
            1500
        };
        Page {
            plan,
            link,
            axis,
            cycle,
            legs,
            top: if legs <= MANY_ROWS { 6800 } else { 9000 },
            tall,
        }
    }

    /// Where a row begins, counted from 0.
    pub(crate) fn row(&self, i: u64) -> u64 {
        self.top.saturating_add(i.saturating_mul(self.tall))
    }

    /// Where the last row ends.
    pub(crate) fn bottom(&self) -> u64 {
        self.row(self.legs)
    }
}
