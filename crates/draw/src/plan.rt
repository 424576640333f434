//! The plan that is drawn, with the names of its nodes and streams.
use crate::names;
use plan_text::Draft;
use reasons::{records, small};
use rules::leg::TimedLeg;
use shape::plan::Plan;
use std::io;
use std::io::Write;
use table::{Leg, Link, Stream};

/// A plan, and its names.
// Kept: nobody compares or prints it, and Draft, which it lends, has no equality.
#[derive(Clone, Copy)]
pub(crate) struct Named<'p> {
    pub(crate) plan: &'p Plan<'p>,
    pub(crate) names: &'p Draft<'p>,
}

impl<'p> Named<'p> {
    pub(crate) fn words(&self) -> &'p [u32] {
        self.plan.words()
    }

    /// How many legs there are.
    pub(crate) fn legs(&self) -> usize {
        self.plan.legs()
    }

    /// Link i, and zeros where there is none.
    pub(crate) fn link(&self, i: u32) -> Link {
        records::link_at(self.plan.words(), i)
    }

    /// Stream i, and zeros where there is none.
    pub(crate) fn stream(&self, i: u32) -> Stream {
        records::stream_at(self.plan.words(), i)
    }

    /// Leg a, and zeros where there is none.
    pub(crate) fn leg(&self, a: usize) -> Leg {
        records::leg_at(self.plan.words(), small(a))
    }

    /// Leg a with what its stream and its link say of it.
    pub(crate) fn timed(&self, a: usize) -> Option<TimedLeg<'p, 'p>> {
        if self.plan.legs() <= a {
            return None;
        }
        Some(TimedLeg::of(self.plan, a))
    }

    /// Whether leg a lies on a link.
    pub(crate) fn is_on(&self, a: usize, link: u32) -> bool {
        self.leg(a).link == link
    }

    /// When leg a starts, and 0 where there is none.
    pub(crate) fn start_at(&self, a: usize) -> u64 {
        self.timed(a).map_or(0, |leg| leg.frame.start)
    }

    /// When the frame of leg a is at the next node, and 0 where there is none.
    pub(crate) fn ready_at(&self, a: usize) -> u64 {
        self.timed(a).map_or(0, |leg| leg.ready())
    }

    /// Prints the two nodes of a link, in so many columns each.
    pub(crate) fn put_ends<O: Write>(&self, out: &mut O, link: u32, room: u64) -> io::Result<()> {
        let Link { from, to, .. } = self.link(link);
        names::nodes(out, self.names, from, to, room)
    }
}

/// Whether a leg and leg b share a link and meet on it.
pub(crate) fn meet(leg: &TimedLeg, b: usize) -> bool {
    b < leg.plan.legs() && !leg.keeps_clear_of(b)
}
