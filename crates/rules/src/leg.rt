// A leg of a plan, read once, and the rules judged of it.
ghost use Rattle.std.specs.Prelude.{◌≡◌, ◌<◌, IsTrue, ◌↔◌};
ghost use Rattle.table.specs.Layout.{leg_count};
ghost use Rattle.rules.specs.Rules.{Window, Hop, Deadline, Overlap};
ghost use Rattle.rules.specs.Places.{places_of, AskedOf, AskedHolds, JudgedTold};
ghost use Rattle.rules.specs.Steps.{LegIn, FrameOf, ReadyOf, SharerOf};

use crate::{Asked, Frame, Rule, Sharer, judge, place, times};
use shape::plan::Plan;

/// Internal: a leg of a plan with what its stream and its link say of it.
// Kept: nobody compares or prints it, and Plan, which it lends, has no equality.
#[derive(Clone, Copy)]
pub struct TimedLeg<'p, 'a> {
    pub plan: &'p Plan<'a>,
    pub at: usize,
    pub frame: Frame,
    pub ghost inside: { LegIn plan.now at },
    pub ghost frame_of: { FrameOf plan.now at frame },
}

impl<'p, 'a> TimedLeg<'p, 'a> {
    /// Internal: leg a of a plan.
    pub fn of(plan: &'p Plan<'a>, a: usize) -> TimedLeg<'p, 'a>
        requires { a < leg_count plan.now }
        ensures plan { result.plan.now ≡ plan.now }
        ensures at { result.at ≡ a }
    {
        let frame = times::frame(plan.words(), a);
        TimedLeg { plan, at: a, frame }
    }

    /// Internal: when its frame is at the next node by every clock.
    pub fn ready(&self) -> u64
        ensures { ReadyOf self.now.plan.now self.now.at result }
    {
        judge::ready(self.plan.words(), self.at, self.frame)
    }

    /// Internal: whether it keeps its window.
    pub fn keeps_window(&self) -> bool
        ensures { IsTrue result ↔ Window self.now.plan.now self.now.at }
    {
        judge::window_told(self.plan.words(), self.at, self.frame)
    }

    /// Internal: whether it begins no sooner than the leg before it is ready, if it is not a first leg.
    pub fn keeps_hop(&self) -> bool
        ensures { IsTrue result ↔ Hop self.now.plan.now self.now.at }
    {
        judge::hop_told(self.plan.words(), self.at, self.frame)
    }

    /// Internal: whether it is ready in time, if it is the last of its stream.
    pub fn keeps_deadline(&self) -> bool
        ensures { IsTrue result ↔ Deadline self.now.plan.now self.now.at }
    {
        judge::deadline_told(self.plan.words(), self.at, self.frame)
    }

    /// Internal: whether it never meets leg b, if the two share a link.
    pub fn keeps_clear_of(&self, b: usize) -> bool
        requires { b < leg_count self.now.plan.now }
        ensures { IsTrue result ↔ Overlap self.now.plan.now self.now.at b }
    {
        judge::overlap_told(self.plan.words(), self.at, self.frame, b)
    }

    /// Internal: what the other legs on its link need to know of it.
    pub fn sharer(&self) -> Sharer
        ensures { SharerOf self.now.plan.now self.now.at result }
    {
        Sharer {
            slot: self.frame.slot(),
        }
    }

    /// Whether what is asked of it holds.
    fn keeps(&self, asked: Asked) -> bool
        requires { AskedOf self.now.at asked }
        ensures { IsTrue result ↔ AskedHolds self.now.plan.now self.now.at asked }
    {
        match asked {
            Asked::Window => self.keeps_window(),
            Asked::Hop => self.keeps_hop(),
            Asked::Deadline => self.keeps_deadline(),
            Asked::Overlap(b) => self.keeps_clear_of(b),
        }
    }

    /// Internal: the rule that is broken at its place p, or None where it is kept.
    pub fn broken_at(&self, p: usize) -> Option<Rule>
        requires { p < places_of self.now.at }
        ensures { JudgedTold self.now.plan.now self.now.at p result }
    {
        let asked = place::asked_at(p);
        if self.keeps(asked) {
            return None;
        }
        Some(Rule::from(asked))
    }
}
