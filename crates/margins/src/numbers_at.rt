// The numbers of each rule, of a leg whose frame was read.
ghost use Rattle.std.specs.Prelude.{◌<◌};
ghost use Rattle.rules.specs.Places.{AskedOf, places_of};
ghost use Rattle.rules.specs.declared.Asked.TheVariants as asked;
ghost use Rattle.margins.specs.Steps.{AskedTold, MarginTold};

use crate::{Leg, Margin, Sides, Turns};
use rules::Asked;

impl<'p> Leg<'p> {
    fn window_margin(&self) -> Margin
        ensures { AskedTold self.now.table self.now.at asked.Window result }
    {
        let f = self.frame;
        Margin::Sides(Sides {
            needs: f.offset + f.hold,
            has: f.period,
        })
    }

    fn hop_margin(&self) -> Margin
        ensures { AskedTold self.now.table self.now.at asked.Hop result }
    {
        let f = self.frame;
        if self.at <= f.first {
            return Margin::Free;
        }
        let b = self.at - 1;
        Margin::Sides(Sides {
            needs: rules::judge::ready(self.table, b, rules::times::frame(self.table, b)),
            has: f.start,
        })
    }

    fn deadline_margin(&self) -> Margin
        ensures { AskedTold self.now.table self.now.at asked.Deadline result }
    {
        let f = self.frame;
        if self.at + 1 < f.end {
            return Margin::Free;
        }
        let first = rules::times::frame(self.table, f.first);
        Margin::Sides(Sides {
            needs: rules::judge::ready(self.table, self.at, f),
            has: f.deadline + first.start,
        })
    }

    fn overlap_margin(&self, b: usize) -> Margin
        requires { b < self.now.at }
        ensures { AskedTold self.now.table self.now.at (asked.Overlap b) result }
    {
        let f = self.frame;
        let other = rules::times::frame(self.table, b);
        if f.link != other.link {
            return Margin::Free;
        }
        let divisor = overlap::gcd(f.period, other.period);
        Margin::Turns(Turns {
            divisor,
            after: overlap::remainder(f.offset, other.offset, divisor),
            hold: f.hold,
            other: other.hold,
        })
    }

    // The numbers at what is asked of it.
    fn asked_margin(&self, asked: Asked) -> Margin
        requires { AskedOf self.now.at asked }
        ensures { AskedTold self.now.table self.now.at asked result }
    {
        match asked {
            Asked::Window => self.window_margin(),
            Asked::Hop => self.hop_margin(),
            Asked::Deadline => self.deadline_margin(),
            Asked::Overlap(b) => self.overlap_margin(b),
        }
    }

    // The numbers at its place p.
    pub(crate) fn margin(&self, p: usize) -> Margin
        requires { p < places_of self.now.at }
        ensures { MarginTold self.now.table self.now.at p result }
    {
        self.asked_margin(rules::place::asked_at(p))
    }
}
