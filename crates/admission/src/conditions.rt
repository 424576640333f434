// What each leg of the enlarged table asks of the first offset, as a condition.
ghost use Rattle.std.specs.Prelude.{◌≡◌, ◌+◌, ◌≤◌, ◌<◌, length};
ghost use Rattle.table.specs.Layout.{leg_count};
ghost use Rattle.table.specs.Records.{link_at};
ghost use Rattle.rules.specs.Steps.{Timed};
ghost use Rattle.rules.specs.Times.{hold_time};
ghost use Rattle.offsets.specs.Conditions.{Holding, Says};
ghost use Rattle.enlarge.specs.Steps.{Sendable};
ghost use Rattle.admission.specs.Steps.{AfterIs, Asks, MetAt};

use crate::Candidate;
use offsets::{Condition, StoredCondition};
use shape::plan::Plan;

// Where a link is met on the route, if it is.
fn met_at(route: &[u32], link: u32) -> Option<usize>
    ensures { MetAt route.now link result }
{
    route.iter().position(|on| *on == link)
}

impl<'p> Candidate<'p> {
    // How long a frame of the new stream holds a link.
    fn hold_on(&self, link: u32) -> u64
        requires { Sendable self.now.table self.now.wanted 0 link }
        ensures { Timed (hold_time self.now.wanted.octets (link_at self.now.table link).rate) result }
    {
        let link = Plan::of(self.asked.table).link(link as usize);
        rules::times::hold_time(self.asked.wanted.octets, link.rate)
    }

    // How long after the first leg leg j of the new stream starts; for the route's length, when its last frame has arrived.
    pub(crate) fn after_of(&self, j: usize) -> u64
        requires { j ≤ length self.now.route }
        ensures { AfterIs self.now.table self.now.wanted self.now.route j result }
    {
        let mut start: u64 = 0;
        for link in &self.asked.route[..j] {
            start = self.asked.sent_on(start, *link);
        }
        start
    }

    // What leg j of the new stream asks: that it ends within its period.
    fn new_condition(&self, j: usize) -> Condition
        requires { j < length self.now.route }
        ensures { Says (Asks self.now.table self.now.wanted self.now.route (leg_count self.now.table + j)) result }
    {
        let period = self.asked.wanted.period as u64;
        let after = self.after_of(j);
        let hold = self.hold_on(self.asked.route[j]);
        offsets::window_condition(after, period, hold)
    }

    // What leg a of the table asks: that the new leg on its link, if there is one, never meets it.
    fn old_condition(&self, a: usize) -> Condition
        requires { a < leg_count self.now.table }
        ensures { Says (Asks self.now.table self.now.wanted self.now.route a) result }
    {
        let leg = rules::times::frame(self.asked.table, a);
        let Some(j) = met_at(self.asked.route, leg.link) else {
            return offsets::free_condition();
        };
        let period = self.asked.wanted.period as u64;
        let after = self.after_of(j);
        let hold = self.hold_on(leg.link);
        let other = leg.slot();
        let g = overlap::gcd(other.period, period);
        offsets::pair_condition(after, period, hold, other, g)
    }

    // Keeps what the legs of the table ask, one after the other.
    // Kept: no slice is gone over; the number of each leg is what is asked about.
    fn keep_old(&self, conditions: &mut [StoredCondition])
        requires { leg_count self.now.table ≤ length conditions.old }
        ensures { Holding conditions.new (leg_count self.now.table) (Asks self.now.table self.now.wanted self.now.route) × (length conditions.new ≡ length conditions.old) }
    {
        for a in 0..self.asked.table[table::LEGS_AT] as usize {
            offsets::keep(conditions, a, self.old_condition(a));
        }
    }

    // Keeps what the new legs ask, after those.
    // Kept: no slice is gone over; the number of each new leg is what is asked about.
    fn keep_new(&self, conditions: &mut [StoredCondition])
        requires room { leg_count self.now.table + length self.now.route ≤ length conditions.old }
        requires holding { Holding conditions.old (leg_count self.now.table) (Asks self.now.table self.now.wanted self.now.route) }
        ensures { Holding conditions.new (leg_count self.now.table + length self.now.route) (Asks self.now.table self.now.wanted self.now.route) }
    {
        let legs = self.asked.table[table::LEGS_AT] as usize;
        for j in 0..self.asked.route.len() {
            offsets::keep(conditions, legs + j, self.new_condition(j));
        }
    }

    // Keeps what all legs of the enlarged table ask, a condition each.
    pub(crate) fn keep_all(&self, conditions: &mut [StoredCondition])
        requires { leg_count self.now.table + length self.now.route ≤ length conditions.old }
        ensures { Holding conditions.new (leg_count self.now.table + length self.now.route) (Asks self.now.table self.now.wanted self.now.route) }
    {
        self.keep_old(conditions);
        self.keep_new(conditions);
    }
}
