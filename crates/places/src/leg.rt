// The first broken place of a leg.
ghost use Rattle.std.specs.Prelude.{◌<◌, ◌≤◌, Option};
ghost use Rattle.table.specs.Layout.{max_legs, leg_count};
ghost use Rattle.table.specs.Records.{leg_at};
ghost use Rattle.rules.specs.Places.{places_of};
ghost use Rattle.places.specs.Chains.{Begun, Chained, NextOn};
ghost use Rattle.places.specs.Told.{ToldOfLeg, ToldOfPairs, BrokenFrom, WholeFrom, NextPlace};

use crate::Broken;
use crate::chains::Chains;
use overlap::Known;
use rules::leg::TimedLeg;

/// A leg of a plan, with the chains of its links.
// Kept: Chains and the leg each have a plan; with a ghost that the two are one, each method would lead what is known of chains to the leg's plan.
#[derive(Drop)]
struct ChainedLeg<'c, 'a> {
    leg: TimedLeg<'c, 'a>,
    first: &'c [usize],
    next: &'c [usize],
    ghost begun: { Begun leg.plan.now first.now 0 },
    ghost chained: { Chained leg.plan.now next.now 0 },
}

impl<'c, 'a> ChainedLeg<'c, 'a> {
    /// Returns the lowest leg of its link that is not below n.
    fn chain_from(&self, n: usize) -> usize
        requires { n ≤ leg_count self.now.leg.plan.now }
        ensures { (n ≤ result) × NextOn self.now.leg.plan.now (leg_at self.now.leg.plan.now self.now.leg.at).link n result }
    {
        let mut b = self.first[self.leg.frame.link as usize];
        // Kept: nothing is counted; the loop follows the chain of a link.
        while b < n {
            b = self.next[b];
        }
        b
    }

    /// Returns the lowest leg from n on and below m with which it breaks a rule. Looks only at the legs of its link, of which `start` is the lowest from n on.
    fn lowest_broken(&self, start: usize, n: usize, m: usize) -> Option<usize>
        requires n_le_start { (n ≤ start) × NextOn self.now.leg.plan.now (leg_at self.now.leg.plan.now self.now.leg.at).link n start }
        requires m_le_a { m ≤ self.now.leg.at }
        ensures { ToldOfPairs self.now.leg.plan.now self.now.leg.at n m result }
    {
        let t = self.leg.plan.words();
        let mine = self.leg.sharer();
        let mut known = Known {
            period: mine.slot.period,
            divisor: mine.slot.period,
        };
        let mut b = start;
        // Kept: nothing is counted; the loop follows the chain of a link.
        while b < m {
            let other = TimedLeg::of(self.leg.plan, b).sharer();
            known = overlap::known_with(known, mine.slot.period, other.slot.period);
            if !rules::judge::pair_told(t, self.leg.at, mine, b, other, known.divisor) {
                return Some(b);
            }
            b = self.next[b];
        }
        None
    }

    /// The same, or m where there is none.
    fn broken_from(&self, n: usize, m: usize) -> usize
        requires { (n ≤ m) × (m ≤ self.now.leg.at) }
        ensures { BrokenFrom self.now.leg.plan.now self.now.leg.at n m result }
    {
        let start = self.chain_from(n);
        self.lowest_broken(start, n, m).unwrap_or(m)
    }

    /// Returns its next place to look at, from q on. It is q, unless q is the first place with leg n: then it is the first place with the lowest leg from n on
    /// with which a rule is broken, or with the first leg that has places past the limit.
    fn next_place(&self, n: usize, q: usize, limit: usize) -> usize
        requires n_le_max_legs { n ≤ max_legs }
        requires q_lt_limit { (q < limit) × (limit ≤ places_of self.now.leg.at) }
        ensures { NextPlace self.now.leg.plan.now self.now.leg.at q result }
    {
        if q != rules::place::pair_place(n) {
            return q;
        }
        let b = self.broken_from(n, rules::place::pair_of(limit));
        rules::place::pair_place(b)
    }
}

/// Returns the lowest leg such that the first place with it is p or comes after p.
fn whole_from(p: usize) -> usize
    ensures { WholeFrom p result }
{
    if p <= rules::place::OWN_PLACES {
        return 0;
    }
    rules::place::pair_of(p - 1) + 1
}

/// Internal: returns the first broken place of leg a from p on and below the limit. Of the legs whose places all lie between these, it looks only at those on its link.
pub fn judged_leg(chains: &Chains, a: usize, p: usize, limit: usize) -> Option<Broken>
    requires a_bound { a < leg_count chains.now.plan.now }
    requires p_le_limit { (p ≤ limit) × (limit ≤ places_of a) }
    ensures { ToldOfLeg chains.now.plan.now a p limit result }
{
    let leg = TimedLeg::of(chains.plan, a);
    let chained = ChainedLeg {
        leg,
        first: chains.first,
        next: chains.next,
    };
    let n = whole_from(p);
    let mut q = p;
    // Kept: nothing is counted; places of legs on other links are passed over at once.
    while q < limit {
        let s = chained.next_place(n, q, limit);
        if limit <= s {
            return None;
        }
        if let Some(rule) = leg.broken_at(s) {
            return Some(Broken { place: s, rule });
        }
        q = s + 1;
    }
    None
}
