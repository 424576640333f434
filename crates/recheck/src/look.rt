// The places at which leg m can be read, leg by leg from m on.
ghost use Rattle.std.specs.Prelude.{◌≡◌, true, ◌+◌, ◌<◌, ◌≤◌, Result};
ghost use Rattle.table.specs.Layout.{leg_count};
ghost use Rattle.shape.specs.Legs.{end_of};
ghost use Rattle.rules.specs.Places.{own_places, places_of};
ghost use Rattle.recheck.specs.Listed.{can_read};
ghost use Rattle.recheck.specs.Rechecks.{CanRecheck, VerdictOf};
ghost use Rattle.recheck.specs.Steps.{LookedTo, StepTold, Later};

use crate::{Place, Rechecked};
use rules::Rule;
use rules::leg::TimedLeg;
use shape::plan::Plan;

/// A broken place of a leg, its rule, and how many places were looked at, itself included.
#[derive(Clone, Copy, Debug, PartialEq, Eq)]
pub struct BrokenAfter {
    pub leg: usize,
    pub place: usize,
    pub rule: Rule,
    pub looked: usize,
}

const HOP_AT: usize = 1;

const DEADLINE_AT: usize = 2;

/// Looks at place p of a leg at which leg m can be read, after n places. Returns how many places were looked at then; the first broken place ends all looks.
// Kept: Some is the error here and None goes on, for which Option has no method: map_or would nest the Err in a closure.
fn look(m: usize, leg: &TimedLeg, p: usize, n: usize) -> Result<usize, BrokenAfter>
    requires p_bound { p < places_of leg.now.at }
    requires p_value { can_read leg.now.plan.now m leg.now.at p ≡ true }
    requires looked_to { LookedTo leg.now.plan.now m leg.now.at p n }
    ensures { StepTold leg.now.plan.now m leg.now.at (p + 1) result }
{
    match leg.broken_at(p) {
        Some(rule) => Err(BrokenAfter {
            leg: leg.at,
            place: p,
            rule,
            looked: n + 1,
        }),
        None => Ok(n + 1),
    }
}

/// Looks at the places of leg m itself.
fn own(m: &TimedLeg) -> Result<usize, BrokenAfter>
    ensures { StepTold m.now.plan.now m.now.at m.now.at (places_of m.now.at) result }
{
    let end = places::places_of(m.at);
    let mut n = 0;
    for p in 0..end {
        n = look(m.at, m, p, n)?;
    }
    Ok(n)
}

/// Looks at the hop of a later leg, if that is the next leg of the stream of m.
// Kept: it goes on to place 2 and `deadline` to own_places, each by a test of its own; one function would take test, place and bound of the clause.
fn hop(m: &TimedLeg, leg: &TimedLeg, n: usize) -> Result<usize, BrokenAfter>
    requires later { Later m.now leg.now }
    requires looked_to { LookedTo leg.now.plan.now m.now.at leg.now.at 0 n }
    ensures { StepTold leg.now.plan.now m.now.at leg.now.at 2 result }
{
    if leg.at == m.at + 1 && leg.at < m.frame.end {
        return look(m.at, leg, HOP_AT, n);
    }
    Ok(n)
}

/// Looks at its deadline, if it is the last leg of that stream.
fn deadline(m: &TimedLeg, leg: &TimedLeg, n: usize) -> Result<usize, BrokenAfter>
    requires later { Later m.now leg.now }
    requires looked_to { LookedTo leg.now.plan.now m.now.at leg.now.at 2 n }
    ensures { StepTold leg.now.plan.now m.now.at leg.now.at own_places result }
{
    if leg.at + 1 == m.frame.end {
        return look(m.at, leg, DEADLINE_AT, n);
    }
    Ok(n)
}

/// Looks at its places with leg m.
fn pairs(m: &TimedLeg, leg: &TimedLeg, n: usize) -> Result<usize, BrokenAfter>
    requires later { Later m.now leg.now }
    requires looked_to { LookedTo leg.now.plan.now m.now.at leg.now.at own_places n }
    ensures { StepTold leg.now.plan.now m.now.at leg.now.at (places_of leg.now.at) result }
{
    look(m.at, leg, rules::place::pair_place(m.at), n)
}

/// Looks at all places of a leg a of a later stream at which leg m can be read. The links are compared first, before more of leg a is read.
// Kept: n goes on from leg to leg and LookedTo binds it to m and a; a type for a and n would be built anew at each a, here and in later and after_moved.
fn beyond(m: &TimedLeg, a: usize, n: usize) -> Result<usize, BrokenAfter>
    requires end_value { end_of m.now.plan.now m.now.at ≤ a }
    requires above { (m.now.at < a) × (a < leg_count m.now.plan.now) }
    requires looked_to { LookedTo m.now.plan.now m.now.at a 0 n }
    ensures { StepTold m.now.plan.now m.now.at a (places_of a) result }
{
    if m.plan.leg(a).link != m.frame.link {
        return Ok(n + 1);
    }
    pairs(m, &TimedLeg::of(m.plan, a), n)
}

/// Looks at all places of a later leg a of the same stream at which leg m can be read.
// Kept: a and n as in `beyond`: a type for both would be built anew at each a.
fn later(m: &TimedLeg, a: usize, n: usize) -> Result<usize, BrokenAfter>
    requires above { (m.now.at < a) × (a < leg_count m.now.plan.now) }
    requires looked_to { LookedTo m.now.plan.now m.now.at a 0 n }
    ensures { StepTold m.now.plan.now m.now.at a (places_of a) result }
{
    let leg = TimedLeg::of(m.plan, a);
    let n = hop(m, &leg, n)?;
    let n = deadline(m, &leg, n)?;
    pairs(m, &leg, n)
}

/// Looks at all places of a later leg a at which leg m can be read.
// Kept: a and n as in `beyond`: a type for both would be built anew at each a.
fn after_moved(m: &TimedLeg, a: usize, n: usize) -> Result<usize, BrokenAfter>
    requires above { (m.now.at < a) × (a < leg_count m.now.plan.now) }
    requires looked_to { LookedTo m.now.plan.now m.now.at a 0 n }
    ensures { StepTold m.now.plan.now m.now.at a (places_of a) result }
{
    if m.frame.end <= a {
        return beyond(m, a, n);
    }
    later(m, a, n)
}

/// Looks at all places at which leg m can be read, leg by leg from m on.
fn all_legs(m: &TimedLeg) -> Result<usize, BrokenAfter>
    ensures { StepTold m.now.plan.now m.now.at (leg_count m.now.plan.now) 0 result }
{
    let legs = m.plan.legs();
    let mut n = own(m)?;
    for a in m.at + 1..legs {
        n = after_moved(m, a, n)?;
    }
    Ok(n)
}

/// Internal: a recheck of a leg that can be rechecked.
// Kept: `VerdictOf` says that the table is well-formed, which is more than a Plan or a TimedLeg guarantees.
pub fn looked(plan: &Plan, leg: u32) -> Rechecked
    requires { CanRecheck plan.now leg }
    ensures { VerdictOf plan.now leg result }
{
    let m = TimedLeg::of(&*plan, leg as usize);
    match all_legs(&m) {
        Ok(n) => Rechecked::NothingViolated(n as u32),
        Err(broken) => Rechecked::Violated(
            Place {
                leg: broken.leg as u32,
                place: broken.place as u32,
            },
            broken.rule,
            broken.looked as u32,
        ),
    }
}
