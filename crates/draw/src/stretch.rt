//! The stretch of time that a picture of a link shows: its cycle, or as much of that as has few enough holds.
ghost use Rattle.std.specs.Prelude.{◌≤◌, IfSome};
ghost use Rattle.gates.specs.Pairs.{max_cycle};

use crate::axis::POWERS;
use crate::plan::Named;
use arrayvec::ArrayVec;

/// A picture has about so many holds at most where the stretch is not asked for.
const FEW_HOLDS: u64 = 4000;

/// And a leg has so many at most: each has two pixels then.
const FEW_REPEATS: u64 = 400;

/// So many holds are drawn where the stretch is asked for.
pub(crate) const MOST_HOLDS: u64 = 20000;

/// What is drawn of a link that has no legs.
const NOTHING_LASTS: u64 = 1000;

/// The periods of the legs on a link.
pub(crate) fn periods_on(plan: &Named, link: u32) -> ArrayVec<u64, { table::MAX_LEGS }> {
    let mut periods = ArrayVec::new();
    for a in (0..plan.legs()).filter(|a| plan.is_on(*a, link)) {
        let _ = periods.try_push(u64::from(plan.stream(plan.leg(a).stream).period));
    }
    periods
}

/// The least common multiple of a cycle and a period, unless it passes the limit.
// Kept: export's begins from a proved cycle; gates::cycle, which both see, goes by slots, of which it asks more than a period.
fn common(cycle: u64, period: u64) -> Option<u64>
    ensures { IfSome result (λ all. all ≤ max_cycle) }
{
    let parts = cycle.checked_div(overlap::gcd(cycle, period))?;
    let all = parts.checked_mul(period)?;
    if gates::MAX_CYCLE < all {
        return None;
    }
    Some(all)
}

/// The cycle of a link, the least common multiple of the periods on it, unless it passes 1 s.
pub(crate) fn cycle(periods: &[u64]) -> Option<u64> {
    let mut cycle = 1;
    for period in periods {
        cycle = common(cycle, *period)?;
    }
    Some(cycle)
}

/// About how many holds a stretch of that length has.
pub(crate) fn holds(periods: &[u64], long: u64) -> u64 {
    periods.iter().fold(0, |holds: u64, period| {
        holds.saturating_add(long.checked_div(*period).unwrap_or(0))
    })
}

/// Whether a stretch of that length can be read.
fn fits(periods: &[u64], long: u64) -> bool {
    periods.iter().all(|period| long.checked_div(*period).unwrap_or(0) <= FEW_REPEATS)
        && holds(periods, long) <= FEW_HOLDS
}

/// The longest of five, two and one times a power of ten up to 1 s that fits.
fn fitting(periods: &[u64]) -> u64 {
    for power in POWERS.iter().rev().skip(1) {
        for times in [5, 2, 1] {
            let long = power.saturating_mul(times);
            if fits(periods, long) {
                return long;
            }
        }
    }
    1
}

/// How long a stretch is where that is not asked for.
pub(crate) fn length(periods: &[u64], cycle: Option<u64>) -> u64 {
    if periods.is_empty() {
        return NOTHING_LASTS;
    }
    match cycle {
        Some(cycle) if fits(periods, cycle) => cycle,
        _ => fitting(periods),
    }
}
