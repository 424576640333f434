// The places from a cursor on, looked at in order.
ghost use Rattle.checker.specs.Cursors.{CursorRight};
ghost use Rattle.checker.specs.Slices.{Slices};

use crate::SliceAnswer;
use files::Cursor;
use places::chains::{Chains, NO_CHAIN};
use shape::plan::Plan;

/// Looks on leg by leg, with the chains of all legs: the slice stands at (a,p), and `left` is what is left of its budget.
// Kept: a type of chains and cursor would be built by `looked` alone, for this one call; Slices speaks of the table and the cursor apart.
fn look_on(chains: &Chains, cursor: Cursor, budget: u32) -> SliceAnswer
    requires { CursorRight chains.now.plan.now cursor }
    ensures { Slices chains.now.plan.now cursor budget result }
{
    let legs = chains.plan.legs() as u32;
    let mut p = cursor.place as usize;
    let mut left = budget as usize;
    for a in cursor.leg..legs {
        let end = places::places_of(a as usize);
        let step = left.min(end - p);
        let limit = p + step;
        if let Some(broken) = places::leg::judged_leg(chains, a as usize, p, limit) {
            return SliceAnswer::Violated(
                Cursor {
                    leg: a,
                    place: broken.place as u32,
                    ..cursor
                },
                (budget as usize - left + (broken.place - p) + 1) as u32,
                broken.rule,
            );
        }
        if limit < end {
            return SliceAnswer::Paused(
                Cursor {
                    leg: a,
                    place: limit as u32,
                    ..cursor
                },
                budget,
            );
        }
        left -= step;
        p = 0;
    }
    SliceAnswer::NothingViolated(
        Cursor {
            leg: legs,
            place: 0,
            ..cursor
        },
        (budget as usize - left) as u32,
    )
}

/// Internal: a slice from a right cursor.
// Kept: the library allocates nothing, so the chains lie in arrays of fixed size.
// Kept: slice, rules_told and survey's step each have a table and a cursor apart; a type of both would be built for this one call.
pub fn looked(t: &[u32], cursor: Cursor, budget: u32) -> SliceAnswer
    requires { CursorRight t.now cursor }
    ensures { Slices t.now cursor budget result }
{
    let mut first = [NO_CHAIN; table::MAX_LINKS];
    let mut next = [NO_CHAIN; table::MAX_LEGS];
    let plan = Plan::of(t);
    let chains = places::chains::chain(&plan, &mut first, &mut next);
    look_on(&chains, cursor, budget)
}
