//! One late move: the places at which a moved leg can be read, looked at in order.
#![tactic(auto)]

ghost use Rattle.std.specs.Prelude.{Result};
ghost use Rattle.recheck.specs.Rechecks.{Rechecks};

use basics::{Cause, Refusal};
use rules::Rule;
use shape::plan::Plan;

pub mod look;
pub mod same;

/// A place of a table: a leg, and a place of that leg.
#[derive(Clone, Copy, Debug, PartialEq, Eq)]
pub struct Place {
    pub leg: u32,
    pub place: u32,
}

/// The verdict of a recheck: the first violated place, its rule, and how many places were looked at, itself included; or that nothing is violated at the places that were looked at, and
/// how many they are.
// Kept: both cases are answers, and `VerdictOf` and the theorems on it name them; a violated place is no error.
#[derive(Clone, Copy, Debug, PartialEq, Eq)]
pub enum Rechecked {
    Violated(Place, Rule, u32),
    NothingViolated(u32),
}

/// Looks in order at the places of a table at which a leg, the one that was moved, can be read. Refuses 1 to 7 and 10.
pub fn recheck(t: &[u32], leg: u32) -> Result<Rechecked, Refusal>
    ensures { Rechecks t.now leg result }
{
    let plan = Plan::judge(t)?;
    if plan.legs() <= leg as usize {
        return Err(Cause::NoLeg.at(0));
    }
    Ok(look::looked(&plan, leg))
}
