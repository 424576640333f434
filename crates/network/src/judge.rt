//! Whether events and constraints are a network in range.
ghost use Rattle.std.specs.Prelude.{◌≤◌, ◌<◌, ◌↔◌, IsTrue, nat_abs};
ghost use Rattle.basics.specs.Lowest.{Finds};
ghost use Rattle.network.specs.Constraints.{max_most, constraint_count, IsEvent, InRange};
ghost use Rattle.network.specs.Judged.{NetworkTold};

use crate::{MAX_CONSTRAINTS, MAX_EVENTS, MAX_MOST, Network};
use basics::{Cause, Refusal};

// Whether a word is the number of an event.
fn is_event(events: usize, word: i64) -> bool
    ensures { IsTrue result ↔ IsEvent events word }
{
    0 <= word && (word as usize) < events
}

// Whether a word may be the most of a constraint.
fn is_most(word: i64) -> bool
    ensures { IsTrue result ↔ nat_abs word ≤ max_most }
{
    -MAX_MOST <= word && word <= MAX_MOST
}

// Whether constraint k is in range.
// Kept: events and words go apart here, since a `Network` is in range, and that is what is asked.
fn is_in_range(events: usize, constraints: &[i64], k: usize) -> bool
    requires { k < constraint_count constraints.now }
    ensures { IsTrue result ↔ InRange events constraints.now k }
{
    let at = 3 * k;
    if constraints.len() < at + 3 {
        return false;
    }
    let (from, to, most) = (constraints[at], constraints[at + 1], constraints[at + 2]);
    is_event(events, from) && is_event(events, to) && is_most(most)
}

// The lowest constraint that is out of range, if there is one.
// Kept: events and words are not yet a `Network`; Finds and InRange speak of constraint k, and chunks would have to be led back to it.
fn lowest_bad_constraint(events: usize, constraints: &[i64]) -> Option<usize>
    ensures { Finds (InRange events constraints.now) 0 (constraint_count constraints.now) result }
{
    for k in 0..crate::constraint_count(constraints) {
        if !is_in_range(events, constraints, k) {
            return Some(k);
        }
    }
    None
}

impl<'a> Network<'a> {
    /// Internal: the network of these events and constraints, or the first of the refusals 27 and 16 that is due.
    pub fn judge(events: usize, constraints: &'a [i64]) -> Result<Network<'a>, Refusal>
        ensures { NetworkTold events constraints.now result }
    {
        if MAX_EVENTS < events {
            return Err(Cause::TooLarge.at(0));
        }
        if MAX_CONSTRAINTS < crate::constraint_count(constraints) {
            return Err(Cause::TooLarge.at(0));
        }
        if let Some(k) = lowest_bad_constraint(events, constraints) {
            return Err(Cause::OutOfRange.at(k));
        }
        Ok(Network {
            events,
            constraints,
        })
    }
}
