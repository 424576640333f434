//! The places of a leg, looked at in order.
#![tactic(auto)]

ghost use Rattle.std.specs.Prelude.{◌≡◌, ◌≤◌};
ghost use Rattle.table.specs.Layout.{max_legs};
ghost use Rattle.rules.specs.Places.{places_of};
ghost use Rattle.places.specs.Order.{places_below, pairs_of};

use rules::Rule;
use rules::place::{OWN_PLACES, PAIR_PLACES};

pub mod chains;
pub mod leg;

/// A broken place of a leg, and its rule.
#[derive(Clone, Copy, Debug, PartialEq, Eq)]
pub struct Broken {
    pub place: usize,
    pub rule: Rule,
}

/// Internal: how many places leg a has.
pub fn places_of(a: usize) -> usize
    requires { a ≤ max_legs }
    ensures { result ≡ places_of a }
{
    OWN_PLACES + PAIR_PLACES * a
}

/// Internal: how many places so many legs have.
pub fn place_count(legs: usize) -> usize
    requires { legs ≤ max_legs }
    ensures { result ≡ places_below legs }
{
    OWN_PLACES * legs + PAIR_PLACES * pairs(legs)
}

/// How many pairs so many legs make.
fn pairs(legs: usize) -> usize
    requires { legs ≤ max_legs }
    ensures { result ≡ pairs_of legs }
{
    legs * legs.saturating_sub(1) / 2
}
