//! Simple temporal networks: constraints as words, and whether they are in range.
#![tactic(auto)]

ghost use Rattle.std.specs.Prelude.{◌≡◌, ◌<◌, nat_abs};
ghost use Rattle.network.specs.Constraints.{constraint_count, network_of, IsEvent, NetworkInRange};
ghost use Rattle.network.specs.Steps.{Reads};

pub mod judge;

/// How many events there may be.
pub const MAX_EVENTS: usize = 128;

/// How many constraints there may be.
pub const MAX_CONSTRAINTS: usize = 2048;

/// How far from 0 the most of a constraint may be.
pub const MAX_MOST: i64 = 1_000_000_000;

/// A constraint: the time of event `to` minus the time of event `from` is at most `most`.
#[derive(Clone, Copy, Debug, PartialEq, Eq)]
pub struct Constraint {
    pub from: usize,
    pub to: usize,
    pub most: i64,
}

/// A network in range, lent: how many events it has, and three words for each constraint.
// Kept: C hands in three words for each constraint, and nobody compares or prints a network; each further derive is one more function to prove.
#[derive(Clone, Copy)]
pub struct Network<'a> {
    pub events: usize,
    pub constraints: &'a [i64],
    pub ghost in_range: { NetworkInRange events constraints.now },
}

/// Internal: how many constraints the words are. A last one of which words are missing counts.
pub fn constraint_count(constraints: &[i64]) -> usize
    ensures { result ≡ constraint_count constraints.now }
{
    (constraints.len() + 2) / 3
}

// The event whose number a word is.
// Kept: a TryFrom would ask again what IsEvent says.
fn event_in(events: usize, word: i64) -> usize
    requires { IsEvent events word }
    ensures { result ≡ nat_abs word }
{
    word as usize
}

impl<'a> Network<'a> {
    /// Internal: how many constraints it has.
    pub fn size(&self) -> usize
        ensures { result ≡ constraint_count self.now.constraints.now }
    {
        constraint_count(self.constraints)
    }

    /// Internal: constraint k.
    pub fn constraint(&self, k: usize) -> Constraint
        requires { k < constraint_count self.now.constraints.now }
        ensures { Reads (network_of self.now.constraints.now) self.now.events k result }
    {
        let at = 3 * k;
        Constraint {
            from: event_in(self.events, self.constraints[at]),
            to: event_in(self.events, self.constraints[at + 1]),
            most: self.constraints[at + 2],
        }
    }
}
