//! Solves simple temporal networks: the latest times, or a closed chain of constraints with a negative sum.
#![tactic(auto)]

ghost use Rattle.std.specs.Prelude.{◌≤◌, length};
ghost use Rattle.solver.specs.Solving.{Solves};
ghost use Rattle.solver.specs.Steps.{SolvableTold};

use basics::{Cause, Refusal};
use network::Network;
use rounds::Lowered;

pub mod rounds;
pub mod walk;

/// What solving gives: `None` where there are times, the length of a chain, or a refusal.
/// The times are 0 where there is a chain, where it is refused, and for events that there are not.
// Kept: C gets the times as an array of this size; nobody compares or prints the answer as a whole.
#[derive(Clone, Copy)]
pub struct Solved {
    pub outcome: Result<Option<usize>, Refusal>,
    pub times: [i64; network::MAX_EVENTS],
}

// The latest times, or a chain.
fn times_or_chain(network: &Network, chain: &mut [u32]) -> Solved
    requires { network.now.events ≤ length chain.old }
    ensures { Solves network.now.events network.now.constraints.now chain.old result chain.new }
{
    // Kept: the library allocates nothing, so what the rounds know of the events lies in arrays of the largest size.
    let mut lowered = Lowered {
        times: [0; network::MAX_EVENTS],
        ticks: [0; network::MAX_EVENTS],
        by: [0; network::MAX_EVENTS],
    };
    match rounds::rounds(network, &mut lowered) {
        None => Solved {
            outcome: Ok(None),
            times: lowered.times,
        },
        Some(v) => Solved {
            outcome: Ok(Some(walk::chain_from(network, &lowered.by, v, chain))),
            times: [0i64; network::MAX_EVENTS],
        },
    }
}

// The network, where so many words are enough for a chain; or the refusal that is due.
fn solvable<'a>(events: usize, constraints: &'a [i64], room: usize) -> Result<Network<'a>, Refusal>
    ensures { SolvableTold events constraints.now room result }
{
    let network = Network::judge(events, constraints)?;
    if room < events {
        return Err(Cause::NoRoom.at(0));
    }
    Ok(network)
}

/// Solves a network: events 0 to events - 1, and three words for each constraint, from, to and most: the time of event `to` minus the time of event `from` is at
/// most `most`. The times are the latest that keep every constraint with none above zero. Where no times do, the first words of `chain` get the numbers of
/// constraints that show it. Refuses with 27, 16 or 15.
// Kept: docs/CALLS.md names this call, which takes plain words.
pub fn solve(events: usize, constraints: &[i64], chain: &mut [u32]) -> Solved
    ensures { Solves events constraints.now chain.old result chain.new }
{
    match solvable(events, constraints, chain.len()) {
        Ok(network) => times_or_chain(&network, chain),
        Err(refusal) => Solved {
            outcome: Err(refusal),
            times: [0i64; network::MAX_EVENTS],
        },
    }
}
