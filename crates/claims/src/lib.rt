//! The small tests of temporal networks: of times and of a chain, whoever made them.
#![tactic(auto)]

ghost use Rattle.std.specs.Prelude.{◌<◌, ◌↔◌, IsTrue, length};
ghost use Rattle.basics.specs.Lowest.{Finds};
ghost use Rattle.network.specs.Constraints.{network_of, constraint_count};
ghost use Rattle.claims.specs.Claims.{KeepsOne, TestsTimes, IsChain, TestsChain};
ghost use Rattle.claims.specs.Steps.{Names};

use basics::Refusal;
use network::{Constraint, Network};

// Whether the times keep constraint k.
fn keeps_one(network: &Network, times: &[i64], k: usize) -> bool
    requires { k < constraint_count network.now.constraints.now }
    ensures { IsTrue result ↔ KeepsOne (network_of network.now.constraints.now) times.now k }
{
    let c = network.constraint(k);
    c.from < times.len() && c.to < times.len() && signed::within(times[c.from], times[c.to], c.most)
}

// The lowest constraint that the times do not keep, if there is one.
fn lowest_broken(network: &Network, times: &[i64]) -> Option<usize>
    ensures { Finds (KeepsOne (network_of network.now.constraints.now) times.now) 0 (constraint_count network.now.constraints.now) result }
{
    for k in 0..network.size() {
        if !keeps_one(network, times, k) {
            return Some(k);
        }
    }
    None
}

/// Tests times: returns the lowest constraint that they do not keep, or `None` where they keep every constraint, be they above zero or not, the latest or not.
/// Event v has the v-th of them, counted from 0; an event past their end has no time, and a constraint that names it is not kept. Refuses with 27 or 16.
// Kept: docs/CALLS.md names this call, which takes plain words.
pub fn test_times(
    events: usize,
    constraints: &[i64],
    times: &[i64],
) -> Result<Option<usize>, Refusal>
    ensures { TestsTimes events constraints.now times.now result }
{
    let network = Network::judge(events, constraints)?;
    Ok(lowest_broken(&network, times))
}

// The constraint that a number names, if there is one.
fn named(network: &Network, number: u32) -> Option<Constraint>
    ensures { Names result network.now.events network.now.constraints.now number }
{
    let k = number as usize;
    if k < network.size() {
        Some(network.constraint(k))
    } else {
        None
    }
}

// Whether numbers are a chain.
fn is_chain(network: &Network, numbers: &[u32]) -> bool
    ensures { IsTrue result ↔ IsChain network.now.constraints.now numbers.now }
{
    let Some(first) = numbers.first() else {
        return false;
    };
    let Some(begin) = named(network, *first) else {
        return false;
    };
    // Kept: the library allocates nothing, so the marks lie in an array of the largest size.
    let mut seen = [false; network::MAX_EVENTS];
    let mut at = begin.from;
    let mut sum: i64 = 0;
    for number in numbers {
        let Some(c) = named(network, *number) else {
            return false;
        };
        if c.from != at {
            return false;
        }
        if seen[c.from] {
            return false;
        }
        seen[c.from] = true;
        sum = signed::sum(sum, c.most);
        at = c.to;
    }
    at == begin.from && sum < 0
}

/// Tests a chain: returns whether the constraints with these numbers, at least one and in this order, are linked and closed, meet no event twice and have a
/// negative sum. Refuses with 27 or 16.
// Kept: docs/CALLS.md names this call, which takes plain words.
pub fn test_chain(events: usize, constraints: &[i64], numbers: &[u32]) -> Result<bool, Refusal>
    ensures { TestsChain events constraints.now numbers.now result }
{
    let network = Network::judge(events, constraints)?;
    Ok(is_chain(&network, numbers))
}
