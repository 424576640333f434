//! The walk back from an event that was lowered in the last round, each time over the constraint that lowered it. It meets an event again, and the constraints
//! since are a chain.
ghost use Rattle.std.specs.Prelude.{◌≡◌, ◌+◌, ◌≤◌, ◌<◌, length, get_or};
ghost use Rattle.network.specs.Constraints.{max_events};
ghost use Rattle.solver.specs.Solving.{GivesChain};
ghost use Rattle.solver.specs.Steps.{Walking, no_path, Turned};

use network::Network;

/// Where in the path a chain stands.
#[derive(Clone, Copy, Debug, PartialEq, Eq)]
pub struct Turn {
    pub start: usize,
    pub len: usize,
}

// One step back from event x. An event's mark is the number of the step that left it, counted from 1, and 0 before.
// Kept: an `Option` for a mark would hold the same number beside a case more; `Walked` (specs/Walks.antt) takes marks as numbers.
// Kept: Walking takes k, x, path and marks of each step; as a ghost field of a type it would be owed at each write between two steps.
fn back(
    network: &Network,
    by: &[u32; network::MAX_EVENTS],
    k: usize,
    x: usize,
    path: &mut [u32; network::MAX_EVENTS],
    seen: &mut [usize; network::MAX_EVENTS],
) -> usize
    requires k_lt_max_events { (k < max_events) × (x < max_events) }
    requires walking { Walking network.now.events network.now.constraints.now by.now k x path.old seen.old }
    requires x_value { get_or seen.old x 0 ≡ 0 }
    ensures { Walking network.now.events network.now.constraints.now by.now (k + 1) result path.new seen.new }
{
    let e = by[x];
    path[network::MAX_EVENTS - 1 - k] = e;
    seen[x] = k + 1;
    let c = network.constraint(e as usize);
    c.from
}

// Walks back until an event is met again.
// Kept: as for `back`, Walking is said of the lists at each step.
fn walk_back(
    network: &Network,
    by: &[u32; network::MAX_EVENTS],
    v: usize,
    path: &mut [u32; network::MAX_EVENTS],
    seen: &mut [usize; network::MAX_EVENTS],
) -> Turn
    requires { Walking network.now.events network.now.constraints.now by.now 0 v path.old seen.old }
    ensures { Turned network.now.events network.now.constraints.now path.new result.start result.len }
{
    let mut x = v;
    let mut k: usize = 0;
    // Kept: k is the number of steps, and no bound of the loop; the walk ends where it meets an event again.
    while seen[x] == 0 {
        x = back(network, by, k, x, path, seen);
        k = k + 1;
    }
    Turn {
        start: network::MAX_EVENTS - k,
        len: k + 1 - seen[x],
    }
}

/// Internal: a chain, found from an event that was lowered in the last round, in the first of the lent words: how many constraints it has.
// Kept: the library allocates nothing, so the path, by steps, and the marks, by events, lie in arrays of the largest size.
pub fn chain_from(
    network: &Network,
    by: &[u32; network::MAX_EVENTS],
    v: usize,
    chain: &mut [u32],
) -> usize
    requires walking { Walking network.now.events network.now.constraints.now by.now 0 v no_path no_path }
    requires events_in_bounds { network.now.events ≤ length chain.old }
    ensures { GivesChain network.now.events network.now.constraints.now result chain.old chain.new }
{
    let mut path = [0u32; network::MAX_EVENTS];
    let mut seen = [0usize; network::MAX_EVENTS];
    let Turn { start, len } = walk_back(network, by, v, &mut path, &mut seen);
    chain[..len].copy_from_slice(&path[start..start + len]);
    len
}
