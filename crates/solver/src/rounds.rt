//! The rounds: each looks at every constraint once, and where one is broken the time of its end is lowered until it holds.
ghost use Rattle.std.specs.Prelude.{◌+◌, ◌≤◌, ◌<◌};
ghost use Rattle.network.specs.Constraints.{numbers_of, constraint_count};
ghost use Rattle.solver.specs.Steps.{max_ticks, Last, Stands, Ended};

use network::Network;

/// Internal: how far the events are lowered: the time of each; the tick at which it was last lowered, 0 for never; and the constraint that lowered it.
// Kept: three arrays, since C gets the times as an array of their own, and Stands (specs/Steps.antt) takes the three as lists, with 0 for no tick.
// Kept: nobody compares or prints the three.
#[derive(Clone, Copy)]
pub struct Lowered {
    pub times: [i64; network::MAX_EVENTS],
    pub ticks: [usize; network::MAX_EVENTS],
    pub by: [u32; network::MAX_EVENTS],
}

// Looks at constraint k, and returns the last event that was lowered, if any.
// Kept: Stands changes with each constraint that is looked at, so no type holds it.
fn lower(
    network: &Network,
    base: usize,
    k: usize,
    lowered: &mut Lowered,
    last: Option<usize>,
) -> Option<usize>
    requires k_bound { base + k ≤ max_ticks }
    requires k_bound_2 { k < constraint_count network.now.constraints.now }
    requires stands { Stands network.now.events network.now.constraints.now base k lowered.old.times lowered.old.ticks lowered.old.by }
    requires last { Last last network.now.events base (numbers_of lowered.old.ticks) }
    ensures stands_2 { Stands network.now.events network.now.constraints.now base (k + 1) lowered.new.times lowered.new.ticks lowered.new.by }
    ensures last_2 { Last result network.now.events base (numbers_of lowered.new.ticks) }
{
    let c = network.constraint(k);
    let s = signed::sum(lowered.times[c.from], c.most);
    let y = lowered.times[c.to];
    if s < y {
        lowered.times[c.to] = s;
        lowered.ticks[c.to] = base + k + 1;
        lowered.by[c.to] = k as u32;
        return Some(c.to);
    }
    last
}

// Looks at every constraint once, and returns the last event that was lowered, if any.
// Kept: Stands changes with each constraint that is looked at, so no type holds it.
fn round(network: &Network, base: usize, lowered: &mut Lowered) -> Option<usize>
    requires constraints_bound { base + constraint_count network.now.constraints.now ≤ max_ticks }
    requires stands { Stands network.now.events network.now.constraints.now base 0 lowered.old.times lowered.old.ticks lowered.old.by }
    ensures stands_2 { Stands network.now.events network.now.constraints.now base (constraint_count network.now.constraints.now) lowered.new.times lowered.new.ticks lowered.new.by }
    ensures last { Last result network.now.events base (numbers_of lowered.new.ticks) }
{
    let mut last = None;
    for k in 0..network.size() {
        last = lower(network, base, k, lowered, last);
    }
    last
}

/// Internal: as many rounds as there are events, or until one lowers nothing. Returns an event that was lowered in the last round, or `None` where the times are the
/// latest.
// Kept: Stands changes with each constraint that is looked at, so no type holds it.
pub fn rounds(network: &Network, lowered: &mut Lowered) -> Option<usize>
    requires { Stands network.now.events network.now.constraints.now 0 0 lowered.old.times lowered.old.ticks lowered.old.by }
    ensures { Ended result network.now.events network.now.constraints.now lowered.new.times lowered.new.ticks lowered.new.by }
{
    let mut last = None;
    for r in 0..network.events {
        last = Some(round(network, r * network.size(), lowered)?);
    }
    last
}
