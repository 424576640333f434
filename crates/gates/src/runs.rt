// What a link shows from an instant on.
ghost use Rattle.std.specs.Prelude.{◌+◌, ◌≤◌, ◌<◌, length};
ghost use Rattle.gates.specs.Holding.{Held, Right};
ghost use Rattle.gates.specs.Steps.{AllSlots, AnySlot, HeldBy, Kept, Looked, RunTold, Seen, max_instant, up_to};

use crate::slots::StoredSlot;
use overlap::Slot;

// What is seen from an instant on: held at each instant up to but without the number, or at none.
#[derive(Clone, Copy, Debug, PartialEq, Eq)]
pub enum Sees {
    Held(u64),
    Idle(u64),
}

// A mask and the instant up to which it is right.
#[derive(Clone, Copy, Debug, PartialEq, Eq)]
pub struct Run {
    pub mask: u32,
    pub until: u64,
}

// How far some slots took it: up to where the link is held, and up to where none of them holds it if it is not held at all.
#[derive(Clone, Copy, Debug, PartialEq, Eq)]
pub struct Look {
    pub end: u64,
    pub until: u64,
}

// What one slot shows from instant x on.
fn slot_seen(s: Slot, x: u64) -> Sees
    requires kept { Kept s }
    requires x_le_max_instant { x ≤ max_instant }
    ensures { Seen (HeldBy s) x result }
{
    if x < s.offset {
        return Sees::Idle(s.offset);
    }
    let r = (x - s.offset) % s.period;
    if r < s.hold {
        return Sees::Held(x + (s.hold - r));
    }
    Sees::Idle(x + (s.period - r))
}

// What a link shows from instant x on, not beyond a limit. Where a hold is found, the slots after it are asked from its end on: in the order of their offsets many holds that follow each
// other are passed in one go.
fn link_seen(slots: &[StoredSlot], x: u64, limit: u64) -> Sees
    requires slots { AllSlots slots.now }
    requires x_lt_limit { x < limit }
    requires limit_le_max_instant { limit ≤ max_instant }
    ensures { Seen (Held (AnySlot slots.now)) x result × (up_to result ≤ limit) }
{
    let mut look = Look {
        end: x,
        until: limit,
    };
    for s in slots {
        match slot_seen(Slot::from(*s), look.end) {
            Sees::Held(on) => look.end = on.min(limit),
            Sees::Idle(begin) => look.until = begin.min(look.until),
        }
    }
    if x < look.end {
        return Sees::Held(look.end);
    }
    Sees::Idle(look.until)
}

/// Internal: the right mask at instant x, and up to when it is right without a change, not beyond a limit.
// Kept: docs/changes/L07.md names this call, so it takes what it took; link_seen alone would take another type.
pub fn run_from(slots: &[StoredSlot], x: u64, limit: u64) -> Run
    requires slots { AllSlots slots.now }
    requires x_lt_limit { x < limit }
    requires limit_le_max_instant { limit ≤ max_instant }
    ensures { RunTold (Right (AnySlot slots.now)) x limit result }
{
    match link_seen(slots, x, limit) {
        Sees::Held(until) => Run {
            mask: crate::HELD_MASK,
            until,
        },
        Sees::Idle(until) => Run {
            mask: crate::IDLE_MASK,
            until,
        },
    }
}
