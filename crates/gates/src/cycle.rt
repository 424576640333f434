// The cycle of a link: the least common multiple of its periods.
ghost use Rattle.std.specs.Prelude.{◌≤◌};
ghost use Rattle.numbers.specs.Number.{max_word};
ghost use Rattle.gates.specs.Pairs.{max_cycle};
ghost use Rattle.gates.specs.Steps.{AllSlots, AnySlot, CycleTold, IsLcm};

use crate::slots::StoredSlot;

// The least common multiple of two numbers.
fn lcm(a: u64, b: u64) -> u64
    requires { (1 ≤ a) × (a ≤ max_cycle) × (1 ≤ b) × (b ≤ max_word) }
    ensures { IsLcm a b result }
{
    a / overlap::gcd(a, b) * b
}

/// Internal: the cycle of a link's slots; None if it passes the limit. It stops at the first slot with which it does.
// Kept: docs/ARCHITECTURE.md names this crate, so a public call of it takes what it took: a plain slice.
pub fn cycle_of(slots: &[StoredSlot]) -> Option<u64>
    requires { AllSlots slots.now }
    ensures { CycleTold (AnySlot slots.now) result }
{
    let mut cycle: u64 = 1;
    for s in slots {
        cycle = lcm(cycle, s.period as u64);
        if crate::MAX_CYCLE < cycle {
            return None;
        }
    }
    Some(cycle)
}
