// The pairs of one cycle, written once, into words that nobody reads where they are too many.
ghost use Rattle.std.specs.Prelude.{◌≡◌, ◌*◌, ◌≤◌, length};
ghost use Rattle.gates.specs.Holding.{Right};
ghost use Rattle.gates.specs.Pairs.{max_cycle, max_pairs};
ghost use Rattle.gates.specs.Steps.{AllSlots, AnySlot, Grows, PairsTold, Room};

use crate::slots::StoredSlot;

// Adds a stretch behind n pairs; returns how many there are then, or None if there is no room for one more. One with the mask of the last pair makes that pair longer.
// Kept: the words are lent by whoever asks for the list, and PairsTold says of how many of them the list is made; the library allocates nothing.
fn grow(out: &mut [u32], n: usize, mask: u32, lasting: u32) -> Option<usize>
    requires { Room out.old n lasting }
    ensures { Grows out.old n mask lasting out.new result }
{
    if 0 < n {
        let j = n - 1;
        if out[2 * j] == mask {
            out[2 * j + 1] += lasting;
            return Some(n);
        }
    }
    if n < crate::MAX_PAIRS {
        out[2 * n] = mask;
        out[2 * n + 1] = lasting;
        return Some(n + 1);
    }
    None
}

/// Internal: writes the pairs of one cycle, from instant 0 on; returns how many, or None if they are more than a list may have.
// Kept: docs/ARCHITECTURE.md names this crate, so a public call of it takes what it took: a plain slice.
pub fn write_pairs(slots: &[StoredSlot], cycle: u64, out: &mut [u32]) -> Option<usize>
    requires slots { AllSlots slots.now }
    requires cycle_le_max_cycle { cycle ≤ max_cycle }
    requires out_len { length out.old ≡ 2 * max_pairs }
    ensures { PairsTold (Right (AnySlot slots.now)) cycle out.new result }
{
    let mut x: u64 = 0;
    let mut n: usize = 0;
    // Kept: nothing is counted; the instant goes on by runs of unequal length.
    while x < cycle {
        let run = crate::runs::run_from(slots, x, cycle);
        n = grow(out, n, run.mask, (run.until - x) as u32)?;
        x = run.until;
    }
    Some(n)
}
