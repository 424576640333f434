// In which order the search looks at the conditions. Nothing is promised of it: these are hints.
ghost use Rattle.std.specs.Prelude.{◌+◌, ◌≤◌, ◌<◌, length, ◌≡◌};
ghost use Rattle.offsets.specs.Conditions.{AllSound, Sound};

use crate::{Condition, StoredCondition};

const WORD_VALUES: u64 = 4294967296;

// Where a condition stands in the order: by its modulus, and then by the first offset that it forbids.
// Kept: `widened` (specs/Conditions.antt) builds a Condition as a record, also one that is not sound, so Sound can be no ghost field of it.
fn key(q: Condition) -> u64
    requires { Sound q }
{
    let m = q.modulus;
    if m < q.after {
        return m * WORD_VALUES;
    }
    if q.after == 0 {
        return m * WORD_VALUES + (m - q.shift) % m;
    }
    m * WORD_VALUES + (m - q.after + 1 + (m - q.shift)) % m
}

// The conditions that hints name, each of them sound.
// Kept: nobody compares or prints it, and each further derive is a function more to prove.
#[derive(Clone, Copy)]
struct Named<'a> {
    conditions: &'a [StoredCondition],
    ghost all_sound: { AllSound conditions.now },
}

impl<'a> Named<'a> {
    // The key of the condition that a hint names; 0 where it names none.
    fn key_of(&self, hint: u32) -> u64 {
        let Some(q) = self.conditions.get(hint as usize) else {
            return 0;
        };
        key(Condition::from(*q))
    }

    // Where among hints in their order one with this key belongs: after all that are not above it.
    fn place(&self, order: &[u32], k: u64) -> usize
        ensures { result ≤ length order.now }
    {
        order.partition_point(|hint| self.key_of(*hint) <= k)
    }

    // Puts the hint of a condition where it belongs among the first n. A condition that forbids nothing needs none, and where there is no room it has none.
    // Kept: the library allocates nothing, so the hints lie in the first n places of a lent array; rotate_right may become memmove, which the archive goes without.
    // Kept: gates::slots::add inserts too, where Added says at which place; here the length alone is promised, and neither crate uses the other.
    fn noted(&self, order: &mut [u32], n: usize, hint: u32) -> usize
        requires { hint < length self.now.conditions.now }
        ensures { (result ≤ n + 1) × (length order.new ≡ length order.old) }
    {
        if order.len() <= n {
            return n;
        }
        let q = Condition::from(self.conditions[hint as usize]);
        if q.before + q.after == 0 {
            return n;
        }
        let at = self.place(&order[..n], key(q));
        for i in (at..n).rev() {
            order[i + 1] = order[i];
        }
        order[at] = hint;
        n + 1
    }
}

/// Internal: the numbers of the conditions that forbid anything, in the order in which the search should look at them. Tells how many.
// Kept: docs/ARCHITECTURE.md names this crate, so a public call of it takes what it took: plain slices. The hints lie in one, since the library allocates nothing.
pub fn order(conditions: &[StoredCondition], order: &mut [u32]) -> usize
    requires { AllSound conditions.now }
    ensures { (result ≤ length conditions.now) × (length order.new ≡ length order.old) }
{
    let named = Named { conditions };
    let mut n: usize = 0;
    // Kept: a hint is the number of a condition in a u32, which `enumerate` would still have to be cut to.
    for i in 0..conditions.len().min(u32::MAX as usize) {
        n = named.noted(order, n, i as u32);
    }
    n
}
