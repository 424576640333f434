// Conditions on the first offset of a new stream, and lists of them.
#![tactic(auto)]

ghost use Rattle.std.specs.Prelude.{◌≡◌, ◌≤◌, ◌<◌, length};
ghost use Rattle.numbers.specs.Number.{max_word};
ghost use Rattle.overlap.specs.Divisor.{IsGcd, Repeats};
ghost use Rattle.offsets.specs.Conditions.{AllowsAll, ClearOf, EndsWithin, Keeps, Says, Sound, Starts, widened};

use overlap::Slot;

pub mod hints;
pub mod search;

/// (x + shift) mod modulus is at least before, and at least after away from the modulus.
#[derive(Clone, Copy, Debug, PartialEq, Eq)]
pub struct Condition {
    pub modulus: u64,
    pub shift: u64,
    pub before: u64,
    pub after: u64,
}

/// A condition as a list keeps it.
// Kept: beside Condition, since the library's memory is fixed and words of 32 bits take half of it, while the sums that are computed need 64.
#[derive(Clone, Copy, Debug, PartialEq, Eq)]
pub struct StoredCondition {
    pub modulus: u32,
    pub shift: u32,
    pub before: u32,
    pub after: u32,
}

/// Internal: what stands in a list before it is filled: any words, since none is read before (docs/DECISIONS.md, 51).
pub const ANY_CONDITION: StoredCondition = StoredCondition {
    modulus: 1,
    shift: 1,
    before: 1,
    after: 1,
};

/// The condition to compute with.
impl From<StoredCondition> for Condition {
    ghost from_gives = { λ q r. r ≡ widened q };

    fn from(q: StoredCondition) -> Condition {
        Condition {
            modulus: q.modulus as u64,
            shift: q.shift as u64,
            before: q.before as u64,
            after: q.after as u64,
        }
    }
}

/// Internal: the condition that a leg which starts so long after the first offset ends within its period.
// Kept: Starts, EndsWithin and ClearOf (specs/Conditions.antt) take these three numbers, and theorems of admission and margins name them so.
pub fn window_condition(after: u64, period: u64, hold: u64) -> Condition
    requires { Starts after period hold }
    ensures { Says (EndsWithin after period hold) result }
{
    Condition {
        modulus: period,
        shift: after % period,
        before: 0,
        after: hold,
    }
}

/// Internal: the condition that such a leg never meets another on its link, their periods having the greatest common divisor g.
// Kept: Starts and ClearOf take the three numbers, and `slot_from` (specs/Conditions.antt) builds a Slot as a record, so Repeats is no ghost field of it.
pub fn pair_condition(after: u64, period: u64, hold: u64, other: Slot, g: u64) -> Condition
    requires starts { Starts after period hold }
    requires repeats { Repeats other }
    requires hold_le_max_word { other.hold ≤ max_word }
    requires gcd { IsGcd other.period period g }
    ensures { Says (ClearOf after period hold other) result }
{
    Condition {
        modulus: g,
        shift: (after + (g - other.offset % g)) % g,
        before: other.hold,
        after: hold,
    }
}

/// Internal: the condition that allows every offset.
pub fn free_condition() -> Condition
    ensures { AllowsAll result }
{
    Condition {
        modulus: 1,
        shift: 0,
        before: 0,
        after: 0,
    }
}

/// Internal: keeps a condition as condition i of a list.
// Kept: `widened` builds a Condition as a record, also one that is not sound, so Sound is no ghost field of it; with Sound no cast can fail, so no TryFrom.
pub fn keep(conditions: &mut [StoredCondition], i: usize, q: Condition)
    requires i_in_bounds { i < length conditions.old }
    requires sound { Sound q }
    ensures { Keeps conditions.old i q conditions.new }
{
    conditions[i] = StoredCondition {
        modulus: q.modulus as u32,
        shift: q.shift as u32,
        before: q.before as u32,
        after: q.after as u32,
    };
}
