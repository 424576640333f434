// The slots of a link. They are kept in the order of their offsets, for speed alone: nothing rests on it.
ghost use Rattle.std.specs.Prelude.{◌≡◌, ◌<◌, length};
ghost use Rattle.gates.specs.Steps.{Added, Kept, widened};

use overlap::Slot;

/// A slot as it is kept, in nanoseconds.
// Kept: beside overlap's Slot, since the library's memory is fixed and words of 32 bits take half of it, while the instants that are computed need 64.
#[derive(Clone, Copy, Debug, PartialEq, Eq)]
pub struct StoredSlot {
    pub offset: u32,
    pub period: u32,
    pub hold: u32,
}

/// Internal: what stands in a list before it is filled: any words, since none is read before (docs/DECISIONS.md, 51).
pub const ANY_SLOT: StoredSlot = StoredSlot {
    offset: 1,
    period: 1,
    hold: 1,
};

/// The slot to compute with.
impl From<StoredSlot> for Slot {
    ghost from_gives = { λ q r. r ≡ widened q };

    fn from(q: StoredSlot) -> Slot {
        Slot {
            offset: q.offset as u64,
            period: q.period as u64,
            hold: q.hold as u64,
        }
    }
}

/// Internal: adds a slot that keeps its window to the first n, after those that do not begin later.
// Kept: the library allocates nothing, so the slots lie in the first n places of a lent array; rotate_right may become memmove, which the archive goes without.
// Kept: `widened` (specs/Steps.antt) builds a Slot as a record, so `Kept s` can be no ghost field of it; with it no cast fails, so no TryFrom.
pub fn add(slots: &mut [StoredSlot], n: usize, s: Slot)
    requires n_in_bounds { n < length slots.old }
    requires kept { Kept s }
    ensures { Added slots.old n s slots.new }
{
    let at = slots[..n].partition_point(|q| q.offset as u64 <= s.offset);
    slots[n] = StoredSlot {
        offset: s.offset as u32,
        period: s.period as u32,
        hold: s.hold as u32,
    };
    for i in at..n {
        slots.swap(i, n);
    }
}
