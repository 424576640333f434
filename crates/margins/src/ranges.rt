// With which offsets a leg keeps its window and what is asked of it holds.
ghost use Rattle.std.specs.Prelude.{◌≡◌, ◌+◌, ◌-◌, ◌≤◌, ◌<◌};
ghost use Rattle.numbers.specs.Number.{max_word};
ghost use Rattle.offsets.specs.Conditions.{Sound};
ghost use Rattle.rules.specs.Times.{max_ready};
ghost use Rattle.rules.specs.Places.{AskedOf};
ghost use Rattle.rules.specs.declared.Asked.TheVariants as asked;
ghost use Rattle.margins.specs.Moving.{Moving};
ghost use Rattle.margins.specs.Ranges.{Among, Between, InWindow, LateFrom, RangeFor, StandsAt};

use crate::{Leg, Range, turning};
use offsets::Condition;
use rules::Asked;

// The numbers between that a condition allows.
// Kept: `widened` (offsets) builds a Condition as a record, also one that is not sound, so Sound is no ghost field of it.
fn among(from: u64, end: u64, q: Condition) -> Range
    requires from_le_max_ready { (from ≤ max_ready) × (end ≤ max_word) }
    requires sound { Sound q }
    ensures { RangeFor (Among from end q) result }
{
    Range {
        from,
        end,
        turn: turning::turning(q),
    }
}

// All numbers between.
fn between(from: u64, end: u64) -> Range
    requires { (from ≤ max_ready) × (end ≤ max_word) }
    ensures { RangeFor (Between from end) result }
{
    among(from, end, offsets::free_condition())
}

// Kept: as a ghost field it was tried: the check has no proof that WellFormedTable is a proposition. `moving` hands the invariant out in the words of the Value.
impl<'p> Leg<'p> {
    // The first offset with which it does not keep its window.
    fn window_end(&self) -> u64
        ensures end { (result ≡ self.now.frame.period + 1 - self.now.frame.hold) × (result ≤ max_word) }
        ensures moving { Moving self.now.table self.now.at self.now.frame }
    {
        (self.frame.period + 1).saturating_sub(self.frame.hold)
    }

    // All offsets with which it keeps its window.
    fn whole_range(&self) -> Range
        ensures range { RangeFor (InWindow self.now.table self.now.at) result }
        ensures moving { Moving self.now.table self.now.at self.now.frame }
    {
        between(0, self.window_end())
    }

    fn window_range(&self) -> Range
        ensures { RangeFor (StandsAt self.now.table self.now.at asked.Window) result }
    {
        self.whole_range()
    }

    fn hop_range(&self) -> Range
        ensures { RangeFor (StandsAt self.now.table self.now.at asked.Hop) result }
    {
        let f = self.frame;
        if self.at <= f.first {
            return self.whole_range();
        }
        let b = self.at - 1;
        let needs = rules::judge::ready(self.table, b, rules::times::frame(self.table, b));
        let from = needs.saturating_sub(f.start - f.offset);
        between(from, self.window_end())
    }

    // The first offset with which it is late, where its deadline counts from another one.
    fn late_from(&self) -> u64
        ensures { LateFrom self.now.table self.now.at result }
    {
        let f = self.frame;
        let first = rules::times::frame(self.table, f.first);
        let needs = rules::judge::ready(self.table, self.at, f) - f.offset;
        (f.deadline + first.start + 1).saturating_sub(needs)
    }

    // The deadline of the last leg of a stream that has others: it counts from the first.
    fn due(&self) -> Range
        requires { (self.now.frame.end ≤ self.now.at + 1) × (self.now.frame.first < self.now.at) }
        ensures { RangeFor (StandsAt self.now.table self.now.at asked.Deadline) result }
    {
        between(0, self.window_end().min(self.late_from()))
    }

    // The deadline of the only leg of a stream: its offset changes nothing.
    fn due_alone(&self) -> Range
        requires { (self.now.frame.end ≤ self.now.at + 1) × (self.now.at ≤ self.now.frame.first) }
        ensures { RangeFor (StandsAt self.now.table self.now.at asked.Deadline) result }
    {
        let f = self.frame;
        if f.deadline + f.start < rules::judge::ready(self.table, self.at, f) {
            return between(0, 0);
        }
        self.whole_range()
    }

    fn deadline_range(&self) -> Range
        ensures { RangeFor (StandsAt self.now.table self.now.at asked.Deadline) result }
    {
        let f = self.frame;
        if self.at + 1 < f.end {
            return self.whole_range();
        }
        if f.first < self.at {
            return self.due();
        }
        self.due_alone()
    }

    fn overlap_range(&self, b: usize) -> Range
        requires { b < self.now.at }
        ensures { RangeFor (StandsAt self.now.table self.now.at (asked.Overlap b)) result }
    {
        let f = self.frame;
        let other = rules::times::frame(self.table, b);
        if f.link != other.link {
            return self.whole_range();
        }
        let g = overlap::gcd(other.period, f.period);
        let q = offsets::pair_condition(0, f.period, f.hold, other.slot(), g);
        among(0, self.window_end(), q)
    }

    // The offsets with which it keeps its window and what is asked of it holds.
    pub(crate) fn range(&self, asked: Asked) -> Range
        requires { AskedOf self.now.at asked }
        ensures { RangeFor (StandsAt self.now.table self.now.at asked) result }
    {
        match asked {
            Asked::Window => self.window_range(),
            Asked::Hop => self.hop_range(),
            Asked::Deadline => self.deadline_range(),
            Asked::Overlap(b) => self.overlap_range(b),
        }
    }
}
