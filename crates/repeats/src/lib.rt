// Where two legs on one link first meet: the earliest instant at which both hold the link, however many periods it takes.
#![tactic(auto)]

ghost use Rattle.std.specs.Prelude.{◌≡◌, ◌≤◌};
ghost use Rattle.numbers.specs.Number.{max_word};
ghost use Rattle.repeats.specs.Meetings.{MeetsFirst};
ghost use Rattle.repeats.specs.Steps.{BeginsFirst, Brief, Enters, FirstFrom, beginning_of, exchanged, exchanged_meeting, many_repeats};

use overlap::Slot;

pub mod landing;

/// An instant at which two legs hold their link, and the last repeat of each that has begun then; instants in nanoseconds, repeats counted from 0.
#[derive(Clone, Copy, Debug, PartialEq, Eq)]
pub struct Meeting {
    pub first: u64,
    pub second: u64,
    pub instant: u64,
}

impl Meeting {
    /// The same meeting, told of the two legs in the other order.
    fn exchanged(self) -> Meeting
        ensures { result ≡ exchanged_meeting self }
    {
        Meeting {
            first: self.second,
            second: self.first,
            instant: self.instant,
        }
    }
}

/// A repeat `second` of one slot begins `into` ns into the period of repeat `first` of another.
#[derive(Clone, Copy, Debug, PartialEq, Eq)]
pub struct Entry {
    pub first: u64,
    pub second: u64,
    pub into: u64,
}

// Two slots of whose first meeting can be told. Slot keeps no such fact itself, since `slot_of` (rules) builds one as a record.
// Kept: nobody compares or prints it, and each further derive is a function more to prove.
#[derive(Clone, Copy)]
struct Pair {
    a: Slot,
    b: Slot,
    ghost brief: { Brief a },
    ghost brief_2: { Brief b },
}

impl Pair {
    // The first repeat of b that does not begin before a does.
    fn first_from(&self) -> u64
        ensures { FirstFrom self.now.b self.now.a.offset result }
    {
        if self.a.offset <= self.b.offset {
            return 0;
        }
        (self.a.offset - self.b.offset - 1) / self.b.period + 1
    }

    // Where it begins in the period of a.
    fn first_entry(&self) -> Entry
        ensures { Enters self.now.a self.now.b result }
    {
        let second = self.first_from();
        let since = self.b.offset + second * self.b.period - self.a.offset;
        Entry {
            first: since / self.a.period,
            second,
            into: since % self.a.period,
        }
    }

    // The instant at which a repeat of b begins, with a repeat of a.
    fn beginning(&self, first: u64, second: u64) -> Meeting
        requires { second ≤ many_repeats }
        ensures { result ≡ beginning_of self.now.b first second }
    {
        Meeting {
            first,
            second,
            instant: self.b.offset + second * self.b.period,
        }
    }

    // The earliest repeat of b that begins while a holds the link, if one does. From one repeat of b to the next its beginning goes on by b's period, round a circle as long as a's.
    fn first_beginning(&self) -> Option<Meeting>
        ensures { BeginsFirst self.now.a self.now.b result }
    {
        let e = self.first_entry();
        if e.into < self.a.hold {
            return Some(self.beginning(e.first, e.second));
        }
        let rest = self.a.period - e.into;
        let last = rest + (self.a.hold - 1);
        let landing = landing::first_landing(self.b.period, self.a.period, rest, last)?;
        Some(self.beginning(e.first + 1 + landing.turns, e.second + landing.steps))
    }
}

// The same answer, told of the two legs in the other order.
fn exchange(met: Option<Meeting>) -> Option<Meeting>
    ensures { result ≡ exchanged met }
{
    met.map(|m| m.exchanged())
}

/// Internal: the first meeting of two legs on one link; None if they never meet. It is the beginning of a repeat of one of them: the earlier of the first beginning of b while a holds the
/// link, and the first beginning of a while b does.
// Kept: docs/ARCHITECTURE.md names this crate, so a public call of it takes what it took: two plain slots, of which it makes Pairs at once.
pub fn first_meeting(a: Slot, b: Slot) -> Option<Meeting>
    requires brief { Brief a }
    requires brief_2 { Brief b }
    ensures { MeetsFirst a b result }
{
    let later = Pair { a, b }.first_beginning();
    let other = exchange(Pair { a: b, b: a }.first_beginning());
    let Some(x) = later else {
        return other;
    };
    let Some(y) = other else {
        return later;
    };
    if y.instant < x.instant {
        return other;
    }
    later
}
