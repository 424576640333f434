// The least number from one on and below a limit that all conditions of a list allow.
ghost use Rattle.std.specs.Prelude.{◌≡◌, ◌%◌, ◌≤◌, ◌<◌};
ghost use Rattle.numbers.specs.Number.{max_word};
ghost use Rattle.offsets.specs.Conditions.{Allow, Allows, AllSound, Sound};
ghost use Rattle.offsets.specs.Search.{Searches};
ghost use Rattle.offsets.specs.Steps.{Passes, Skips, Waits};

use crate::{Condition, StoredCondition};

// Where the search is, and the last four hints that moved it, the latest last. Nothing is promised of the hints.
#[derive(Clone, Copy, Debug, PartialEq, Eq)]
pub struct State {
    pub x: u64,
    pub recent: [u32; 4],
}

impl State {
    // The search at y, with the hint noted where it moved.
    fn noted(self, hint: u32, y: u64) -> State
        ensures { result.x ≡ y }
    {
        if y == self.x {
            return self;
        }
        let [_, second, third, fourth] = self.recent;
        State {
            x: y,
            recent: [second, third, fourth, hint],
        }
    }
}

// The remainder of s by m. Where m is the period itself, s is below 2m, and no division is needed.
// Kept: `%` alone would divide each time, which the processor does slowly; the one of overlap takes no modulus off, so the two are no twins.
fn reduced(s: u64, m: u64) -> u64
    requires { 0 < m }
    ensures { result ≡ s % m }
{
    if s < m {
        return s;
    }
    let t = s - m;
    if t < m {
        return t;
    }
    s % m
}

// The conditions that are searched, each of them sound, and the limit.
// Kept: nobody compares or prints it, and each further derive is a function more to prove.
#[derive(Clone, Copy)]
struct Search<'a> {
    conditions: &'a [StoredCondition],
    limit: u64,
    ghost all_sound: { AllSound conditions.now },
    ghost limit_le_max_word: { limit ≤ max_word },
}

// Kept: `widened` (specs/Conditions.antt) builds a Condition as a record, also one that is not sound, so Sound can be no ghost field of it.
// Kept: each method takes the place x or a state from where the one before it led, so `x ≤ limit` is said anew in each.
impl<'a> Search<'a> {
    // The number w further on, or the limit where that is nearer, or where nothing at all is allowed.
    fn moved(&self, q: Condition, x: u64, w: u64) -> u64
        requires sound { Sound q }
        requires x_le_limit { x ≤ self.now.limit }
        requires waits { Waits q x w }
        ensures { Skips (Allows q) self.now.limit x result }
    {
        if q.modulus < q.before + q.after {
            return self.limit;
        }
        if self.limit - x <= w {
            return self.limit;
        }
        x + w
    }

    // Where the search may go on by one condition.
    fn past(&self, q: Condition, x: u64) -> u64
        requires sound { Sound q }
        requires x_le_limit { x ≤ self.now.limit }
        ensures { Skips (Allows q) self.now.limit x result }
    {
        let m = q.modulus;
        let r = reduced(x + q.shift, m);
        if r < q.before {
            return self.moved(q, x, q.before - r);
        }
        if m - r < q.after {
            return self.moved(q, x, m - r + q.before);
        }
        x
    }

    // Where it may go on by the condition that a hint names, if it names one.
    fn by_hint(&self, hint: u32, x: u64) -> u64
        requires { x ≤ self.now.limit }
        ensures { Passes (Allow self.now.conditions.now) self.now.limit x result }
    {
        let Some(q) = self.conditions.get(hint as usize) else {
            return x;
        };
        self.past(Condition::from(*q), x)
    }

    // By the hints in their order, each taken from where the one before it led.
    fn hinted(&self, hints: &[u32], s: State) -> State
        requires { s.x ≤ self.now.limit }
        ensures { Passes (Allow self.now.conditions.now) self.now.limit s.x result.x }
    {
        let mut t = s;
        for &hint in hints {
            t = t.noted(hint, self.by_hint(hint, t.x));
        }
        t
    }

    // By the four hints that moved it last, once.
    fn by_recent(&self, s: State) -> u64
        requires { s.x ≤ self.now.limit }
        ensures { Passes (Allow self.now.conditions.now) self.now.limit s.x result }
    {
        let mut x = s.x;
        for hint in s.recent {
            x = self.by_hint(hint, x);
        }
        x
    }

    // By these four until they leave the search where it is.
    fn settled(&self, s: State) -> State
        requires { s.x ≤ self.now.limit }
        ensures { Passes (Allow self.now.conditions.now) self.now.limit s.x result.x }
    {
        let mut t = s;
        // Kept: nothing is counted; the search jumps by unequal steps until it stays.
        while t.x < self.limit {
            let y = self.by_recent(t);
            if y == t.x {
                return t;
            }
            t.x = y;
        }
        t
    }

    // By all conditions, each taken from where the one before it led.
    fn swept(&self, x: u64) -> u64
        requires { x ≤ self.now.limit }
        ensures { Skips (Allow self.now.conditions.now) self.now.limit x result }
    {
        let mut y = x;
        for q in self.conditions {
            y = self.past(Condition::from(*q), y);
        }
        y
    }

    // One step of the search: by the hints, or, where they leave it, by all conditions.
    fn step(&self, hints: &[u32], s: State) -> State
        requires { s.x ≤ self.now.limit }
        ensures { Skips (Allow self.now.conditions.now) self.now.limit s.x result.x }
    {
        let x = s.x;
        let t = self.hinted(hints, s);
        if t.x == x {
            return State {
                x: self.swept(x),
                ..t
            };
        }
        self.settled(t)
    }
}

/// Internal: the least number from `from` on and below the limit that all conditions allow. The search looks first where the hints say, whatever they say.
// Kept: docs/ARCHITECTURE.md names this crate, so a public call of it takes what it took: a plain slice, of which it makes a Search at once.
pub fn searched(conditions: &[StoredCondition], hints: &[u32], limit: u64, from: u64) -> Option<u64>
    requires all_sound { AllSound conditions.now }
    requires limit_le_max_word { limit ≤ max_word }
    ensures { Searches (Allow conditions.now) limit from result }
{
    let search = Search { conditions, limit };
    let mut s = State {
        x: from,
        recent: [0; 4],
    };
    // Kept: nothing is counted; the search jumps by unequal steps until it stays.
    while s.x < limit {
        let x = s.x;
        let t = search.step(hints, s);
        let y = t.x;
        if y == x {
            return Some(x);
        }
        s = t;
    }
    None
}
