//! A network read from its text.
use crate::forms::{Between, Wish};
use crate::{KEPT_EVENTS, forms};
use arrayvec::ArrayVec;

/// The time of event `to` minus the time of event `from` is at most `most`, as a line says.
// Kept: nobody compares or prints it as a whole, and each further derive is one more function to prove.
#[derive(Clone, Copy, Default)]
pub struct Constraint<'a> {
    pub from: usize,
    pub to: usize,
    pub most: i64,
    /// The line, counted from 1.
    pub line: usize,
    /// The number as it is in the text.
    pub number: &'a [u8],
}

/// A line that has none of the forms, counted from 1, and what is read of it.
// Kept: nobody compares or prints it as a whole, and each further derive is one more function to prove.
#[derive(Clone, Copy)]
pub struct WrongLine<'a> {
    pub line: usize,
    pub content: &'a [u8],
}

/// What was read: the names of the events, one past the limit at most; how many constraints there are; and the first line that has none of the forms. The constraints
/// lie in an array that is lent, as many as it has room for.
#[derive(Drop)]
pub struct Wishes<'r, 'a> {
    pub events: ArrayVec<&'a [u8], KEPT_EVENTS>,
    room: &'r mut [Constraint<'a>],
    pub constraint_count: usize,
    pub wrong: Option<usize>,
}

// A number as a word of the solver's. No text has as many events as an i64 has values.
// Kept: no `From`, since a `usize` need not fit an `i64`.
fn word(n: usize) -> i64 {
    i64::try_from(n).unwrap_or(i64::MAX)
}

fn set(words: &mut [i64], at: usize, n: i64) {
    if let Some(word) = words.get_mut(at) {
        *word = n;
    }
}

impl<'r, 'a> Wishes<'r, 'a> {
    /// The event with a name, if there is one.
    // Kept: a map would stand beside the list, which gives the names by number; there are 129 at most.
    pub fn event(&self, name: &[u8]) -> Option<usize> {
        self.events.iter().position(|known| *known == name)
    }

    /// The name of an event, or nothing where there is no such event.
    pub fn name(&self, event: usize) -> &'a [u8] {
        self.events.get(event).copied().unwrap_or(&[])
    }

    /// The constraints that are kept, in the order of their lines.
    pub fn constraints(&self) -> &[Constraint<'a>] {
        self.room.get(..self.constraint_count).unwrap_or(self.room)
    }

    // The event that a line names. A new name gets the next number. Past the limit no name is kept, since a network with so many events is refused.
    fn named(&mut self, name: &'a [u8]) -> usize {
        if let Some(event) = self.event(name) {
            return event;
        }
        let event = self.events.len();
        let _ = self.events.try_push(name);
        event
    }

    // A constraint that there is no room for counts alone.
    fn take_constraint(&mut self, between: Between<'a>, line: usize) {
        let first = self.named(between.first);
        let second = self.named(between.second);
        let (from, to) = if between.is_turned {
            (first, second)
        } else {
            (second, first)
        };
        let count = self.constraint_count;
        self.constraint_count = count.saturating_add(1);
        if let Some(place) = self.room.get_mut(count) {
            *place = Constraint {
                from,
                to,
                most: between.most,
                line,
                number: between.number,
            };
        }
    }

    fn take_line(&mut self, content: &'a [u8], line: usize) {
        match forms::wish_in(content) {
            Wish::Nothing => {}
            Wish::Event(name) => {
                self.named(name);
            }
            Wish::Constraint(between) => self.take_constraint(between, line),
            Wish::Wrong => self.wrong = self.wrong.or(Some(line)),
        }
    }

    /// The constraints that are kept as the solver takes them, each event by a number that it is given, in words that are lent.
    pub fn words<'w, F: Fn(usize) -> usize>(&self, room: &'w mut [i64], number: F) -> &'w [i64]
        requires { F.IsAlwaysCallable number }
    {
        let mut at: usize = 0;
        for c in self.constraints() {
            set(room, at, word(number(c.from)));
            set(room, at.saturating_add(1), word(number(c.to)));
            set(room, at.saturating_add(2), c.most);
            at = at.saturating_add(3);
        }
        let (words, _) = room.split_at(at.min(room.len()));
        words
    }
}

/// Internal: reads a network. Lent is the room for its constraints.
pub fn read<'r, 'a>(text: &'a [u8], room: &'r mut [Constraint<'a>]) -> Wishes<'r, 'a> {
    let mut wishes = Wishes {
        events: ArrayVec::new(),
        room,
        constraint_count: 0,
        wrong: None,
    };
    for (i, line) in text.split(|byte| *byte == b'\n').enumerate() {
        wishes.take_line(lines::content(line), i + 1);
    }
    wishes
}
