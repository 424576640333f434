//! A claim read: times of events, or the constraints of a chain by their lines. What is wrong in it is said on standard error.
use crate::sentences;
use arrayvec::ArrayVec;
use lines::shown::shown;
use reasons::{begin, text};
use std::io::Write;
use wishes::forms;
use wishes::forms::Claim;
use wishes::reading::{Wishes, WrongLine};

// One constraint more than a chain has at most.
const LINKS: usize = network::MAX_EVENTS + 1;

// What was read: the times, in their order; the place of each event's time among them; the constraints of a chain, one past the limit at most; the first line that is
// wrong; and whether a line that says something was passed.
#[derive(Drop)]
pub(crate) struct Claimed {
    pub(crate) times: ArrayVec<i64, { network::MAX_EVENTS }>,
    places: [Option<usize>; network::MAX_EVENTS],
    pub(crate) chain: ArrayVec<u32, LINKS>,
    pub(crate) wrong: Option<usize>,
    begun: bool,
}

// Says something of a line of the claim: words, what is there, and more words.
fn say<E: Write>(err: &mut E, line: usize, words: &str, there: &[u8], but: &str) {
    begin(err);
    let _ = write!(err, "line {line} of the claim {words} ");
    shown(err, there);
    text(err, but.as_bytes());
    text(err, b"\n");
}

// The constraint in a line of the network, if there is one. The constraints are in the order of their lines.
fn in_line(wishes: &Wishes, line: u32) -> Option<usize> {
    wishes
        .constraints()
        .binary_search_by_key(&(line as usize), |c| c.line)
        .ok()
}

impl Claimed {
    // The place of an event's time among the times, if it has one.
    pub(crate) fn place(&self, event: usize) -> Option<usize> {
        self.places.get(event).copied()?
    }

    pub(crate) fn time_of(&self, event: usize) -> Option<i64> {
        self.times.get(self.place(event)?).copied()
    }

    fn is_wrong(&mut self, line: usize) {
        self.wrong = self.wrong.or(Some(line));
    }

    fn bad_form<E: Write>(&mut self, err: &mut E, content: &[u8], line: usize) {
        sentences::wrong(
            err,
            &WrongLine { line, content },
            "claim",
            "time NAME NUMBER, line N: or empty, with blanks between all words and whole numbers",
        );
        self.is_wrong(line);
    }

    fn take_time<E: Write>(
        &mut self,
        err: &mut E,
        wishes: &Wishes,
        name: &[u8],
        time: i64,
        line: usize,
    ) {
        let Some(event) = wishes.event(name) else {
            say(
                err,
                line,
                "gives a time to",
                name,
                ", but the network has no such event",
            );
            self.is_wrong(line);
            return;
        };
        if self.place(event).is_some() {
            say(
                err,
                line,
                "gives a time to",
                name,
                ", but a line before it did so too",
            );
            self.is_wrong(line);
            return;
        }
        if let Some(place) = self.places.get_mut(event) {
            *place = Some(self.times.len());
        }
        let _ = self.times.try_push(time);
    }

    // Takes in a constraint of a chain, by its line in the network. Past the limit none is kept, since no chain has so many.
    // Kept: take_time and say need the number without the content, and a WrongLine means a line that is wrong.
    fn take_link<E: Write>(
        &mut self,
        err: &mut E,
        wishes: &Wishes,
        named: u32,
        content: &[u8],
        line: usize,
    ) {
        let Some(k) = in_line(wishes, named) else {
            say(
                err,
                line,
                "is",
                content,
                ", but there is no constraint in that line of the network",
            );
            self.is_wrong(line);
            return;
        };
        let _ = self.chain.try_push(reasons::small(k));
    }

    fn take_line<E: Write>(&mut self, err: &mut E, wishes: &Wishes, content: &[u8], line: usize) {
        match forms::claim_in(content) {
            Claim::Nothing => return,
            // The first line of an answer may be in front of the others.
            Claim::Head if !self.begun => {}
            Claim::Head | Claim::Wrong => self.bad_form(err, content, line),
            Claim::Time(name, time) => self.take_time(err, wishes, name, time, line),
            Claim::FarTime(number) => {
                say(
                    err,
                    line,
                    "has the time",
                    number,
                    ", but times are -9223372036854775808 to 9223372036854775807",
                );
                self.is_wrong(line);
            }
            Claim::Line(named) => self.take_link(err, wishes, named, content, line),
        }
        self.begun = true;
    }
}

// Reads a claim on a network that was read.
pub(crate) fn read<E: Write>(err: &mut E, claim: &[u8], wishes: &Wishes) -> Claimed {
    let mut got = Claimed {
        times: ArrayVec::new(),
        places: [None; network::MAX_EVENTS],
        chain: ArrayVec::new(),
        wrong: None,
        begun: false,
    };
    for (i, line) in claim.split(|byte| *byte == b'\n').enumerate() {
        got.take_line(err, wishes, lines::content(line), i + 1);
    }
    got
}
