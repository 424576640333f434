//! A text read into a draft, a line at a time.
ghost use Rattle.std.specs.Prelude.{length};
ghost use Rattle.std.specs.Iterator.{at_most};

use crate::draft::Draft;
use crate::fault::Fault;
use crate::records::{Above, Reader};
use lines::content;
use lines::words::{KEPT, has_control, words};
use reasons::small;
use std::io;
use std::io::Write;

/// How many lines of a text are wrong, and the first of them, counted from 1.
#[derive(Clone, Copy, Debug, PartialEq, Eq)]
pub struct WrongLines {
    pub count: u32,
    pub first: u32,
}

/// The lines of a text that are not empty, each with its number, counted from 1. A text may be empty lines for the most part, so these are passed over at once.
#[derive(Clone, Copy, Debug, PartialEq, Eq, Drop)]
struct Lines<'t> {
    rest: &'t [u8],
    number: u32,
}

impl<'t> Iterator for Lines<'t> {
    type Item = (u32, &'t [u8]);

    ghost remaining = { λ s. at_most (length s.rest.now) };

    fn next(&mut self) -> Option<(u32, &'t [u8])> {
        let ends = self.rest.iter().position(|byte| *byte != b'\n')?;
        let rest = &self.rest[ends..];
        let others = &rest[1..];
        let more = others
            .iter()
            .position(|byte| *byte == b'\n')
            .unwrap_or(others.len());
        let (line, after) = rest.split_at(more + 1);
        self.rest = after;
        self.number = self.number.saturating_add(small(ends));
        Some((self.number, line))
    }
}

impl<'t> Reader<'t> {
    fn read_line(&mut self, line: &'t [u8], room: &mut [&'t [u8]]) -> Result<(), Fault<'t>> {
        let line = content(line);
        let words = words(line, room);
        if words.count == 0 {
            return Ok(());
        }
        if has_control(line) {
            return Err(Fault::Word(
                line,
                " has a control byte, which no screen shows: expected none",
            ));
        }
        let read = self.record(&words);
        self.is_begun = true;
        read
    }
}

/// Reads a text into a draft, or answers which lines are wrong. What is wrong with each is said on the writer.
pub fn read<'t, E: Write>(err: &mut E, text: &'t [u8]) -> Result<Draft<'t>, WrongLines> {
    read_lines(err, true, text)
}

/// The same, with nothing said: a file of names may have a hundred thousand wrong lines.
pub(crate) fn read_silently<'t>(text: &'t [u8]) -> Result<Draft<'t>, WrongLines> {
    read_lines(&mut io::sink(), false, text)
}

// Kept: the words of a line are put into one array, as many as any record has, so that no line fills another.
fn read_lines<'t, E: Write>(
    err: &mut E,
    is_said: bool,
    text: &'t [u8],
) -> Result<Draft<'t>, WrongLines> {
    let mut room = [&text[..0]; KEPT];
    let mut reader = Reader {
        draft: Draft::empty(),
        above: Above::Nothing,
        is_begun: false,
    };
    let mut wrong: Option<WrongLines> = None;
    let lines = Lines {
        rest: lines::without_mark(text),
        number: 1,
    };
    for (number, line) in lines {
        if let Err(fault) = reader.read_line(line, &mut room) {
            if is_said {
                let _ = fault.say(err, number);
            }
            wrong = Some(match wrong {
                None => WrongLines {
                    count: 1,
                    first: number,
                },
                Some(before) => WrongLines {
                    count: before.count.saturating_add(1),
                    ..before
                },
            });
        }
    }
    match wrong {
        None => Ok(reader.draft),
        Some(wrong) => Err(wrong),
    }
}
