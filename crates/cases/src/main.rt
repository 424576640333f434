// Makes the calls that a list on standard input names, a call to a line, and prints each answer whole: every byte and word of each lent buffer, which was
// marked before the call, and the table after each move. Lines that begin with # are printed as they stand.
#![tactic(auto)]

use files::Cursor;
use std::alloc::Global;
use std::io;
use std::io::Write;
use table::Move;
use text::Numbers;

mod admit_calls;
mod explain_calls;
mod files_calls;
mod gates_calls;
mod host_calls;
mod integers;
mod network_calls;
mod recheck_calls;
mod table_calls;
mod text;
mod tool_calls;

// Room for a list.
const MAX_LIST: usize = 262144;

// The most bytes of a plan and of a saved cursor on which a call is made.
const MAX_PLAN: usize = 256;

const MAX_SAVED: usize = 64;

// A call: its verb, and what is after it, also as numbers.
#[derive(Drop)]
pub(crate) struct Call<'t> {
    verb: &'t [u8],
    rest: &'t [u8],
    numbers: Numbers,
}

// What the lines so far have given to call on, and where memory comes from.
#[derive(Drop)]
pub(crate) struct Given {
    alloc: Global,
    table: Vec<u32>,
    plan: Vec<u8>,
    saved: Vec<u8>,
    cursor: Cursor,
}

impl Given {
    // A call that changes neither table nor cursor.
    // Kept: a verb is a word of a line and is matched where its call is made; an enum of all of them would say each a second time.
    fn asked<O: Write>(&self, out: &mut O, call: &Call<'_>) -> io::Result<bool> {
        Ok(
            table_calls::asked(out, call, &self.table)?
                || files_calls::asked(out, call, self)?
                || host_calls::asked(out, call, self)?
                || tool_calls::asked(out, call, self)?
                || admit_calls::asked(out, call, self)?
                || recheck_calls::asked(out, call, self)?
                || explain_calls::asked(out, call, &self.table)?
                || gates_calls::asked(out, call, self)?
                || network_calls::asked(out, self.alloc, call)?,
        )
    }

    fn has_too_much(&self) -> bool {
        table::MAX_TABLE_WORDS < self.table.len()
            || MAX_PLAN < self.plan.len()
            || MAX_SAVED < self.saved.len()
    }

    // A call, and the cursor after it. No call is made on more than there may be.
    fn called<O: Write>(&mut self, out: &mut O, verb: &[u8], rest: &[u8]) -> io::Result<()> {
        if self.has_too_much() {
            return Ok(());
        }
        let numbers = Numbers::of(self.alloc, rest)?;
        match verb {
            b"start" => self.cursor = table_calls::start(out, &self.table)?,
            b"slice" => {
                self.cursor = table_calls::slice(out, &self.table, self.cursor, numbers.at(0))?;
            }
            b"move" => {
                let mv = Move {
                    leg: numbers.at(0),
                    offset: numbers.at(1),
                    periods: numbers.at(2),
                };
                self.cursor = table_calls::move_leg(out, &mut self.table, self.cursor, mv)?;
            }
            _ => {
                let call = Call {
                    verb,
                    rest,
                    numbers,
                };
                if !self.asked(out, &call)? {
                    out.write_all(b"bad line: ")?;
                    out.write_all(verb)?;
                    writeln!(out)?;
                }
            }
        }
        Ok(())
    }

    fn line<O: Write>(&mut self, out: &mut O, text: &[u8]) -> io::Result<()> {
        let end = text.iter().position(|byte| *byte == b' ');
        let (verb, rest) = text.split_at(end.unwrap_or(text.len()));
        match verb {
            b"#" => {
                out.write_all(text)?;
                writeln!(out)?;
            }
            b"table" => self.table = text::words(self.alloc, rest)?,
            b"plan" => self.plan = text::bytes(self.alloc, rest)?,
            b"saved" => self.saved = text::bytes(self.alloc, rest)?,
            b"cursor" => self.cursor = Numbers::of(self.alloc, rest)?.cursor(),
            _ => self.called(out, verb, rest)?,
        }
        Ok(())
    }
}

fn run<R: Input, O: Write>(rt: &R, alloc: Global, out: &mut O) -> io::Result<()> {
    // Kept: input::standard_part reads into lent bytes and gives back what it read as a slice, no more than a list may have.
    let mut room = [0u8; MAX_LIST];
    let list = input::standard_part(rt, &mut room);
    let mut given = Given {
        alloc,
        table: Vec::new(alloc),
        plan: Vec::new(alloc),
        saved: Vec::new(alloc),
        cursor: Cursor {
            revision: 0,
            leg: 0,
            place: 0,
        },
    };
    for line in list.split_inclusive(|byte| *byte == b'\n') {
        given.line(out, line.strip_suffix(b"\n").unwrap_or(line))?;
    }
    Ok(())
}

fn main(rt: HostRuntime) {
    let alloc = rt.alloc();
    let mut out = output::to(rt.stdout());
    let _ = run(&rt, alloc, &mut out);
}
