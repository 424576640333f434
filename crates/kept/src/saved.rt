// The saved cursor, and what was last seen of its plan beside it.
use crate::Check;
use basics::Refusal;
use durable::FileRead;
use files::Cursor;
use reasons::records::header_word;
use show::answers;
use show::answers::{NotKnown, Part};
use std::io;
use std::io::Write;
use std::rt::Files;

// One byte more than the largest file, so that a byte left over is seen.
const CURSOR_ROOM: usize = files::MAX_CURSOR_BYTES + 1;

pub(crate) const SEEN_ROOM: usize = seen::MAX_SEEN_BYTES + 1;

// The ending of the copy of the plan beside a cursor.
const SEEN: &[u8] = b".seen";

// A cursor file: its cursor, why it is none, that there is no file, or that it cannot be read.
// Kept: a missing file and one that is no cursor are no errors to `standing`, and a failed read is said already, so nothing would go on by `?`.
#[derive(Clone, Copy, Debug, PartialEq, Eq)]
pub(crate) enum Saved {
    At(Cursor),
    NoCursor(Refusal),
    Missing,
    Failed,
}

/// Whether a cursor is at the end of a plan.
// Kept: checker's is_place_or_end asks for a Plan and is private there, and kept does not use checker.
pub fn is_end(t: &[u32], c: Cursor) -> bool {
    c == Cursor {
        revision: header_word(t, table::REVISION_AT),
        leg: header_word(t, table::LEGS_AT),
        place: 0,
    }
}

// Kept: operator reaches no allocator (docs/TRUST.md), so files and paths lie in arrays of the largest size, and what was read is a slice of one.
// Kept: a bool says whether it was done or is so, as callers ask and chain by &&; what went wrong is said or answered already.
impl<'a, R: Files, O: Write, E: Write> Check<'a, R, O, E> {
    pub(crate) fn found(&mut self) -> Saved {
        let mut room = [0u8; CURSOR_ROOM];
        match durable::file(self.rt, self.err, self.cursor, &mut room) {
            FileRead::Bytes(bytes) => match files::read_cursor(bytes) {
                Ok(c) => Saved::At(c),
                Err(refusal) => Saved::NoCursor(refusal),
            },
            FileRead::Missing => Saved::Missing,
            FileRead::Failed => Saved::Failed,
        }
    }

    /// The cursor to go on with. Where it is missing or refused, that is said or is the answer, which is written.
    pub fn cursor(&mut self) -> io::Result<Option<Cursor>> {
        match self.found() {
            Saved::At(c) => return Ok(Some(c)),
            Saved::NoCursor(refusal) => {
                self.no_cursor();
                answers::unread(self.out, refusal, Part::Foreign)?;
            }
            Saved::Missing => self.no_file(),
            Saved::Failed => {}
        }
        Ok(None)
    }

    // Reads a file beside the cursor, by its ending.
    pub(crate) fn file_beside<'b>(&mut self, ending: &[u8], buffer: &'b mut [u8]) -> FileRead<'b> {
        let mut room = [0u8; 4096];
        let path = durable::ended(self.cursor, ending, &mut room);
        durable::file(self.rt, self.err, path, buffer)
    }

    // Reads the copy beside the cursor.
    pub(crate) fn seen_file<'b>(&mut self, buffer: &'b mut [u8]) -> FileRead<'b> {
        self.file_beside(SEEN, buffer)
    }

    /// Whether the cursor was not saved under another edition of the rules. Where it was, that is the answer, and it is written.
    pub fn is_present(&mut self, revision: u32) -> io::Result<bool> {
        let mut room = [0u8; SEEN_ROOM];
        match self.seen_file(&mut room) {
            FileRead::Missing => Ok(true),
            FileRead::Failed => Ok(false),
            FileRead::Bytes(kept) => match seen::edition_of(kept) {
                Some(edition) if edition != rules::EDITION => {
                    answers::other_edition(self.out, edition, revision)?;
                    Ok(false)
                }
                _ => Ok(true),
            },
        }
    }

    /// Whether the plan is one that was last seen with the cursor, under this edition of the rules. Where it is not, that is the answer, and it is written; and it is
    /// said where the copy is none.
    pub fn is_known(&mut self, plan: &[u8], revision: u32) -> io::Result<bool> {
        let mut room = [0u8; SEEN_ROOM];
        match self.seen_file(&mut room) {
            FileRead::Bytes(kept) => {
                if seen::known(kept, rules::EDITION, plan) {
                    return Ok(true);
                }
                let reason = if self.is_copy(kept) {
                    NotKnown::Changed
                } else {
                    NotKnown::Damaged
                };
                answers::unknown(self.out, reason, revision)?;
            }
            FileRead::Missing => answers::unknown(self.out, NotKnown::Unseen, revision)?,
            FileRead::Failed => {}
        }
        Ok(false)
    }

    // Whether the plan is one of those in a file beside the cursor, by its ending, under this edition. Nothing is answered.
    pub(crate) fn knows(&mut self, ending: &[u8], edition: u32, plan: &[u8]) -> bool {
        let mut room = [0u8; SEEN_ROOM];
        match self.file_beside(ending, &mut room) {
            FileRead::Bytes(kept) => seen::known(kept, edition, plan),
            FileRead::Missing | FileRead::Failed => false,
        }
    }

    /// Whether the saved cursor is at the end of this very plan, which was last seen with it. A cursor that is missing, refused or not of this plan is not.
    pub fn has_ended(&mut self, plan: &[u8], t: &[u32]) -> bool {
        match self.found() {
            Saved::At(c) if is_end(t, c) => self.knows(SEEN, rules::EDITION, plan),
            _ => false,
        }
    }

    /// Writes a cursor beside its file.
    pub fn write_cursor_beside(&mut self, c: Cursor) -> bool {
        let mut room = [0u8; files::MAX_CURSOR_BYTES];
        match files::write_cursor(c, &mut room) {
            Ok(n) => durable::write_beside(self.rt, self.err, self.cursor, &[&room[..n]]),
            Err(_) => false,
        }
    }

    /// Gives what was written beside the cursor its name.
    pub fn put_cursor_in_place(&mut self) -> bool {
        durable::put_in_place(self.rt, self.err, self.cursor)
    }

    /// Removes the cursor.
    pub fn remove_cursor(&mut self) -> bool {
        durable::remove(self.rt, self.err, self.cursor)
    }

    // Writes a copy under this edition beside its file, which has this ending: a plan, and another one or nothing.
    pub(crate) fn write_copy_beside(
        &mut self,
        ending: &[u8],
        edition: u32,
        plan: &[u8],
        other: &[u8],
    ) -> bool {
        if files::MAX_FILE_BYTES < plan.len() {
            return false;
        }
        let mut front = [0u8; seen::MAX_FRONT_BYTES];
        let Ok(n) = seen::write_front(edition, plan.len() as u32, &mut front) else {
            return false;
        };
        let mut room = [0u8; 4096];
        let path = durable::ended(self.cursor, ending, &mut room);
        durable::write_beside(self.rt, self.err, path, &[&front[..n], plan, other])
    }

    // Gives what was written beside a copy its name.
    pub(crate) fn put_copy_in_place(&mut self, ending: &[u8]) -> bool {
        let mut room = [0u8; 4096];
        let path = durable::ended(self.cursor, ending, &mut room);
        durable::put_in_place(self.rt, self.err, path)
    }

    /// Writes what is seen beside its file: a plan, and the other of a move or nothing.
    pub fn write_seen_beside(&mut self, plan: &[u8], other: &[u8]) -> bool {
        self.write_copy_beside(SEEN, rules::EDITION, plan, other)
    }

    /// Gives what was written beside the copy its name.
    pub fn put_seen_in_place(&mut self) -> bool {
        self.put_copy_in_place(SEEN)
    }
}
