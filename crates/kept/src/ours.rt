// What a start may replace: a saved cursor and a copy that are ours. Any other file of such a name is left as it is, and standard error says so.
use crate::saved::Saved;
use crate::{Check, saved};
use durable::FileRead;
use files::Cursor;
use std::io::Write;
use std::rt::Files;

// How a sentence on a file that is not ours ends.
const LEFT: &[u8] =
    b". It was left as it is. Start with a new name for the cursor; or, unless they are files of your own, remove the cursor and its copy by hand\n";

/// What stands where a start makes its files: nothing that would be lost, the cursor of a check that has begun, under these rules or under another edition of them, or a file
/// that is not ours.
#[derive(Clone, Copy, Debug, PartialEq, Eq)]
pub enum Standing {
    Free,
    Begun(Cursor),
    OtherEdition(u32),
    NotOurs,
}

// What stands beside a cursor: nothing, a copy under these rules, a copy under another edition of them, or a file that is none.
#[derive(Clone, Copy, Debug, PartialEq, Eq)]
enum Beside {
    Nothing,
    Copy,
    OtherEdition(u32),
    NotOurs,
}

// Kept: operator reaches no allocator (docs/TRUST.md), so files and paths lie in arrays of the largest size, and what was read is a slice of one.
// Kept: a bool says whether it was done or is so, as callers ask and chain by &&; what went wrong is said or answered already.
impl<'a, R: Files, O: Write, E: Write> Check<'a, R, O, E> {
    // Says of the cursor's file, or of one beside it, what it is not, and that it was left as it is.
    fn left_as_it_is(&mut self, what: &[u8]) {
        reasons::begin(self.err);
        reasons::text(self.err, self.cursor);
        reasons::text(self.err, what);
        reasons::text(self.err, LEFT);
    }

    pub(crate) fn no_file(&mut self) {
        reasons::begin(self.err);
        reasons::text(self.err, b"there is no cursor ");
        reasons::text(self.err, self.cursor);
        reasons::text(self.err, b"\n");
    }

    pub(crate) fn no_cursor(&mut self) {
        self.left_as_it_is(b" is not a saved cursor");
    }

    // Three bytes of any text have the form of a saved cursor, so one is ours only where its copy stands beside it.
    fn perhaps_no_cursor(&mut self) {
        reasons::begin(self.err);
        reasons::text(self.err, self.cursor);
        reasons::text(
            self.err,
            b" is not a saved cursor of these commands: there is no ",
        );
        reasons::text(self.err, self.cursor);
        reasons::text(self.err, b".seen");
        reasons::text(self.err, LEFT);
    }

    // Whether what was kept is a copy under these rules. Where it is none, that is said.
    pub(crate) fn is_copy(&mut self, kept: &[u8]) -> bool {
        if seen::is_copy(kept, rules::EDITION) {
            return true;
        }
        self.left_as_it_is(b".seen is not a copy of a plan as these commands keep it");
        false
    }

    // What stands beside the cursor.
    fn copy_beside(&mut self) -> Beside {
        let mut room = [0u8; saved::SEEN_ROOM];
        match self.seen_file(&mut room) {
            FileRead::Missing => Beside::Nothing,
            FileRead::Failed => Beside::NotOurs,
            FileRead::Bytes(kept) => match seen::edition_of(kept) {
                Some(edition) if edition != rules::EDITION => Beside::OtherEdition(edition),
                _ if self.is_copy(kept) => Beside::Copy,
                _ => Beside::NotOurs,
            },
        }
    }

    // A cursor at the first place has nothing to lose.
    fn with_cursor(&mut self, c: Cursor) -> Standing {
        let is_first = c.leg == 0 && c.place == 0;
        match self.copy_beside() {
            Beside::Nothing => {
                self.perhaps_no_cursor();
                Standing::NotOurs
            }
            Beside::NotOurs => Standing::NotOurs,
            _ if is_first => Standing::Free,
            Beside::Copy => Standing::Begun(c),
            Beside::OtherEdition(edition) => Standing::OtherEdition(edition),
        }
    }

    fn without_cursor(&mut self) -> Standing {
        match self.copy_beside() {
            Beside::NotOurs => Standing::NotOurs,
            _ => Standing::Free,
        }
    }

    /// What stands where a start makes its files. Of a file that is not ours, that is said.
    pub fn standing(&mut self) -> Standing {
        match self.found() {
            Saved::Missing => self.without_cursor(),
            Saved::At(c) => self.with_cursor(c),
            Saved::NoCursor(_) => {
                self.no_cursor();
                Standing::NotOurs
            }
            Saved::Failed => Standing::NotOurs,
        }
    }
}
