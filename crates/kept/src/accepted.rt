// A plan that was accepted, kept beside a cursor in the form of a copy of one plan. A plan that was accepted under an edition of the rules stays so: what is kept here is true
// whatever becomes of the plan and the cursor.
use crate::{Check, saved};
use durable::FileRead;
use std::io::Write;
use std::rt::Files;

// What stands in the place of the edition, where a plan was accepted: so much more than the edition. So a copy of a plan that was only seen is not taken for an accepted one, nor this
// for such a copy.
const ACCEPTED: u32 = 1000000;

const ACCEPTED_HERE: u32 = ACCEPTED + rules::EDITION;

// The ending of the accepted plan beside a cursor.
const ENDING: &[u8] = b".accepted";

/// What is kept: a plan that is the same as a table but for one leg; nothing that tells so, which may be replaced; or a file that is not ours, which never is.
#[derive(Clone, Copy, Debug, PartialEq, Eq)]
pub enum Accepted {
    Same,
    Unknown,
    NotOurs,
}

// Whether u is the same as t but for one leg of t.
// Kept: a leg is left out of the comparison, so no derived equality says it.
fn is_same(t: &[u32], u: &[u32], leg: u32) -> bool {
    table::judged_size(t).is_ok()
        && leg < t[table::LEGS_AT]
        && recheck::same::same_but_leg(t, u, leg)
}

// Kept: operator reaches no allocator (docs/TRUST.md), so files and paths lie in arrays of the largest size, and what was read is a slice of one.
// Kept: a bool says whether it was done or is so, as callers ask and chain by &&; what went wrong is said or answered already.
impl<'a, R: Files, O: Write, E: Write> Check<'a, R, O, E> {
    fn not_ours(&mut self) -> Accepted {
        reasons::begin(self.err);
        reasons::text(self.err, self.cursor);
        reasons::text(
            self.err,
            b".accepted is not an accepted plan as a recheck keeps it. It was left as it is, and nothing is kept there: unless it is a file of your own, remove it\n",
        );
        Accepted::NotOurs
    }

    fn accepted_in(&mut self, kept: &[u8], t: &[u32], leg: u32) -> Accepted {
        match seen::edition_of(kept) {
            Some(edition) if edition < ACCEPTED => return self.not_ours(),
            Some(edition) if edition != ACCEPTED_HERE => return Accepted::Unknown,
            _ => {}
        }
        let Some(plan) = seen::only_plan(kept, ACCEPTED_HERE) else {
            return self.not_ours();
        };
        let mut words = [0u32; table::MAX_TABLE_WORDS];
        match files::read_plan(plan, &mut words) {
            Err(_) => self.not_ours(),
            Ok(n) if is_same(t, &words[..n], leg) => Accepted::Same,
            Ok(_) => Accepted::Unknown,
        }
    }

    /// What is kept beside the cursor, for a table of which one leg was moved. Of a file that is not ours or cannot be read, that is said.
    pub fn accepted(&mut self, t: &[u32], leg: u32) -> Accepted {
        let mut room = [0u8; saved::SEEN_ROOM];
        match self.file_beside(ENDING, &mut room) {
            FileRead::Missing => Accepted::Unknown,
            FileRead::Failed => Accepted::NotOurs,
            FileRead::Bytes(kept) => self.accepted_in(kept, t, leg),
        }
    }

    /// Whether this very plan is kept there, under these rules.
    pub fn has_accepted(&mut self, plan: &[u8]) -> bool {
        self.knows(ENDING, ACCEPTED_HERE, plan)
    }

    /// Writes an accepted plan beside its file.
    pub fn write_accepted_beside(&mut self, plan: &[u8]) -> bool {
        self.write_copy_beside(ENDING, ACCEPTED_HERE, plan, b"")
    }

    /// Gives what was written beside the file its name.
    pub fn put_accepted_in_place(&mut self) -> bool {
        self.put_copy_in_place(ENDING)
    }
}
