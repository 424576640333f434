//! The names of a plan's nodes and streams, which stand in a text beside the plan file: PLAN.names.
ghost use Rattle.std.specs.Prelude.{◌≤◌, length};

use crate::Draft;
use crate::reading::read_silently;
use durable::FileRead;
use std::io::Write;
use std::rt::Files;

/// How long a path may be.
pub const MAX_PATH: usize = 4096;

const ENDING: &[u8] = b".names";

/// The path of the file of names beside a plan file, or nothing where it is longer than a path may be.
pub fn path_of<'a>(plan: &[u8], room: &'a mut [u8]) -> &'a [u8]
    ensures { length result.now ≤ length room.old }
{
    durable::ended(plan, ENDING, room)
}

/// A file of names that was read.
// Kept: nobody compares or prints it, and each further derive is one more function to prove.
#[derive(Clone, Copy)]
struct NamesFile<'r> {
    path: &'r [u8],
    text: &'r [u8],
}

/// The names that stand beside a plan file, if there are some.
// Kept: nobody compares or prints it, and each further derive is one more function to prove.
#[derive(Clone, Copy)]
pub struct Names<'r> {
    file: Option<NamesFile<'r>>,
}

/// Prints why numbers are used in place of the names that a path leads to.
fn report<E: Write>(err: &mut E, path: &[u8], sentence: &[u8]) {
    reasons::begin(err);
    reasons::text(err, path);
    reasons::text(err, sentence);
}

impl<'r> Names<'r> {
    /// No names.
    pub fn none() -> Names<'r> {
        Names { file: None }
    }

    /// Reads the names beside a plan file, into a lent path of `MAX_PATH` bytes and a lent text of `TEXT_ROOM`, so that a text that is too long is seen.
    pub fn beside<R: Files, E: Write>(
        rt: &R,
        err: &mut E,
        plan: &[u8],
        path: &'r mut [u8],
        text: &'r mut [u8],
    ) -> Names<'r> {
        let path = path_of(plan, path);
        match durable::file(rt, err, path, text) {
            FileRead::Bytes(text) => Names {
                file: Some(NamesFile { path, text }),
            },
            FileRead::Missing => Names::none(),
            FileRead::Failed => {
                report(
                    err,
                    path,
                    b" cannot be read: numbers are used in place of names\n",
                );
                Names::none()
            }
        }
    }

    /// The draft of a table, with these names if they are of this plan.
    pub fn draft<E: Write>(&self, err: &mut E, t: &[u32]) -> Draft<'r> {
        if let Some(file) = self.file {
            if let Some(mut draft) = file.draft(err, t) {
                draft.moved_to(t);
                return draft;
            }
        }
        Draft::of_table(t)
    }
}

impl<'r> NamesFile<'r> {
    /// The draft of the text, if it is of this plan.
    fn draft<E: Write>(self, err: &mut E, t: &[u32]) -> Option<Draft<'r>> {
        if crate::MAX_BYTES < self.text.len() {
            report(
                err,
                self.path,
                b" has more than 262144 bytes: numbers are used in place of its names\n",
            );
            return None;
        }
        match read_silently(self.text) {
            Ok(draft) => {
                if is_same_but_moved(t, draft.table().as_slice()) {
                    return Some(draft);
                }
                report(
                    err,
                    self.path,
                    b" is of another plan: numbers are used in place of its names\n",
                );
                None
            }
            Err(wrong) => {
                reasons::begin(err);
                let _ = write!(err, "line {} of ", wrong.first);
                reasons::text(err, self.path);
                reasons::text(err, b" is wrong: numbers are used in place of its names\n");
                None
            }
        }
    }
}

/// Whether two tables are the same but for what moves may change: the revision, and the offset and the period word of a leg.
// Kept: some words are left out of the comparison, so no derived equality says it.
fn is_same_but_moved(t: &[u32], other: &[u32]) -> bool {
    let links = reasons::records::header_word(t, table::LINKS_AT) as usize;
    let streams = reasons::records::header_word(t, table::STREAMS_AT) as usize;
    // Kept: reasons::records has this sum for its own records; a public one would owe a contract that says where the legs begin.
    let leg_start = table::HEAD_WORDS + table::LINK_WORDS * links + table::STREAM_WORDS * streams;
    let is_moved = |at: usize| {
        at == table::REVISION_AT || (leg_start <= at && 2 <= (at - leg_start) % table::LEG_WORDS)
    };
    t.len() == other.len()
        && t.iter()
            .zip(other)
            .enumerate()
            .all(|(at, (word, before))| word == before || is_moved(at))
}
