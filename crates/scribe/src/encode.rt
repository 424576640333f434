//! A text written as a plan file, and its names beside it. Nothing is written where a line is wrong.
use plan_text::{Draft, names};
use reasons::{records, report};
use std::io;
use std::io::Write;
use std::rt::Files;

/// Where a plan file is written: a path, and whether a file that is there is replaced.
#[derive(Clone, Copy, Debug, PartialEq, Eq)]
pub(crate) struct Target<'a> {
    pub(crate) path: &'a [u8],
    pub(crate) is_replacing: bool,
}

// Kept: a bool says whether it was done, as of durable's calls, which callers chain; why it was not is said there already.
impl Target<'_> {
    /// Puts bytes under the path: a new one, or one that may be there.
    fn put<R: Files, E: Write>(self, rt: &R, err: &mut E, file: &[u8]) -> bool {
        if !durable::write_beside(rt, err, self.path, &[file]) {
            return false;
        }
        if self.is_replacing {
            durable::put_in_place(rt, err, self.path)
        } else {
            durable::put_under_new_name(rt, err, self.path)
        }
    }

    /// Puts the names in their place: the text itself, which the same reader reads. Where there are none, no names stand beside the plan then.
    fn put_names<R: Files, E: Write>(
        self,
        rt: &R,
        err: &mut E,
        text: &[u8],
        draft: &Draft,
    ) -> bool {
        if draft.has_names() {
            return self.put(rt, err, text);
        }
        // Without replacing there were none.
        !self.is_replacing || durable::remove(rt, err, self.path)
    }
}

/// Writes the plan file of a draft, and its names before it.
// Kept: no length stands beside the array of the file: the largest plan has room in it, and what was written is a slice of it.
fn write<R: Files, O: Write, E: Write>(
    rt: &R,
    out: &mut O,
    err: &mut E,
    target: Target,
    text: &[u8],
    draft: &Draft,
) -> io::Result<()> {
    let t = draft.table();
    let t = t.as_slice();
    let mut file = [0u8; files::MAX_FILE_BYTES];
    let Ok(bytes) = files::write_plan(t, &mut file) else {
        return Ok(());
    };
    let file = &file[..bytes];
    // Kept: no length stands beside the array: a path is put together in it, and `path_of` gives back the slice.
    let mut room = [0u8; names::MAX_PATH];
    let path = names::path_of(target.path, &mut room);
    let beside = Target { path, ..target };
    if !beside.put_names(rt, err, text, draft) {
        return Ok(());
    }
    if target.put(rt, err, file) {
        return put_answer(out, t, bytes);
    }
    // A new plan file that could not be put in its place has no names: those that were put go again.
    if !target.is_replacing {
        durable::dropped(rt, path);
    }
    Ok(())
}

fn put_answer<O: Write>(out: &mut O, t: &[u32], bytes: usize) -> io::Result<()> {
    let links = records::header_word(t, table::LINKS_AT);
    let streams = records::header_word(t, table::STREAMS_AT);
    let legs = records::header_word(t, table::LEGS_AT);
    let revision = records::header_word(t, table::REVISION_AT);
    writeln!(
        out,
        "encoded links {links} streams {streams} legs {legs} bytes {bytes} revision {revision}\nstatus 0"
    )
}

/// The text on standard input, to a plan file.
// Kept: no length stands beside the array: what was read is a slice of it.
pub(crate) fn to<R: Files + Input, O: Write, E: Write>(
    rt: &R,
    out: &mut O,
    err: &mut E,
    target: Target,
) -> io::Result<()> {
    let mut room = [0u8; plan_text::TEXT_ROOM];
    let text = input::standard(rt, &mut room)?;
    if text.len() == plan_text::TEXT_ROOM {
        report(
            err,
            format_args!(
                "the text has more than {} bytes, and there is no room for it",
                plan_text::MAX_BYTES
            ),
        );
        return writeln!(out, "refused long\nstatus 2");
    }
    match plan_text::read(err, text) {
        Ok(draft) => write(rt, out, err, target, text, &draft),
        Err(wrong) => writeln!(out, "refused lines {}\nstatus 2", wrong.count),
    }
}
