// A plan file of the first layout, written anew in the layout of today: under a name that no file has. The old file stays as it is.
use durable::FileRead;
use input::PLAN_ROOM;
use reasons::records::header_word;
use show::answers;
use std::io;
use std::io::Write;
use std::rt::Files;

// Writes a table as a plan file under a new name.
// Kept: operator reaches no allocator (docs/TRUST.md), so the file lies in an array of the largest size.
fn written<R: Files, O: Write, E: Write>(
    rt: &R,
    out: &mut O,
    err: &mut E,
    new_path: &[u8],
    t: &[u32],
) -> io::Result<()> {
    let mut room = [0u8; files::MAX_FILE_BYTES];
    let Ok(n) = files::write_plan(t, &mut room) else {
        return Ok(());
    };
    let file = &room[..n];
    if durable::write_beside(rt, err, new_path, &[file])
        && durable::put_under_new_name(rt, err, new_path)
    {
        answers::converted(
            out,
            header_word(t, table::LEGS_AT),
            n,
            header_word(t, table::REVISION_AT),
        )?;
    }
    Ok(())
}

// The table of the old file is written.
// Kept: operator reaches no allocator (docs/TRUST.md), so the table lies in an array of the largest size.
fn converted<R: Files, O: Write, E: Write>(
    rt: &R,
    out: &mut O,
    err: &mut E,
    new_path: &[u8],
    old: &[u8],
) -> io::Result<()> {
    let mut words = [0u32; table::MAX_TABLE_WORDS];
    match editions::read_first(old, &mut words) {
        Ok(n) => written(rt, out, err, new_path, &words[..n]),
        Err(refusal) => {
            reasons::file::why_first(err, old, refusal);
            answers::plan_refused(out, refusal)
        }
    }
}

// Reads the old file and writes the new one.
// Kept: operator reaches no allocator (docs/TRUST.md), so the file lies in an array of the largest size, and what was read is a slice of it.
pub(crate) fn first<R: Files, O: Write, E: Write>(
    rt: &R,
    out: &mut O,
    err: &mut E,
    old_path: &[u8],
    new_path: &[u8],
) -> io::Result<()> {
    let mut room = [0u8; PLAN_ROOM];
    match durable::file(rt, err, old_path, &mut room) {
        FileRead::Bytes(old) => converted(rt, out, err, new_path, old)?,
        FileRead::Missing => durable::missing(err, old_path),
        FileRead::Failed => {}
    }
    Ok(())
}
