//! A plan written as its text. The text is read again first, and nothing is written unless it gives the plan back, word for word.
use plan_text::names::Names;
use plan_text::{Draft, Page, names};
use reasons::report;
use show::answers;
use std::io;
use std::io::Write;
use std::rt::Files;

/// Whether a text is that of a table.
fn is_text_of(text: &[u8], t: &[u32]) -> bool {
    plan_text::read(&mut io::sink(), text).is_ok_and(|draft| draft.table().as_slice() == t)
}

/// Writes the text of a draft if it gives the table back, and answers whether it was written.
// Kept: no length stands beside the array: the page has it.
fn is_written<O: Write>(out: &mut O, draft: &Draft, t: &[u32]) -> io::Result<bool> {
    let mut room = [0u8; plan_text::MAX_BYTES];
    let page = Page::of(draft, &mut room);
    let text = page.text();
    let is_whole = is_text_of(text, t);
    if is_whole {
        out.write_all(text)?;
        writeln!(out, "status 0")?;
    }
    Ok(is_whole)
}

fn without_names<O: Write, E: Write>(out: &mut O, err: &mut E, t: &[u32]) -> io::Result<()> {
    if !is_written(out, &Draft::of_table(t), t)? {
        report(
            err,
            "the text that was made does not give this plan back: nothing is written",
        );
    }
    Ok(())
}

/// With long names a text may have no room.
fn with_names<O: Write, E: Write>(
    out: &mut O,
    err: &mut E,
    names: &Names,
    t: &[u32],
) -> io::Result<()> {
    let draft = names.draft(err, t);
    if is_written(out, &draft, t)? {
        return Ok(());
    }
    report(
        err,
        format_args!(
            "with its names the text has no room in {} bytes: numbers are used in their place",
            plan_text::MAX_BYTES
        ),
    );
    without_names(out, err, t)
}

/// The plan on standard input, with the names that stand beside a path.
// Kept: no length stands beside the arrays: what was read is a slice of each.
fn beside<R: Files, O: Write, E: Write>(
    rt: &R,
    out: &mut O,
    err: &mut E,
    path: &[u8],
    t: &[u32],
) -> io::Result<()> {
    let mut path_room = [0u8; names::MAX_PATH];
    let mut text = [0u8; plan_text::TEXT_ROOM];
    let names = Names::beside(rt, err, path, &mut path_room, &mut text);
    with_names(out, err, &names, t)
}

/// The plan on standard input, with the names that stand beside a path, or without any.
// Kept: no length stands beside the array: the largest plan has room in it, and what was read is a slice of it.
pub(crate) fn of<R: Files + Input, O: Write, E: Write>(
    rt: &R,
    out: &mut O,
    err: &mut E,
    path: &[u8],
) -> io::Result<()> {
    let mut words = [0u32; table::MAX_TABLE_WORDS];
    match input::given_plan(rt, err, &mut words)? {
        Ok(t) if path.is_empty() => without_names(out, err, t),
        Ok(t) => beside(rt, out, err, path, t),
        Err(refusal) => answers::plan_refused(out, refusal),
    }
}
