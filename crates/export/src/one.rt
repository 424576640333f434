// The gate list of one link: printed, or written beside the name of a new file.
use crate::form::{Form, ROOM};
use crate::{judge, out, why};
use basics::Refusal;
use gate_lists::AskedLink;
use show::answers;
use std::io;
use std::io::Write;
use std::rt::Files;

/// The list of a link of an accepted plan, or why it has none.
// Kept: the list is written into lent words, and comes back as a slice of them; nothing is allocated.
pub(crate) fn list_of_accepted<'r>(
    asked: &AskedLink<'_>,
    words: &'r mut [u32; gates::MAX_LIST_WORDS],
) -> Result<&'r [u32], Refusal> {
    let pairs = asked.list(words)?;
    Ok(words.get(..2 * pairs).unwrap_or(&[]))
}

// The list of a link. Where it is refused, that is the answer, and it is written.
fn list_of<'r, O: Write, E: Write>(
    out: &mut O,
    err: &mut E,
    t: &[u32],
    link: u32,
    words: &'r mut [u32; gates::MAX_LIST_WORDS],
) -> io::Result<Option<&'r [u32]>> {
    let asked = match AskedLink::judge(t, link) {
        Ok(asked) => asked,
        Err(refusal) => {
            judge::refused(out, err, t, link, refusal)?;
            return Ok(None);
        }
    };
    match list_of_accepted(&asked, words) {
        Ok(list) => Ok(Some(list)),
        Err(refusal) => {
            why::link_refused(err, t, link, refusal);
            answers::plan_refused(out, refusal)?;
            Ok(None)
        }
    }
}

/// Prints the list of a link.
// Kept: the list and its text are written into lent arrays, and come back as slices of them.
pub(crate) fn printed<O: Write, E: Write>(
    out: &mut O,
    err: &mut E,
    t: &[u32],
    link: u32,
    form: Form<'_>,
) -> io::Result<()> {
    let mut words = [0u32; gates::MAX_LIST_WORDS];
    let Some(list) = list_of(out, err, t, link, &mut words)? else {
        return Ok(());
    };
    why::empty(err, link, list);
    if !form.is_for_tc() {
        return out::pairs(out, list);
    }
    why::cut_by_tc(err, link, list, form);
    if form.sets_a_part(list) {
        return out::no_command(out);
    }
    let mut room = [0u8; ROOM];
    match form.for_tc(list, &mut room) {
        Some(text) => out::for_tc(out, text),
        None => Ok(()),
    }
}

/// Writes the list of a link beside the name of a new file.
// Kept: the list and its bytes are written into lent arrays, and come back as slices of them.
pub(crate) fn written<R: Files, O: Write, E: Write>(
    rt: &R,
    out: &mut O,
    err: &mut E,
    t: &[u32],
    link: u32,
    path: &[u8],
    form: Form<'_>,
) -> io::Result<()> {
    let mut words = [0u32; gates::MAX_LIST_WORDS];
    let Some(list) = list_of(out, err, t, link, &mut words)? else {
        return Ok(());
    };
    let mut room = [0u8; ROOM];
    let Some(bytes) = form.file(list, &mut room) else {
        return Ok(());
    };
    why::empty(err, link, list);
    why::cut_by_tc(err, link, list, form);
    if form.sets_a_part(list) {
        return out::no_command(out);
    }
    if durable::write_beside(rt, err, path, &[bytes]) {
        out::written(out, t, link, list, bytes.len())?;
    }
    Ok(())
}
