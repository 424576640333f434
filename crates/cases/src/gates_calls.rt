// The calls on gate lists and on their files, each with its answer and what became of the lent buffer printed. The list of a link is read from the file that was written,
// and printed in words: a mask and a duration in turn.
use crate::files_calls::{MARK, WORD_MARK};
use crate::{Call, Given, files_calls};
use std::alloc::Global;
use std::io;
use std::io::Write;

// How many bytes a line may lend for the list of a link. Every list has room in them.
const MAX_LENT: usize = 10240;

// Whether the lent bytes from the n-th on have their mark.
// Kept: n is what the call says it wrote; at a slice each caller would have to take the case apart in which n is too large.
fn unchanged<O: Write>(out: &mut O, bytes: &[u8], n: usize) -> io::Result<()> {
    let Some(rest) = bytes.get(n..) else {
        return Ok(());
    };
    if rest.iter().all(|byte| *byte == MARK) {
        let bytes = rest.len();
        writeln!(out, "rest: {bytes} unchanged")
    } else {
        writeln!(out, "rest: CHANGED")
    }
}

// The list of a link, in a file.
fn list<O: Write>(out: &mut O, alloc: Global, file: &[u8]) -> io::Result<()> {
    let bytes = file.len();
    write!(out, "bytes {bytes}: ")?;
    let mut words = vec![in alloc; WORD_MARK; gates::MAX_LIST_WORDS]?;
    match gate_files::read_list(file, &mut words) {
        Ok(n) => show::rest_words(out, words.get(..n).unwrap_or(&[]), 0),
        Err(refusal) => show::refused(out, refusal),
    }
}

fn gate_list<O: Write>(
    out: &mut O,
    alloc: Global,
    t: &[u32],
    link: u32,
    room: usize,
) -> io::Result<()> {
    if MAX_LENT < room {
        return Ok(());
    }
    let mut bytes = vec![in alloc; MARK; room]?;
    match gate_lists::write_gate_list(t, link, &mut bytes) {
        Ok(n) => {
            if let Some(file) = bytes.get(..n) {
                list(out, alloc, file)?;
            }
            unchanged(out, &bytes, n)
        }
        Err(refusal) => {
            show::refused(out, refusal)?;
            unchanged(out, &bytes, 0)
        }
    }
}

fn read_list<O: Write>(out: &mut O, alloc: Global, bytes: &[u8], room: usize) -> io::Result<()> {
    let Some(mut words) = files_calls::lent(alloc, WORD_MARK, room)? else {
        return Ok(());
    };
    let n = match gate_files::read_list(bytes, &mut words) {
        Ok(n) => {
            write!(out, "words {n}: ")?;
            show::rest_words(out, words.get(..n).unwrap_or(&[]), 0)?;
            n
        }
        Err(refusal) => {
            show::refused(out, refusal)?;
            0
        }
    };
    write!(out, "rest: ")?;
    show::rest_words(out, &words, n)
}

pub(crate) fn asked<O: Write>(out: &mut O, call: &Call<'_>, given: &Given) -> io::Result<bool> {
    let alloc = given.alloc;
    let numbers = &call.numbers;
    match call.verb {
        b"gate-list" => gate_list(out, alloc, &given.table, numbers.at(0), numbers.size(1))?,
        b"write-list" => files_calls::write(
            out,
            alloc,
            numbers.size(0),
            |bytes| gate_files::write_list(&given.table, bytes),
        )?,
        b"read-list" => read_list(out, alloc, &given.plan, numbers.size(0))?,
        _ => return Ok(false),
    }
    Ok(true)
}
