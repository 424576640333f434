// The calls on numbers, plan files and saved cursors, each with its answer and the whole lent buffer printed.
use crate::{Call, Given, table_calls, text};
use basics::Refusal;
use files::{Cursor, Returned};
use numbers::Number;
use std::alloc::{AllocError, Global};
use std::io;
use std::io::Write;

/// The marks of lent bytes and words, and how many of them a list may ask for.
pub(crate) const MARK: u8 = 0xEE;

pub(crate) const WORD_MARK: u32 = 7777;

const MAX_ROOM: usize = 64;

/// Lent bytes or words, all with their mark, or None where a line asks for more than it may.
pub(crate) fn lent<T: Copy>(
    alloc: Global,
    mark: T,
    room: usize,
) -> Result<Option<Vec<T>>, AllocError> {
    if MAX_ROOM < room {
        return Ok(None);
    }
    Ok(Some(vec![in alloc; mark; room]?))
}

fn read_number<O: Write>(out: &mut O, bytes: &[u8], at: usize) -> io::Result<()> {
    match numbers::read_number(bytes, at) {
        Ok(Number { value, next }) => writeln!(out, "number {value} next {next}"),
        Err(refusal) => show::refused(out, refusal),
    }
}

// Prints how many bytes were written, and all that were lent.
fn written<O: Write>(out: &mut O, answer: Result<usize, Refusal>, bytes: &[u8]) -> io::Result<()> {
    match answer {
        Ok(n) => write!(out, "bytes {n}: ")?,
        Err(refusal) => {
            show::refused(out, refusal)?;
            write!(out, "rest: ")?;
        }
    }
    show::bytes(out, bytes)
}

/// A call that writes into lent bytes, of which a line asks for so many.
// Kept: write, read_plan and with_one lend once; one for all would take type, mark, call and what prints the answer, and be no shorter.
pub(crate) fn write<O: Write, F: FnOnce(&mut [u8]) -> Result<usize, Refusal>>(
    out: &mut O,
    alloc: Global,
    room: usize,
    call: F,
) -> io::Result<()>
    requires { F.IsAlwaysCallable call }
{
    match lent(alloc, MARK, room)? {
        Some(mut bytes) => {
            let answer = call(&mut bytes);
            written(out, answer, &bytes)
        }
        None => Ok(()),
    }
}

fn write_number<O: Write>(
    out: &mut O,
    alloc: Global,
    x: u32,
    at: usize,
    room: usize,
) -> io::Result<()> {
    write(
        out,
        alloc,
        room,
        |bytes| numbers::write_number(x, bytes, at),
    )
}

fn read_cursor<O: Write>(out: &mut O, bytes: &[u8]) -> io::Result<()> {
    match files::read_cursor(bytes) {
        Ok(cursor) => {
            table_calls::cursor(out, cursor)?;
            writeln!(out)
        }
        Err(refusal) => show::refused(out, refusal),
    }
}

fn write_cursor<O: Write>(
    out: &mut O,
    alloc: Global,
    cursor: Cursor,
    room: usize,
) -> io::Result<()> {
    let Some(mut bytes) = lent(alloc, MARK, room)? else {
        return Ok(());
    };
    match files::write_cursor(cursor, &mut bytes) {
        Ok(n) => written(out, Ok(n), &bytes),
        Err(Returned { refusal, cursor }) => {
            written(out, Err(refusal), &bytes)?;
            table_calls::given_back(out, cursor)
        }
    }
}

fn plan_read<O: Write>(
    out: &mut O,
    answer: Result<usize, Refusal>,
    words: &[u32],
) -> io::Result<()> {
    let n = match answer {
        Ok(n) => {
            writeln!(out, "words {n}:")?;
            show::first_words(out, words, n)?;
            n
        }
        Err(refusal) => {
            show::refused(out, refusal)?;
            0
        }
    };
    write!(out, "rest: ")?;
    show::rest_words(out, words, n)
}

// A plan that a reader puts into lent words, of which a line asks for so many.
fn read_plan<O: Write, F: FnOnce(&mut [u32]) -> Result<usize, Refusal>>(
    out: &mut O,
    alloc: Global,
    room: usize,
    read: F,
) -> io::Result<()>
    requires { F.IsAlwaysCallable read }
{
    match lent(alloc, WORD_MARK, room)? {
        Some(mut words) => {
            let answer = read(&mut words);
            plan_read(out, answer, &words)
        }
        None => Ok(()),
    }
}

fn compared<O: Write>(out: &mut O, a: &[u32], b: &[u32]) -> io::Result<()> {
    let word = if a == b { "same" } else { "DIFFERENT" };
    writeln!(out, "{word}")
}

fn count<O: Write>(out: &mut O, answer: Result<usize, Refusal>) -> io::Result<()> {
    match answer {
        Ok(n) => writeln!(out, "words {n}"),
        Err(refusal) => show::refused(out, refusal),
    }
}

// The file that was written of a table: read back, and read into one word too few.
fn read_largest<O: Write>(
    out: &mut O,
    alloc: Global,
    bytes: &[u8],
    table: &[u32],
) -> io::Result<()> {
    let mut words = vec![in alloc; 0u32; table::MAX_TABLE_WORDS]?;
    count(out, files::read_plan(bytes, &mut words))?;
    compared(out, table, &words)?;
    let marked = vec![in alloc; WORD_MARK; table::MAX_TABLE_WORDS - 1]?;
    let mut short = vec![in alloc; WORD_MARK; table::MAX_TABLE_WORDS - 1]?;
    count(out, files::read_plan(bytes, &mut short))?;
    compared(out, &marked, &short)
}

// A table as long as any, with the words of a text in front and all else at the largest word: written, read back, and read into one word too few.
fn largest<O: Write>(out: &mut O, alloc: Global, front: &[u8]) -> io::Result<()> {
    let mut table = vec![in alloc; u32::MAX; table::MAX_TABLE_WORDS]?;
    for (word, given) in table.iter_mut().zip(text::words(alloc, front)?.iter()) {
        *word = *given;
    }
    let mut bytes = vec![in alloc; 0u8; files::MAX_FILE_BYTES]?;
    match files::write_plan(&table, &mut bytes) {
        Ok(n) => {
            writeln!(out, "bytes {n}")?;
            match bytes.get(..n) {
                Some(file) => read_largest(out, alloc, file, &table),
                None => Ok(()),
            }
        }
        Err(refusal) => show::refused(out, refusal),
    }
}

pub(crate) fn asked<O: Write>(out: &mut O, call: &Call<'_>, given: &Given) -> io::Result<bool> {
    let alloc = given.alloc;
    let numbers = &call.numbers;
    match call.verb {
        b"read-plan" => read_plan(
            out,
            alloc,
            numbers.size(0),
            |words| files::read_plan(&given.plan, words),
        )?,
        b"read-first" => read_plan(
            out,
            alloc,
            numbers.size(0),
            |words| editions::read_first(&given.plan, words),
        )?,
        b"write-plan" => write(
            out,
            alloc,
            numbers.size(0),
            |bytes| files::write_plan(&given.table, bytes),
        )?,
        b"largest" => largest(out, alloc, call.rest)?,
        b"read-number" => read_number(out, &given.plan, numbers.size(0))?,
        b"write-number" => write_number(
            out,
            alloc,
            numbers.at(0),
            numbers.size(1),
            numbers.size(2),
        )?,
        b"write-number-last" => write_number(
            out,
            alloc,
            numbers.at(0),
            usize::MAX,
            numbers.size(1),
        )?,
        b"read-cursor" => read_cursor(out, &given.saved)?,
        b"write-cursor" => write_cursor(out, alloc, given.cursor, numbers.size(0))?,
        _ => return Ok(false),
    }
    Ok(true)
}
