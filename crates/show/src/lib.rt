// What the programs print to standard output. No contract can say what a call of the operating system writes, so these promise only to be
// safe and to end; the programs' expected output tests the rest.
#![tactic(auto)]

use basics::Refusal;
use std::io;
use std::io::Write;

pub mod answers;
pub mod told;

/// Prints a refusal's number and position, and ends no line.
pub fn refusal<O: Write>(out: &mut O, refusal: Refusal) -> io::Result<()> {
    let number = u32::from(refusal.cause);
    let at = refusal.at;
    write!(out, "refused {number} {at}")
}

/// Prints a refusal's line.
pub fn refused<O: Write>(out: &mut O, refused: Refusal) -> io::Result<()> {
    refusal(out, refused)?;
    writeln!(out)
}

/// Prints bytes in hexadecimal, two digits each, on one line.
pub fn bytes<O: Write>(out: &mut O, bytes: &[u8]) -> io::Result<()> {
    if let Some((first, others)) = bytes.split_first() {
        write!(out, "{first:02x}")?;
        for byte in others {
            write!(out, " {byte:02x}")?;
        }
    }
    writeln!(out)
}

/// Prints words, width of them to a line. After a last line that has fewer is a blank, and no end of a line.
pub fn rows<O: Write>(out: &mut O, words: &[u32], width: usize) -> io::Result<()> {
    for row in words.chunks(width.max(1)) {
        for (i, word) in row.iter().enumerate() {
            let end = if i + 1 < width { " " } else { "\n" };
            write!(out, "{word}{end}")?;
        }
    }
    Ok(())
}

/// Prints a table, a record to a line: header, links, streams, legs. Where its size is refused it prints that, and returns false.
// Kept: callers ask only whether the table was printed; a refusal is printed here and goes no further.
pub fn table<O: Write>(out: &mut O, t: &[u32]) -> io::Result<bool> {
    if let Err(refusal) = table::judged_size(t) {
        refused(out, refusal)?;
        return Ok(false);
    }
    rows(out, &t[..table::HEAD_WORDS], table::HEAD_WORDS)?;
    rows(out, table::parts::link_part(t), table::LINK_WORDS)?;
    rows(out, table::parts::stream_part(t), table::STREAM_WORDS)?;
    rows(out, table::parts::leg_part(t), table::LEG_WORDS)?;
    Ok(true)
}

/// Prints the table in the first n words of a buffer, where it has as many.
// Kept: n is what a call says of words that were lent to it; at a slice each caller would have to take the case apart in which n is too large.
pub fn first_words<O: Write>(out: &mut O, words: &[u32], n: usize) -> io::Result<()> {
    if let Some(t) = words.get(..n) {
        table(out, t)?;
    }
    Ok(())
}

/// Prints the words of a buffer from the n-th on, on one line.
// Kept: n is what a call says of words that were lent to it; at a slice each caller would have to take the case apart in which n is too large.
pub fn rest_words<O: Write>(out: &mut O, words: &[u32], n: usize) -> io::Result<()> {
    match words.get(n..) {
        Some(rest) if !rest.is_empty() => rows(out, rest, rest.len()),
        _ => out.write_all(b"none\n"),
    }
}
