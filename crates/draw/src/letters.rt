//! A name that somebody gave, as a text of a picture: letters that XML takes for its own are written otherwise, bytes that are no letter become '?', and what has
//! no room is cut off.
ghost use Rattle.std.specs.Prelude.{◌≤◌, length};
ghost use Rattle.std.specs.Iterator.{at_most};

use std::io;
use std::io::Write;

/// How many bytes the first letter of a name has, and 0 where none that can be shown stands there. No letter is written longer than it has to be, and none is half of a pair, past the last one
/// or a control, shows nothing, or turns the direction of what is written.
// Kept: utf8_chunks takes letters that show nothing or turn the direction, and gives the bytes of a broken one together; here each is a '?'.
fn letter(name: &[u8]) -> usize
    ensures { result ≤ 4 }
{
    match name {
        [0x20..=0x7E, ..] => 1,
        [0xC2, 0xA0..=0xBF, ..] | [0xC3..=0xDF, 0x80..=0xBF, ..] => 2,
        [0xE2, 0x80, 0x8B..=0x8F | 0xA8..=0xAE, ..] | [0xE2, 0x81, 0xA0..=0xBF, ..] => 0,
        [0xE0, 0xA0..=0xBF, 0x80..=0xBF, ..]
        | [0xE1..=0xEC | 0xEE, 0x80..=0xBF, 0x80..=0xBF, ..]
        | [0xED, 0x80..=0x9F, 0x80..=0xBF, ..]
        | [0xEF, 0x80..=0xBA, 0x80..=0xBF, ..] => 3,
        [0xF0, 0x90..=0xBF, 0x80..=0xBF, 0x80..=0xBF, ..]
        | [0xF1..=0xF3, 0x80..=0xBF, 0x80..=0xBF, 0x80..=0xBF, ..]
        | [0xF4, 0x80..=0x8F, 0x80..=0xBF, 0x80..=0xBF, ..] => 4,
        _ => 0,
    }
}

/// The letters of a name, each with its bytes, and '?' for a byte of none.
#[derive(Clone, Copy, Debug, Drop)]
struct Letters<'a>(&'a [u8]);

impl<'a> Iterator for Letters<'a> {
    type Item = &'a [u8];

    ghost remaining = { λ s. at_most (length s.0.now) };

    fn next(&mut self) -> Option<&'a [u8]> {
        let count = letter(self.0);
        let (first, others) = self.0.split_at_checked(count.max(1))?;
        self.0 = others;
        if count == 0 {
            return Some(b"?");
        }
        Some(first)
    }
}

/// How many columns a letter takes: letters of three bytes and more may be wide.
fn columns(letter: &[u8]) -> u64 {
    if 2 < letter.len() { 2 } else { 1 }
}

fn put<O: Write>(out: &mut O, letter: &[u8]) -> io::Result<()> {
    match letter {
        b"&" => out.write_all(b"&amp;"),
        b"<" => out.write_all(b"&lt;"),
        b">" => out.write_all(b"&gt;"),
        b"\"" => out.write_all(b"&quot;"),
        _ => out.write_all(letter),
    }
}

/// Prints the letters that have room in so many columns.
fn put_first<O: Write>(out: &mut O, name: &[u8], room: u64) -> io::Result<()> {
    let mut used: u64 = 0;
    for letter in Letters(name) {
        used = used.saturating_add(columns(letter));
        if room < used {
            return Ok(());
        }
        put(out, letter)?;
    }
    Ok(())
}

/// Prints a name in so many columns.
pub(crate) fn within<O: Write>(out: &mut O, name: &[u8], room: u64) -> io::Result<()> {
    let all = Letters(name).fold(0, |all: u64, letter| all.saturating_add(columns(letter)));
    if all <= room {
        return put_first(out, name, room);
    }
    put_first(out, name, room.saturating_sub(1))?;
    write!(out, "\u{2026}")
}
