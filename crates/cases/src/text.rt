// The lines of a list: words between single spaces, decimal numbers, and bytes in hexadecimal.
ghost use Rattle.std.specs.Prelude.{◌≤◌};

use files::Cursor;
use std::alloc::{AllocError, Global};

/// The numbers of a line. One that is missing is 0.
#[derive(Drop)]
pub(crate) struct Numbers {
    words: Vec<u32>,
}

impl Numbers {
    pub(crate) fn of(alloc: Global, text: &[u8]) -> Result<Numbers, AllocError> {
        let words = words(alloc, text)?;
        Ok(Numbers { words })
    }

    pub(crate) fn at(&self, i: usize) -> u32 {
        self.words.get(i).copied().unwrap_or(0)
    }

    pub(crate) fn size(&self, i: usize) -> usize {
        self.at(i) as usize
    }

    /// The cursor of the first three numbers.
    pub(crate) fn cursor(&self) -> Cursor {
        Cursor {
            revision: self.at(0),
            leg: self.at(1),
            place: self.at(2),
        }
    }
}

/// What is before a byte where it is first, and what is after it.
pub(crate) fn split_once(text: &[u8], at: u8) -> Option<(&[u8], &[u8])> {
    let i = text.iter().position(|byte| *byte == at)?;
    Some((&text[..i], &text[i + 1..]))
}

/// The words of a text, each after a space.
pub(crate) fn words_of<'t>(alloc: Global, text: &'t [u8]) -> Result<Vec<&'t [u8]>, AllocError> {
    match text.split_first() {
        Some((_, words)) => words.split(|byte| *byte == b' ').collect(alloc),
        None => Ok(Vec::new(alloc)),
    }
}

/// The words of a text as decimal numbers. What is no number is 0.
pub(crate) fn words(alloc: Global, text: &[u8]) -> Result<Vec<u32>, AllocError> {
    words_of(alloc, text)?
        .iter()
        .map(|word| decimal::read_decimal(word).unwrap_or(0))
        .collect(alloc)
}

/// The value of a digit in hexadecimal. What is no digit is 0.
// Kept: char::to_digit takes capital letters too, which count as 0 here; what the program takes stays.
pub(crate) fn digit(byte: u8) -> u8
    ensures { result ≤ 15 }
{
    match byte {
        b'0'..=b'9' => byte - b'0',
        b'a'..=b'f' => byte - b'a' + 10,
        _ => 0,
    }
}

// A byte of two digits in hexadecimal.
// Kept: a byte that is no digit counts as 0, where from_str_radix refuses the word; what the program takes stays.
fn octet(word: &[u8]) -> u8 {
    match word {
        [high, low, ..] => 16 * digit(*high) + digit(*low),
        _ => 0,
    }
}

/// The words of a text as bytes.
pub(crate) fn bytes(alloc: Global, text: &[u8]) -> Result<Vec<u8>, AllocError> {
    words_of(alloc, text)?
        .iter()
        .map(|word| octet(word))
        .collect(alloc)
}
