// Plan files and saved cursors, as bytes: the calls that read and write them. The layers above see what these promise and nothing else.
#![tactic(auto)]

ghost use Rattle.files.specs.Plan.{ReadsPlan, WritesPlan};
ghost use Rattle.files.specs.Cursors.{ReadsCursor, WritesCursor};

use basics::{Cause, Refusal};

pub mod look;
pub mod one_pass;

/// How many numbers a saved cursor has.
pub const CURSOR_NUMBERS: usize = 3;

/// The most bytes that a plan file has: five for each word.
pub const MAX_FILE_BYTES: usize = 5 * table::MAX_TABLE_WORDS;

/// The most bytes that a saved cursor has.
pub const MAX_CURSOR_BYTES: usize = 5 * CURSOR_NUMBERS;

/// Where a check stands: the table's revision, and the place of a leg.
#[derive(Clone, Copy, Debug, PartialEq, Eq)]
pub struct Cursor {
    pub revision: u32,
    pub leg: u32,
    pub place: u32,
}

/// A refusal, and the cursor as it was given.
#[derive(Clone, Copy, Debug, PartialEq, Eq)]
pub struct Returned {
    pub refusal: Refusal,
    pub cursor: Cursor,
}

/// Reads a plan file into lent words, and returns how many words its table has: it is in the first of them. Refused 12, 13, 2, 14 or 15.
// Kept: docs/CALLS.md names this call, and ReadsPlan says how many of the lent words are the table.
pub fn read_plan(bytes: &[u8], words: &mut [u32]) -> Result<usize, Refusal>
    ensures { ReadsPlan bytes.now words.old result words.new }
{
    let size = look::plan_size(table::CURRENT, bytes)?;
    if words.len() < size {
        return Err(Cause::NoRoom.at(0));
    }
    numbers::series::fill(bytes, 0, size, words);
    Ok(size)
}

/// Writes a table as a plan file to lent bytes, and returns how many bytes it has: it is in the first of them. Refused 1, 2, 3 or 15.
// Kept: docs/CALLS.md names this call, and WritesPlan says how many of the lent bytes are the file.
pub fn write_plan(table: &[u32], bytes: &mut [u8]) -> Result<usize, Refusal>
    ensures { WritesPlan table.now bytes.old result bytes.new }
{
    table::judged_size(table)?;
    let size = numbers::series::file_size(table);
    if bytes.len() < size {
        return Err(Cause::NoRoom.at(0));
    }
    numbers::series::put_file(table, bytes);
    Ok(size)
}

/// Reads a saved cursor. Refused 12, 13 or 14.
pub fn read_cursor(bytes: &[u8]) -> Result<Cursor, Refusal>
    ensures { ReadsCursor bytes.now result }
{
    // Kept: the library allocates nothing, so the three numbers lie in an array of their own.
    let mut words = [0u32; CURSOR_NUMBERS];
    let end = numbers::series::take_words(bytes, 0, &mut words)?;
    numbers::end_of(bytes, end)?;
    Ok(Cursor {
        revision: words[0],
        leg: words[1],
        place: words[2],
    })
}

/// Writes a cursor to lent bytes, and returns how many bytes it has: it is in the first of them. Refused 15, with the cursor as it was given.
// Kept: it ends as write_plan does, but its refusal gives the cursor back; one function for both would be three lines and a conversion.
pub fn write_cursor(cursor: Cursor, bytes: &mut [u8]) -> Result<usize, Returned>
    ensures { WritesCursor cursor bytes.old result bytes.new }
{
    let words = [cursor.revision, cursor.leg, cursor.place];
    let size = numbers::series::file_size(&words);
    if bytes.len() < size {
        return Err(Returned {
            refusal: Cause::NoRoom.at(0),
            cursor,
        });
    }
    numbers::series::put_file(&words, bytes);
    Ok(size)
}
