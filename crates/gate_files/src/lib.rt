// Gate list files, as bytes: the calls that read and write them.
#![tactic(auto)]

ghost use Rattle.gate_files.specs.ListFiles.{ReadsList, WritesList};
ghost use Rattle.gate_files.specs.Steps.{CountTold};

use basics::{Cause, Refusal};

// Counts all bytes as numbers.
// Kept: a number has one to five bytes, so the place goes on by unequal steps, up to the first that is refused.
fn count(bytes: &[u8]) -> Result<usize, Refusal>
    ensures { CountTold bytes.now result }
{
    let mut at: usize = 0;
    let mut n: usize = 0;
    while at < bytes.len() {
        at = numbers::read_number(bytes, at)?.next;
        n += 1;
    }
    Ok(n)
}

/// Reads a list file into lent words, and returns how many words its list has: it is in the first of them, a mask and a duration in turn. Refused 12, 13 or 15.
// Kept: docs/CALLS.md names this call and `ReadsList` its answer: a number of lent words, which C takes as it is.
#[tactic(auto, using(crate::proofs::Counting::no_room_read, crate::proofs::Counting::list_read))]
pub fn read_list(bytes: &[u8], words: &mut [u32]) -> Result<usize, Refusal>
    ensures { ReadsList bytes.now words.old result words.new }
{
    let n = count(bytes)?;
    if n % 2 != 0 {
        return Err(Cause::BytesEnd.at(bytes.len()));
    }
    if words.len() < n {
        return Err(Cause::NoRoom.at(0));
    }
    numbers::series::fill(bytes, 0, n, words);
    Ok(n)
}

/// Writes words, a mask and a duration in turn, as a list file to lent bytes, and returns how many bytes it has: it is in the first of them.
/// Refused 12 for half a pair, or 15.
// Kept: docs/CALLS.md names this call and `WritesList` its answer: a number of lent bytes, which C takes as it is.
#[tactic(auto, using(crate::proofs::Counting::no_room_written))]
pub fn write_list(words: &[u32], bytes: &mut [u8]) -> Result<usize, Refusal>
    ensures { WritesList words.now bytes.old result bytes.new }
{
    let size = numbers::series::file_size(words);
    if words.len() % 2 != 0 {
        return Err(Cause::BytesEnd.at(size));
    }
    if bytes.len() < size {
        return Err(Cause::NoRoom.at(0));
    }
    numbers::series::put_file(words, bytes);
    Ok(size)
}
