// A plan file read in one pass, into words of which nothing is promised after a refusal.
ghost use Rattle.std.specs.Prelude.{◌≤◌, length, take};
ghost use Rattle.numbers.specs.Series.{Row};
ghost use Rattle.table.specs.Layout.{head_words, max_table_words};
ghost use Rattle.files.specs.Plan.{TakesPlan};

use basics::{Cause, Refusal};
use numbers::series;

/// Internal: reads a plan file into words that have room for any table, and that nobody reads after a refusal. Returns how many words its table has.
/// Refused 12, 13, 2 or 14.
// Kept: read_plan leaves the lent words as they were on a refusal, so it goes over the bytes twice; this goes once and promises nothing then.
pub fn take_plan(bytes: &[u8], words: &mut [u32]) -> Result<usize, Refusal>
    requires { max_table_words ≤ length words.old }
    ensures { TakesPlan bytes.now result words.new }
{
    let next = series::take_words(bytes, 0, &mut words[..table::HEAD_WORDS])?;
    take_records(bytes, next, words)
}

// The records after a header that was taken from the start up to next.
fn take_records(bytes: &[u8], next: usize, words: &mut [u32]) -> Result<usize, Refusal>
    requires max_table_words_in_bounds { max_table_words ≤ length words.old }
    requires row { Row bytes.now 0 (take head_words words.old) next }
    ensures { TakesPlan bytes.now result words.new }
{
    let Some(size) = table::header_words(table::CURRENT, &words[..table::HEAD_WORDS]) else {
        return Err(Cause::AboveLimit.at(0));
    };
    let end = series::take_words(bytes, next, &mut words[table::HEAD_WORDS..size])?;
    numbers::end_of(bytes, end)?;
    Ok(size)
}
