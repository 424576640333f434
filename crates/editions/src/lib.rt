// Plan files of older layouts, read into tables of today. Files carry no mark: whoever reads names the layout.
#![tactic(auto)]

ghost use Rattle.std.specs.Prelude.{◌+◌, ◌*◌, ◌≤◌, length};
ghost use Rattle.numbers.specs.Steps.{AllNumbers};
ghost use Rattle.editions.specs.Converted.{Older};
ghost use Rattle.editions.specs.Reading.{ReadsOld, ReadsFirst};
ghost use Rattle.editions.specs.Steps.{OldFile, Counted, Converts, FilledOn, FilledWider};

use basics::{Cause, Refusal};
use numbers::series;
use table::Edition;

/// What is put where a record of an older layout has no word.
pub const NEW_WORD: u32 = 0;

/// Reads a plan file of the first layout into lent words, as a table of today, and returns how many words it has: it is in the first of them.
/// Refused 12, 13, 2, 14 or, by the length of the table of today, 15.
// Kept: docs/CALLS.md names this call and `ReadsFirst` its answer: a number of lent words.
pub fn read_first(bytes: &[u8], words: &mut [u32]) -> Result<usize, Refusal>
    ensures { ReadsFirst bytes.now words.old result words.new }
{
    read_old(table::FIRST_LAYOUT, bytes, words)
}

// The same of any older layout.
fn read_old(e: Edition, bytes: &[u8], words: &mut [u32]) -> Result<usize, Refusal>
    requires { Older e }
    ensures { ReadsOld e bytes.now words.old result words.new }
{
    files::look::plan_size(e, bytes)?;
    convert(e, bytes, words)
}

// The same of bytes that are the file of a table: its table of today, or 15.
// Kept: a header has as many words in every table, so its array is of that size, and no length lies beside it.
fn convert(e: Edition, bytes: &[u8], words: &mut [u32]) -> Result<usize, Refusal>
    requires older { Older e }
    requires old_file { OldFile e bytes.now }
    ensures { ReadsOld e bytes.now words.old result words.new }
{
    let mut head = [0u32; table::HEAD_WORDS];
    series::fill(bytes, 0, table::HEAD_WORDS, &mut head);
    let size = table::header_words(table::CURRENT, &head).ok_or(Cause::AboveLimit.at(0))?;
    if words.len() < size {
        return Err(Cause::NoRoom.at(0));
    }
    let links = head[table::LINKS_AT];
    let streams = head[table::STREAMS_AT];
    let legs = head[table::LEGS_AT];
    put_converted(e, bytes, links, streams, legs, words);
    Ok(size)
}

// Header and links as they are, then each stream and each leg made as wide as today's.
// Kept: Counted says of each of the three counts what it is in the file's table; of `head` in their place it would owe what its words are as well.
fn put_converted(e: Edition, bytes: &[u8], links: u32, streams: u32, legs: u32, out: &mut [u32])
    requires older { Older e }
    requires counted { Counted e bytes.now links streams legs out.old }
    ensures { Converts e bytes.now out.old out.new }
{
    let at_streams = table::HEAD_WORDS + table::part_words(e.link, links);
    let at_legs = at_streams + table::part_words(table::CURRENT.stream, streams);
    let first_stream = fill_on(bytes, 0, at_streams, out, 0);
    let first_leg = fill_wider(
        bytes,
        first_stream,
        streams,
        e.stream,
        table::CURRENT.stream,
        out,
        at_streams,
    );
    fill_wider(
        bytes,
        first_leg,
        legs,
        e.leg,
        table::CURRENT.leg,
        out,
        at_legs,
    );
}

// Takes so many records of width numbers into a buffer from a position on, each made wide words long, and returns the position after them.
// Kept: `FilledWider` says what all of the buffer is then; parts of it, by chunks_exact_mut, would owe that again for what lies before and after them.
// Kept: the two calls differ in five of the parameters and share bytes and out alone, so a type for the others would be built for one call each.
fn fill_wider(
    bytes: &[u8],
    from: usize,
    records: u32,
    width: u8,
    wide: u8,
    out: &mut [u32],
    to: usize,
) -> usize
    requires all_numbers { AllNumbers bytes.now from (width * records) }
    requires width_le_wide { (width ≤ wide) × (to + wide * records ≤ length out.old) }
    ensures { FilledWider bytes.now from records width wide out.old to result out.new }
{
    let own = width as usize;
    let all = wide as usize;
    let mut at = from;
    let mut next = to;
    for _ in 0..records {
        at = fill_on(bytes, at, own, out, next);
        out[next + own..next + all].fill(NEW_WORD);
        next += all;
    }
    at
}

// Takes numbers that were looked through, so that none is refused, into a buffer from a position on, and returns the position after them.
// Kept: `FilledOn` says what all of the buffer is then; with a part of it lent, each caller would owe that for the rest.
fn fill_on(bytes: &[u8], from: usize, count: usize, out: &mut [u32], to: usize) -> usize
    requires all_numbers { AllNumbers bytes.now from count }
    requires count_in_bounds { to + count ≤ length out.old }
    ensures { FilledOn bytes.now from count out.old to result out.new }
{
    series::take_words(bytes, from, &mut out[to..to + count]).unwrap()
}
