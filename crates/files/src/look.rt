// A plan file of any edition looked through before anything is written: the header, its limits, the records, and that nothing is left over.
ghost use Rattle.std.specs.Prelude.{◌≡◌, length};
ghost use Rattle.numbers.specs.Series.{Row};
ghost use Rattle.table.specs.Layout.{head_words};
ghost use Rattle.files.specs.Steps.{PlanTold};

use basics::{Cause, Refusal};
use numbers::series;
use table::Edition;

/// Internal: how many words the table of a plan file has. Refused 12, 13, 2 or 14.
pub fn plan_size(e: Edition, bytes: &[u8]) -> Result<usize, Refusal>
    ensures { PlanTold e bytes.now result }
{
    // Kept: the library allocates nothing, and a refusal leaves the lent words as they were, so the header lies in an array of its own.
    let mut head = [0u32; table::HEAD_WORDS];
    let next = series::take_words(bytes, 0, &mut head)?;
    after_header(e, bytes, next, &head)
}

// The same after a header that was taken from the start up to next.
fn after_header(e: Edition, bytes: &[u8], next: usize, head: &[u32]) -> Result<usize, Refusal>
    requires head_len { length head.now ≡ head_words }
    requires row { Row bytes.now 0 head.now next }
    ensures { PlanTold e bytes.now result }
{
    let Some(size) = table::header_words(e, head) else {
        return Err(Cause::AboveLimit.at(0));
    };
    let end = series::look_through(bytes, next, size - table::HEAD_WORDS)?;
    numbers::end_of(bytes, end)?;
    Ok(size)
}
