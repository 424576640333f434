// What C is told in numbers, and the cursor that comes back.
ghost use Rattle.std.specs.Prelude.{◌≡◌, ◌≤◌, length};
ghost use Rattle.basics.specs.Cause.{number_of};
ghost use Rattle.files.specs.Theorems.{max_cursor_bytes};
ghost use Rattle.host.specs.Answers.{refused_result, rule_result, refusal, with_cursor};
ghost use Rattle.host.specs.Steps.{Small};

use crate::Answer;
use basics::{Cause, Refusal};
use files::Cursor;
use rules::Rule;

// What is added to a refusal's number.
const REFUSED: u32 = 100;

// The result of a refusal.
pub(crate) fn refused_result(cause: Cause) -> u32
    ensures { result ≡ refused_result (number_of cause) }
{
    REFUSED + u32::from(cause)
}

// A refusal, with its position.
// Kept: no From, since a conversion by From could not ask that the position of a refusal fits a word.
pub(crate) fn refused(r: Refusal) -> Answer
    requires { Small r.cause r.at }
    ensures { result ≡ refusal r.cause r.at }
{
    Answer {
        result: refused_result(r.cause),
        beside: r.at as u32,
    }
}

// The number of a violated rule.
// Kept: no From, since neither Rule nor u32 is a type of this crate; the numbers are those of the C interface.
pub(crate) fn rule_result(rule: Rule) -> u32
    ensures { result ≡ rule_result rule }
{
    match rule {
        Rule::Window => 2,
        Rule::Hop => 3,
        Rule::Deadline => 4,
        Rule::Overlap => 5,
    }
}

// Writes a cursor to bytes that have room for any.
pub(crate) fn put_back(cursor: Cursor, out: &mut [u8])
    requires { max_cursor_bytes ≤ length out.old }
    ensures { out.new ≡ with_cursor out.old cursor }
{
    let _ = files::write_cursor(cursor, out);
}
