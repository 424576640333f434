// Reading to the end, the program's arguments and the clock. No contract can say what a call of the operating system reads, so these promise only to be safe
// and to end. Why a plan file is refused is said on standard error.
#![tactic(auto)]

ghost use Rattle.std.specs.Prelude.{◌≤◌, length, IfOk, IfSome};

use basics::Refusal;
use std::env::{Env, FillError};
use std::io;
use std::io::{Read, Write};
use std::rt::Clock;
use std::time::{SystemTime, UNIX_EPOCH};

/// The bytes of the largest plan file and one more, so that a byte left over is seen.
pub const PLAN_ROOM: usize = files::MAX_FILE_BYTES + 1;

// What the system says of an argument that is missing, and of one that is too long.
const EINVAL: i32 = 22;

const ENAMETOOLONG: i32 = 36;

/// Reads the plan on standard input into lent words: the words of its table, or why it is refused, which is said on standard error too. The outer error: standard
/// input cannot be read.
// Kept: timetable and operator reach no allocator (docs/TRUST.md), so the bytes lie in an array of the largest size; what was read is a slice of it.
pub fn given_plan<'a, R: Input, E: Write>(
    rt: &R,
    err: &mut E,
    words: &'a mut [u32],
) -> io::Result<Result<&'a [u32], Refusal>> {
    let mut room = [0u8; PLAN_ROOM];
    let bytes = standard(rt, &mut room)?;
    match files::read_plan(bytes, words) {
        Ok(n) => Ok(Ok(&words[..n])),
        Err(refusal) => {
            reasons::file::why(err, bytes, refusal);
            Ok(Err(refusal))
        }
    }
}

// Reads until the buffer is full, the input ends or a read fails, and returns how many bytes that is.
// Kept: bytes are counted, as many as each read gives, and no index; the range only bounds the number of reads.
fn read_full<R: Read>(input: &mut R, buffer: &mut [u8]) -> usize
    ensures { result ≤ length buffer.new }
{
    let mut done: usize = 0;
    // Each read but the last gives a byte at least, so that this runs out only where the buffer is full.
    for _ in 0..buffer.len() {
        if buffer.len() <= done {
            break;
        }
        match input.read(&mut buffer[done..]) {
            Ok(0) => break,
            Ok(n) => done += n,
            Err(_) => break,
        }
    }
    done.min(buffer.len())
}

// Whether the n bytes that were read for a buffer with that much room are all there is, or all that is asked for. A read that failed is not taken for the end: after
// the end, and only then, a further read gives 0.
// Kept: no length stands beside the array of one byte: only whether there is more is asked.
fn ends<R: Read>(input: &mut R, n: usize, room: usize) -> io::Result<()> {
    if n < room {
        let mut more = [0u8; 1];
        return match input.read(&mut more)? {
            0 => Ok(()),
            _ => Err(io::Error::from_raw_os_error(0)),
        };
    }
    Ok(())
}

/// Reads to the end, or as much as there is room for, and returns what was read.
// Kept: each call here says of another answer (slice, Option, Result) that it is no longer than what was lent; a type for it would be unwrapped at each.
pub fn whole<'a, R: Read>(input: &mut R, buffer: &'a mut [u8]) -> io::Result<&'a [u8]>
    ensures { IfOk result (λ bytes. length bytes.now ≤ length buffer.old) }
{
    let n = read_full(input, buffer);
    ends(input, n, buffer.len())?;
    Ok(&buffer[..n])
}

/// Reads standard input into a buffer, to its end or as much as there is room for.
pub fn standard<'a, R: Input>(rt: &R, buffer: &'a mut [u8]) -> io::Result<&'a [u8]>
    ensures { IfOk result (λ bytes. length bytes.now ≤ length buffer.old) }
{
    whole(&mut rt.reader(), buffer)
}

/// The same, where a read that fails is taken for the end.
pub fn standard_part<'a, R: Input>(rt: &R, buffer: &'a mut [u8]) -> &'a [u8]
    ensures { length result.now ≤ length buffer.old }
{
    let n = read_full(&mut rt.reader(), buffer);
    &buffer[..n]
}

/// Puts an argument at the start of a buffer and returns it. Where it is missing or too long, that is said of it by its name.
pub fn argument<'a, R: Env, E: Write>(
    rt: &R,
    err: &mut E,
    i: usize,
    room: &'a mut [u8],
    what: &[u8],
) -> Option<&'a [u8]>
    ensures { IfSome result (λ text. length text.now ≤ length room.old) }
{
    let why = match rt.arg(i, room) {
        Ok(n) => return Some(&room[..n]),
        Err(FillError::NotPresent) => EINVAL,
        Err(FillError::TooLong) => ENAMETOOLONG,
    };
    reasons::fail(err, what, &io::Error::from_raw_os_error(why));
    None
}

/// The same, and nothing where it is missing or too long.
// Kept: its callers, which the shell calls with all arguments, take a missing one as an empty one; an Option would be unwrapped to that at each.
pub fn argument_or_nothing<'a, R: Env>(rt: &R, i: usize, room: &'a mut [u8]) -> &'a [u8]
    ensures { length result.now ≤ length room.old }
{
    match rt.arg(i, room) {
        Ok(n) => &room[..n],
        Err(_) => &[],
    }
}

/// Whether there is such an argument.
// Kept: no length stands beside the array: an argument that is too long for one byte is there too.
pub fn has_argument<R: Env>(rt: &R, i: usize) -> bool {
    let mut room = [0u8; 1];
    !matches!(rt.arg(i, &mut room), Err(FillError::NotPresent))
}

/// The time in whole seconds, and -1 where the clock gives none.
// Kept: Said::is_due compares -1 as one more instant, which an Option would have to be taken apart for at each of its two times.
pub fn seconds<R: Clock>(rt: &R) -> i64 {
    let Ok(now) = SystemTime::now(rt) else {
        return -1;
    };
    match now.duration_since(UNIX_EPOCH) {
        Ok(since) => i64::try_from(since.as_secs()).unwrap_or(i64::MAX),
        Err(_) => -1,
    }
}
