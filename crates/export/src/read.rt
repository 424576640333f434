// The list file on standard input, of whatever make: its pairs.
use crate::out;
use show::answers;
use std::io;
use std::io::Write;

// The most bytes that it may have, and so the most words.
const MAX_BYTES: usize = 65536;

const ROOM: usize = MAX_BYTES + 1;

fn on_bytes<O: Write, E: Write>(out: &mut O, err: &mut E, bytes: &[u8]) -> io::Result<()> {
    // Kept: gate_files::read_list reads into lent words; nothing is allocated.
    let mut words = [0u32; MAX_BYTES];
    match gate_files::read_list(bytes, &mut words) {
        Ok(n) => out::pairs(out, words.get(..n).unwrap_or(&[])),
        Err(refusal) => {
            reasons::lists::why(err, bytes, refusal);
            answers::plan_refused(out, refusal)
        }
    }
}

/// Prints the pairs of a list file.
// Kept: standard input is read into lent bytes, one more than a list may have, and what was read comes back as a slice.
pub(crate) fn printed<R: Input, O: Write, E: Write>(
    rt: &R,
    out: &mut O,
    err: &mut E,
) -> io::Result<()> {
    let mut room = [0u8; ROOM];
    let Ok(bytes) = input::standard(rt, &mut room) else {
        return Ok(());
    };
    if bytes.len() == ROOM {
        reasons::report(
            err,
            format_args!("the list has more than {MAX_BYTES} bytes"),
        );
        return out::too_long(out);
    }
    on_bytes(out, err, bytes)
}
