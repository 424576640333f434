// The plan on standard input: its words, and whether it is well-formed.
use files::Returned;
use reasons::records;
use show::answers;
use std::io;
use std::io::Write;

// Reads the plan. Where it is refused, that is the answer, and it is written.
fn given<'a, R: Input, O: Write, E: Write>(
    rt: &R,
    out: &mut O,
    err: &mut E,
    words: &'a mut [u32],
) -> io::Result<Option<&'a [u32]>> {
    match input::given_plan(rt, err, words)? {
        Ok(t) => Ok(Some(t)),
        Err(refusal) => {
            answers::plan_refused(out, refusal)?;
            Ok(None)
        }
    }
}

// Kept: operator reaches no allocator (docs/TRUST.md), so the table lies in an array of the largest size, and what was read is a slice of it.
pub(crate) fn words<R: Input, O: Write, E: Write>(
    rt: &R,
    out: &mut O,
    err: &mut E,
) -> io::Result<()> {
    let mut room = [0u32; table::MAX_TABLE_WORDS];
    match given(rt, out, err, &mut room)? {
        Some(t) => answers::words(out, t),
        None => Ok(()),
    }
}

// Kept: operator reaches no allocator (docs/TRUST.md), so the table lies in an array of the largest size, and what was read is a slice of it.
pub(crate) fn shape<R: Input, O: Write, E: Write>(
    rt: &R,
    out: &mut O,
    err: &mut E,
) -> io::Result<()> {
    let mut room = [0u32; table::MAX_TABLE_WORDS];
    let Some(t) = given(rt, out, err, &mut room)? else {
        return Ok(());
    };
    match checker::start(t) {
        Ok(_) => answers::well_formed(out),
        Err(Returned { refusal, .. }) => {
            records::why(err, t, refusal);
            answers::plan_refused(out, refusal)
        }
    }
}
