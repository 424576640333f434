// The calls for C, each with the result, the number beside it, and the whole lent buffers.
use crate::files_calls::{MARK, lent};
use crate::text::Numbers;
use crate::{Call, Given};
use host::Answer;
use std::alloc::Global;
use std::io;
use std::io::Write;

fn told<O: Write>(out: &mut O, verb: &str, answer: Answer) -> io::Result<()> {
    let Answer { result, beside } = answer;
    writeln!(out, "{verb} {result} {beside}")
}

// A call with one lent buffer, of which a line asks for so many bytes.
fn with_one<O: Write, F: FnOnce(&mut [u8]) -> Answer>(
    out: &mut O,
    alloc: Global,
    verb: &str,
    room: usize,
    call: F,
) -> io::Result<()>
    requires { F.IsAlwaysCallable call }
{
    let Some(mut bytes) = lent(alloc, MARK, room)? else {
        return Ok(());
    };
    let answer = call(&mut bytes);
    told(out, verb, answer)?;
    show::bytes(out, &bytes)
}

// The slice in full, and its result alone.
fn slice<O: Write>(out: &mut O, given: &Given, budget: u32, room: usize) -> io::Result<()> {
    let (Some(mut bytes), Some(mut again)) = (
        lent(given.alloc, MARK, room)?,
        lent(given.alloc, MARK, room)?,
    ) else {
        return Ok(());
    };
    let answer = host::conepalhui_slice_full(&given.plan, &given.saved, budget, &mut bytes);
    told(out, "slice", answer)?;
    show::bytes(out, &bytes)?;
    let result = host::conepalhui_slice(&given.plan, &given.saved, budget, &mut again);
    writeln!(out, "alone {result}")?;
    show::bytes(out, &again)
}

// A move: the leg, the offset, the period word, and the room for the new file and for the cursor.
fn move_leg<O: Write>(out: &mut O, given: &Given, numbers: &Numbers) -> io::Result<()> {
    let (Some(mut file), Some(mut cursor)) = (
        lent(given.alloc, MARK, numbers.size(3))?,
        lent(given.alloc, MARK, numbers.size(4))?,
    ) else {
        return Ok(());
    };
    let answer = host::conepalhui_move_3(
        &given.plan,
        &given.saved,
        numbers.at(0),
        numbers.at(1),
        numbers.at(2),
        &mut file,
        &mut cursor,
    );
    told(out, "move", answer)?;
    show::bytes(out, &file)?;
    show::bytes(out, &cursor)
}

pub(crate) fn asked<O: Write>(out: &mut O, call: &Call<'_>, given: &Given) -> io::Result<bool> {
    let numbers = &call.numbers;
    match call.verb {
        b"host-start" => with_one(
            out,
            given.alloc,
            "start",
            numbers.size(0),
            |bytes| host::conepalhui_start_3(&given.plan, bytes),
        )?,
        b"host-slice" => slice(out, given, numbers.at(0), numbers.size(1))?,
        b"host-move" => move_leg(out, given, numbers)?,
        b"host-convert" => with_one(
            out,
            given.alloc,
            "convert",
            numbers.size(0),
            |bytes| host::conepalhui_convert_first(&given.plan, bytes),
        )?,
        _ => return Ok(false),
    }
    Ok(true)
}
