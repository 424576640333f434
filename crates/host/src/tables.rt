// The rest of each call, once its plan and its cursor are read: refusal 15, then the start, the slice or the move.
ghost use Rattle.std.specs.Prelude.{◌≤◌, length};
ghost use Rattle.table.specs.Layout.{Sized};
ghost use Rattle.files.specs.Theorems.{max_cursor_bytes};
ghost use Rattle.host.specs.Calls.{lent, WritesBoth, WritesFile, StartsTable, SlicesTable, MovesTable};
ghost use Rattle.host.specs.Steps.{SlicesFrom, MovesFrom};

use crate::{Answer, answers};
use basics::Cause;
use checker::SliceAnswer;
use files::Cursor;
use table::Move;

// How many bytes the caller has to lend for the cursor: any cursor fits.
const CURSOR_ROOM: usize = files::MAX_CURSOR_BYTES;

// Kept: StartsTable (specs/Calls.antt) says what C gets at this stage, so a refusal is an Answer here already, and no Err.
pub(crate) fn start_table(t: &[u32], out: &mut [u8]) -> Answer
    ensures { StartsTable t.now out.old result out.new }
{
    if out.len() < CURSOR_ROOM {
        return answers::refused(Cause::NoRoom.at(0));
    }
    match checker::start(t) {
        Err(returned) => answers::refused(returned.refusal),
        Ok(first) => {
            answers::put_back(first, out);
            Answer {
                result: 0,
                beside: places::place_count(t[table::LEGS_AT] as usize) as u32,
            }
        }
    }
}

// Kept: SlicesTable (specs/Calls.antt) says what C gets at this stage, so a refusal is an Answer here already, and no Err.
fn slice_table(t: &[u32], cursor: Cursor, budget: u32, out: &mut [u8]) -> Answer
    ensures { SlicesTable t.now cursor budget out.old result out.new }
{
    if out.len() < CURSOR_ROOM {
        return answers::refused(Cause::NoRoom.at(0));
    }
    match checker::slice(t, cursor, budget) {
        SliceAnswer::Refused(refusal, _) => answers::refused(refusal),
        SliceAnswer::Violated(at, steps, rule) => {
            answers::put_back(at, out);
            Answer {
                result: answers::rule_result(rule),
                beside: steps,
            }
        }
        SliceAnswer::NothingViolated(end, steps) => {
            answers::put_back(end, out);
            Answer {
                result: 0,
                beside: steps,
            }
        }
        SliceAnswer::Paused(at, steps) => {
            answers::put_back(at, out);
            Answer {
                result: 1,
                beside: steps,
            }
        }
    }
}

// The slice from a saved cursor, which is read after the plan.
pub(crate) fn slice_from(t: &[u32], cursor: &[u8], budget: u32, out: &mut [u8]) -> Answer
    ensures { SlicesFrom t.now cursor.now budget out.old result out.new }
{
    match files::read_cursor(cursor) {
        Err(refusal) => answers::refused(refusal),
        Ok(saved) => slice_table(t, saved, budget, out),
    }
}

// Writes the file of a table and a cursor, or nothing where the file has no room.
// Kept: Sized is proved of the words that a move left, by a lemma on Moves; a type that holds it would be built for this one call.
fn write_both(t: &[u32], cursor: Cursor, file: &mut [u8], out: &mut [u8]) -> Answer
    requires sized { Sized t.now }
    requires max_cursor_bytes_in_bounds { max_cursor_bytes ≤ length out.old }
    ensures { WritesBoth t.now cursor (lent file.old out.old) result (lent file.new out.new) }
{
    match files::write_plan(t, file) {
        Err(refusal) => answers::refused(refusal),
        Ok(n) => {
            answers::put_back(cursor, out);
            Answer {
                result: 0,
                beside: n as u32,
            }
        }
    }
}

// A granted move changes the table, even where the new file then has no room.
// Kept: MovesTable (specs/Calls.antt) says what C gets at this stage, so a refusal is an Answer here already, and no Err.
fn move_table(t: &mut [u32], cursor: Cursor, mv: Move, file: &mut [u8], out: &mut [u8]) -> Answer
    ensures { MovesTable t.old cursor mv (lent file.old out.old) result (lent file.new out.new) }
{
    if out.len() < CURSOR_ROOM {
        return answers::refused(Cause::NoRoom.at(0));
    }
    match checker::move_leg(t, cursor, mv) {
        Err(returned) => answers::refused(returned.refusal),
        Ok(next) => write_both(t, next, file, out),
    }
}

// The move from a saved cursor, which is read after the plan.
pub(crate) fn move_from(
    t: &mut [u32],
    cursor: &[u8],
    mv: Move,
    file: &mut [u8],
    out: &mut [u8],
) -> Answer
    ensures { MovesFrom t.old cursor.now mv (lent file.old out.old) result (lent file.new out.new) }
{
    match files::read_cursor(cursor) {
        Err(refusal) => answers::refused(refusal),
        Ok(saved) => move_table(t, saved, mv, file, out),
    }
}

// Writes the file of a table, or nothing where it has no room.
// Kept: Sized is proved of words that a conversion or an admission wrote, by a lemma on each; a type that holds it would be built for these two calls.
pub(crate) fn write_file(t: &[u32], file: &mut [u8]) -> Answer
    requires { Sized t.now }
    ensures { WritesFile t.now file.old result file.new }
{
    match files::write_plan(t, file) {
        Err(refusal) => answers::refused(refusal),
        Ok(n) => Answer {
            result: 0,
            beside: n as u32,
        },
    }
}
