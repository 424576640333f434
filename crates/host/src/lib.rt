// The calls for C, on bytes and numbers. What a call writes to overlaps nothing else that is lent to it
// (include/conepalhui.h).
#![tactic(auto)]

ghost use Rattle.table.specs.Records.{move_to};
ghost use Rattle.host.specs.Calls.{lent, HostStarts, HostSlices, HostSliceResult, HostMoves, HostConverts};

use table::Move;

pub mod admit;
mod answers;
pub mod first_meeting;
pub mod late_move;
pub mod lists;
pub mod near_offsets;
pub mod place_margin;
mod plans;
mod tables;

// What a call's own words hold at first: any word, since none is read before it is taken from the plan. Not 0, for which the compiler calls memset
// (docs/DECISIONS.md, 51).
pub(crate) const ANY_WORD: u32 = 1;

// What C gets, laid out as the struct in include/conepalhui.h: a result (0 is nothing violated after a slice, and granted after a start, a move or a conversion), and a
// number beside it. Refused, that is the position; after a slice the steps, after a start the number of places, after a move or a conversion the size of the new plan file.
// Kept: C reads these fields, and include/conepalhui.h says that a result and what is told beside it are numbers.
#[repr(C)]
#[derive(Clone, Copy, Debug, PartialEq, Eq)]
pub struct Answer {
    pub result: u32,
    pub beside: u32,
}

// Starts a check of a plan file, and writes its first cursor. Its name ends in the edition of the rules, so that a program which was compiled for another one is not
// linked; in the header it is conepalhui_start.
pub fn conepalhui_start_3(plan: &[u8], out: &mut [u8]) -> Answer
    ensures { HostStarts plan.now out.old result out.new }
{
    plans::after_plan(plan, out, |t, b| tables::start_table(t, b))
}

// The slice over a plan file and a saved cursor: the result alone.
pub fn conepalhui_slice(plan: &[u8], cursor: &[u8], budget: u32, out: &mut [u8]) -> u32
    ensures { HostSliceResult plan.now cursor.now budget out.old result out.new }
{
    let told = conepalhui_slice_full(plan, cursor, budget, out);
    told.result
}

// The same slice, with the steps or the position beside the result.
pub fn conepalhui_slice_full(plan: &[u8], cursor: &[u8], budget: u32, out: &mut [u8]) -> Answer
    ensures { HostSlices plan.now cursor.now budget out.old result out.new }
{
    plans::after_plan(plan, out, |t, b| tables::slice_from(t, cursor, budget, b))
}

// Moves one leg of a plan file, and writes the new plan file and the new cursor. Its name ends in the edition too, since its form changed with it; in the header it is conepalhui_move.
pub fn conepalhui_move_3(
    plan: &[u8],
    cursor: &[u8],
    leg: u32,
    offset: u32,
    periods: u32,
    file: &mut [u8],
    out: &mut [u8],
) -> Answer
    ensures { HostMoves plan.now cursor.now (move_to leg offset periods) (lent file.old out.old) result (lent file.new out.new) }
{
    // Kept: two slices are lent to be written, for which plans::after_plan would need a type parameter that stands for a slice, and Rattle has no ?Sized; no heap.
    let mut words = [ANY_WORD; table::MAX_TABLE_WORDS];
    let mv = Move {
        leg,
        offset,
        periods,
    };
    match files::one_pass::take_plan(plan, &mut words) {
        Err(refusal) => answers::refused(refusal),
        Ok(n) => tables::move_from(&mut words[..n], cursor, mv, file, out),
    }
}

// Converts a plan file of the first layout, and writes the plan file of the table that its table becomes.
pub fn conepalhui_convert_first(old: &[u8], file: &mut [u8]) -> Answer
    ensures { HostConverts old.now file.old result file.new }
{
    // Kept: plans::after_plan reads today's layout; the reader of the first one needs its own lemmas and has this one caller. No heap, so an array of fixed size.
    let mut words = [ANY_WORD; table::MAX_TABLE_WORDS];
    match editions::read_first(old, &mut words) {
        Err(refusal) => answers::refused(refusal),
        Ok(n) => tables::write_file(&words[..n], file),
    }
}
