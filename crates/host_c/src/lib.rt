// The calls for C over host: each calls the library's function of the same name, and promises what that promises. What a call writes to overlaps
// nothing else that is lent to it (include/conepalhui.h).
#![tactic(auto)]

ghost use Rattle.host.specs.Admissions.{wanting, HostAdmits, HostAdmitsBetween};
ghost use Rattle.host.specs.Calls.{lent, HostStarts, HostSlices, HostSliceResult, HostMoves, HostConverts};
ghost use Rattle.host.specs.GateLists.{HostListsGates, HostReadsGates};
ghost use Rattle.host.specs.Margins.{HostMargins};
ghost use Rattle.host.specs.Meetings.{HostMeets};
ghost use Rattle.host.specs.NearOffsets.{HostNears};
ghost use Rattle.host.specs.Rechecks.{HostRechecks};
ghost use Rattle.table.specs.Records.{move_to};

use host::Answer;
use host::admit::AdmissionAnswer;
use host::first_meeting::MeetingNumbers;
use host::late_move::RecheckedAnswer;
use host::near_offsets::NearestNumbers;
use host::place_margin::MarginNumbers;

// Starts a check of a plan file, and writes its first cursor. Its name ends in the edition of the rules, so that a program which was compiled for another one is not
// linked; in the header it is conepalhui_start.
#[unsafe(no_mangle)]
pub extern "C" fn conepalhui_start_3(plan: &[u8], out: &mut [u8]) -> Answer
    ensures { HostStarts plan.now out.old result out.new }
{
    host::conepalhui_start_3(plan, out)
}

// The slice over a plan file and a saved cursor: the result alone.
#[unsafe(no_mangle)]
pub extern "C" fn conepalhui_slice(plan: &[u8], cursor: &[u8], budget: u32, out: &mut [u8]) -> u32
    ensures { HostSliceResult plan.now cursor.now budget out.old result out.new }
{
    host::conepalhui_slice(plan, cursor, budget, out)
}

// The same slice, with the steps or the position beside the result.
#[unsafe(no_mangle)]
pub extern "C" fn conepalhui_slice_full(
    plan: &[u8],
    cursor: &[u8],
    budget: u32,
    out: &mut [u8],
) -> Answer
    ensures { HostSlices plan.now cursor.now budget out.old result out.new }
{
    host::conepalhui_slice_full(plan, cursor, budget, out)
}

// Moves one leg of a plan file, and writes the new plan file and the new cursor. Its name ends in the edition too, since its form changed with it; in the header it is conepalhui_move.
#[unsafe(no_mangle)]
pub extern "C" fn conepalhui_move_3(
    plan: &[u8],
    cursor: &[u8],
    leg: u32,
    offset: u32,
    periods: u32,
    file: &mut [u8],
    out: &mut [u8],
) -> Answer
    ensures { HostMoves plan.now cursor.now (move_to leg offset periods) (lent file.old out.old) result (lent file.new out.new) }
{
    host::conepalhui_move_3(plan, cursor, leg, offset, periods, file, out)
}

// Converts a plan file of the first layout, and writes the plan file of the table that its table becomes.
#[unsafe(no_mangle)]
pub extern "C" fn conepalhui_convert_first(old: &[u8], file: &mut [u8]) -> Answer
    ensures { HostConverts old.now file.old result file.new }
{
    host::conepalhui_convert_first(old, file)
}

// Admits one stream to an accepted plan, at its least first offset, and writes the plan file of the enlarged table. Its name ends in the edition of the rules; in the header it
// is conepalhui_admit.
#[unsafe(no_mangle)]
pub extern "C" fn conepalhui_admit_3(
    plan: &[u8],
    route: &[u32],
    period: u32,
    deadline: u32,
    octets: u32,
    file: &mut [u8],
) -> AdmissionAnswer
    ensures { HostAdmits plan.now (wanting period deadline octets) route.now file.old result file.new }
{
    host::admit::conepalhui_admit_3(plan, route, period, deadline, octets, file)
}

// A piece of an admission: only the first offsets from `from` up to but without `until` are looked at.
#[unsafe(no_mangle)]
pub extern "C" fn conepalhui_admit_between_3(
    plan: &[u8],
    route: &[u32],
    period: u32,
    deadline: u32,
    octets: u32,
    from: u32,
    until: u32,
    file: &mut [u8],
) -> AdmissionAnswer
    ensures { HostAdmitsBetween plan.now (wanting period deadline octets) route.now from until file.old result file.new }
{
    host::admit::conepalhui_admit_between_3(
        plan, route, period, deadline, octets, from, until, file,
    )
}

// Tells where two legs of a plan file first meet. Its name ends in the edition of the rules; in the header it is conepalhui_meeting.
#[unsafe(no_mangle)]
pub extern "C" fn conepalhui_meeting_3(plan: &[u8], leg: u32, other: u32) -> MeetingNumbers
    ensures { HostMeets plan.now leg other result }
{
    host::first_meeting::conepalhui_meeting_3(plan, leg, other)
}

// Looks in order at the places of a plan file at which one leg, which was moved, can be read. Its name ends in the edition of the rules; in the header it is conepalhui_recheck.
#[unsafe(no_mangle)]
pub extern "C" fn conepalhui_recheck_3(plan: &[u8], leg: u32) -> RecheckedAnswer
    ensures { HostRechecks plan.now leg result }
{
    host::late_move::conepalhui_recheck_3(plan, leg)
}

// Writes the gate list of a link of an accepted plan as a list file. Its name ends in the edition of the rules; in the header it is conepalhui_gates.
#[unsafe(no_mangle)]
pub extern "C" fn conepalhui_gates_3(plan: &[u8], link: u32, list: &mut [u8]) -> Answer
    ensures { HostListsGates plan.now link list.old result list.new }
{
    host::lists::conepalhui_gates_3(plan, link, list)
}

// Reads a list file into lent words: a mask and a duration in turn.
#[unsafe(no_mangle)]
pub extern "C" fn conepalhui_read_gates(list: &[u8], words: &mut [u32]) -> Answer
    ensures { HostReadsGates list.now words.old result words.new }
{
    host::lists::conepalhui_read_gates(list, words)
}

// Tells the nearest offsets of a leg with which a place of it holds. Its name ends in the edition of the rules; in the header it is conepalhui_nearest.
#[unsafe(no_mangle)]
pub extern "C" fn conepalhui_nearest_3(plan: &[u8], leg: u32, place: u32) -> NearestNumbers
    ensures { HostNears plan.now leg place result }
{
    host::near_offsets::conepalhui_nearest_3(plan, leg, place)
}

// Tells the numbers of the rule at a place of a plan file. Its name ends in the edition of the rules; in the header it is conepalhui_margin.
#[unsafe(no_mangle)]
pub extern "C" fn conepalhui_margin_3(plan: &[u8], leg: u32, place: u32) -> MarginNumbers
    ensures { HostMargins plan.now leg place result }
{
    host::place_margin::conepalhui_margin_3(plan, leg, place)
}
