// The calls for C that admit one stream to the plan of a plan file. No old leg moves.
ghost use Rattle.std.specs.Prelude.{◌≡◌, length};
ghost use Rattle.table.specs.Layout.{Sized};
ghost use Rattle.host.specs.Admissions.{wanting, unadmitted, AdmitsTable, HostAdmits, HostAdmitsBetween};
ghost use Rattle.host.specs.Steps.{OwnRoom, Small};

use crate::{ANY_WORD, answers, tables};
use basics::Refusal;
use enlarge::Wanted;

// What C gets of an admission, laid out as the struct in include/conepalhui.h: a result (0 is admitted, 1 is none yet), a number beside it, and an offset. Admitted, these are
// the size of the new plan file and the first offset of the new stream; where none fits yet, 0 and where to look on; refused, the position and 0.
// Kept: C reads these fields, and include/conepalhui.h says that a result and what is told beside it are numbers.
#[repr(C)]
#[derive(Clone, Copy, Debug, PartialEq, Eq)]
pub struct AdmissionAnswer {
    pub result: u32,
    pub beside: u32,
    pub offset: u32,
}

// How many bytes a number in a plan file has at most.
const NUMBER_BYTES: usize = 5;

// None fits yet, of the first offsets that were looked at.
// Kept: a result of the C interface, where it is this number.
const NONE_YET: u32 = 1;

// A refusal, with its position.
// Kept: no From, since a conversion by From could not ask that the position of a refusal fits a word.
fn unadmitted_for(r: Refusal) -> AdmissionAnswer
    requires { Small r.cause r.at }
    ensures { result ≡ unadmitted r.cause r.at }
{
    AdmissionAnswer {
        result: answers::refused_result(r.cause),
        beside: r.at as u32,
        offset: 0,
    }
}

// How many words of its own a call lends for the enlarged table: as many as the file has room for in any case, and no more than the largest table has.
fn own_room(bytes: usize) -> usize
    ensures { OwnRoom bytes result }
{
    table::MAX_TABLE_WORDS.min(bytes / NUMBER_BYTES)
}

// Admits one stream to a table, in so many words of the call's own, and writes the plan file of the enlarged table. For it there is room then.
// Kept: admission::admit_between, which docs/CALLS.md names, takes the stream, its route and the range as they are; a struct would be built for this one call.
fn admit_table(
    t: &[u32],
    w: Wanted,
    route: &[u32],
    from: u32,
    until: u32,
    own: &mut [u32],
    file: &mut [u8],
) -> AdmissionAnswer
    requires sized { Sized t.now }
    requires own_room { OwnRoom (length file.old) (length own.old) }
    ensures { AdmitsTable t.now w route.now from until file.old result file.new }
{
    match admission::admit_between(t, w, route, from, until, own) {
        Err(refusal) => unadmitted_for(refusal),
        Ok(None) => AdmissionAnswer {
            result: NONE_YET,
            beside: 0,
            offset: until,
        },
        Ok(Some(admitted)) => {
            let written = tables::write_file(&own[..admitted.words], file);
            AdmissionAnswer {
                result: written.result,
                beside: written.beside,
                offset: admitted.offset,
            }
        }
    }
}

// Admits one stream to an accepted plan, at its least first offset, and writes the plan file of the enlarged table. Its name ends in the edition of the rules; in the header it
// is conepalhui_admit.
pub fn conepalhui_admit_3(
    plan: &[u8],
    route: &[u32],
    period: u32,
    deadline: u32,
    octets: u32,
    file: &mut [u8],
) -> AdmissionAnswer
    ensures { HostAdmits plan.now (wanting period deadline octets) route.now file.old result file.new }
{
    conepalhui_admit_between_3(plan, route, period, deadline, octets, 0, period, file)
}

// A piece of an admission: only the first offsets from `from` up to but without `until` are looked at.
// Kept: the answer has an offset, and the new table lies in words of its own too, so plans::after_plan does not fit; no heap, so both lie in arrays of fixed size.
pub fn conepalhui_admit_between_3(
    plan: &[u8],
    route: &[u32],
    period: u32,
    deadline: u32,
    octets: u32,
    from: u32,
    until: u32,
    file: &mut [u8],
) -> AdmissionAnswer
    ensures { HostAdmitsBetween plan.now (wanting period deadline octets) route.now from until file.old result file.new }
{
    let mut words = [ANY_WORD; table::MAX_TABLE_WORDS];
    let mut own = [ANY_WORD; table::MAX_TABLE_WORDS];
    let w = Wanted {
        period,
        deadline,
        octets,
    };
    match files::one_pass::take_plan(plan, &mut words) {
        Err(refusal) => unadmitted_for(refusal),
        Ok(n) => {
            let room = own_room(file.len());
            admit_table(&words[..n], w, route, from, until, &mut own[..room], file)
        }
    }
}
