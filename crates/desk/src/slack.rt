//! Where an accepted plan is thin: of the windows, hops and deadlines those with the fewest nanoseconds left. What is left at a place is told by
//! margins::margin_at; which of them are the least is tested, not proved.
use crate::legs::NamedTable;
use crate::whole;
use arrayvec::ArrayVec;
use checker::SliceAnswer;
use margins::Spare;
use reasons::records;
use rules::{Rule, place};
use show::{answers, told};
use std::io;
use std::io::Write;

/// How many places of a rule are told.
const TOLD: usize = 10;

/// What a leg has left. The order is that of the list: least first, and of two legs that have the same left the lower one.
#[derive(Clone, Copy, Debug, Default, PartialEq, Eq, PartialOrd, Ord)]
struct Row {
    left: u64,
    leg: u32,
}

/// What each leg has left at one place of its own, where that asks something, least first.
fn rows_at(t: &[u32], place: u32) -> ArrayVec<Row, { table::MAX_LEGS }> {
    let mut rows = ArrayVec::new();
    for leg in 0..records::header_word(t, table::LEGS_AT) {
        if let Ok(at) = margins::margin_at(t, leg, place) {
            if let Spare::Left(left) = at.spare {
                let _ = rows.try_push(Row { left, leg });
            }
        }
    }
    rows.as_mut_slice().sort_unstable();
    rows
}

/// The legs with the least left at one place of their own, and how many are asked something there.
fn by_rule<O: Write>(out: &mut O, plan: NamedTable, place: usize) -> io::Result<()> {
    let rows = rows_at(plan.t, reasons::small(place));
    let rule = told::rule_word(Rule::from(place::asked_at(place)));
    writeln!(out, "least by {rule}, of {}", rows.len())?;
    for row in rows.iter().take(TOLD) {
        write!(out, "leg {} {} ns left: ", row.leg, row.left)?;
        plan.put_place_of(out, row.leg)?;
        writeln!(out)?;
    }
    Ok(())
}

fn thin<O: Write>(out: &mut O, plan: NamedTable) -> io::Result<()> {
    writeln!(out, "accepted")?;
    for place in 0..place::OWN_PLACES {
        by_rule(out, plan, place)?;
    }
    writeln!(out, "status 0")
}

/// Where a plan is thin, if it is accepted.
pub(crate) fn of<O: Write, E: Write>(out: &mut O, err: &mut E, plan: NamedTable) -> io::Result<()> {
    match whole::checked(plan.t) {
        Ok(SliceAnswer::Violated(at, _, rule)) => answers::first_violated(out, at, rule),
        Ok(SliceAnswer::NothingViolated(_, _)) => thin(out, plan),
        Ok(SliceAnswer::Paused(_, _) | SliceAnswer::Refused(_, _)) => Ok(()),
        Err(refusal) => whole::refused(out, err, plan.t, refusal),
    }
}
