//! A plan as a whole: checked, or refused.
use basics::Refusal;
use checker::SliceAnswer;
use reasons::records;
use show::answers;
use std::io;
use std::io::Write;

/// More than any table has places.
pub(crate) const ENOUGH: u32 = u32::MAX;

/// What a check of every place gives, or why the plan is refused. It does not pause: the budget is more than the places.
pub(crate) fn checked(t: &[u32]) -> Result<SliceAnswer, Refusal> {
    let cursor = checker::start(t).map_err(|returned| returned.refusal)?;
    Ok(checker::slice(t, cursor, ENOUGH))
}

/// A plan that is refused, and why.
pub(crate) fn refused<O: Write, E: Write>(
    out: &mut O,
    err: &mut E,
    t: &[u32],
    refusal: Refusal,
) -> io::Result<()> {
    records::why(err, t, refusal);
    answers::plan_refused(out, refusal)
}
