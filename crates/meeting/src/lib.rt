// Where two legs of a table first meet on their link.
#![tactic(auto)]

ghost use Rattle.meeting.specs.Meets.{Meets};

use basics::{Cause, Refusal};
use repeats::Meeting;
use rules::leg::TimedLeg;
use shape::plan::Plan;

/// Returns where two legs of a table first meet: the earliest instant at which both hold their link, in nanoseconds, and the last repeat of each that has begun then, counted from 0; None if
/// they never do, being on different links or never holding theirs at once. Refuses 1 to 7, or 10 where one of the legs is not there.
pub fn meeting(t: &[u32], leg: u32, other: u32) -> Result<Option<Meeting>, Refusal>
    ensures { Meets t.now leg other result }
{
    let plan = Plan::judge(t)?;
    let legs = plan.legs();
    if legs <= leg as usize {
        return Err(Cause::NoLeg.at(0));
    }
    if legs <= other as usize {
        return Err(Cause::NoLeg.at(0));
    }
    let a = TimedLeg::of(&plan, leg as usize);
    let b = TimedLeg::of(&plan, other as usize);
    if a.frame.link != b.frame.link {
        return Ok(None);
    }
    let first = a.frame.slot();
    let second = b.frame.slot();
    Ok(repeats::first_meeting(first, second))
}
