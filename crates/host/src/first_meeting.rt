// The call for C that tells where two legs of the plan of a plan file first meet. Nothing is lent to be written.
ghost use Rattle.std.specs.Prelude.{◌≡◌};
ghost use Rattle.host.specs.Meetings.{meeting_numbers, HostMeets};
ghost use Rattle.host.specs.Steps.{SmallTold};

use crate::{answers, plans};
use basics::Refusal;
use repeats::Meeting;

// What C gets of a meeting, laid out as the struct in include/conepalhui.h: a result (1 where the two legs meet, 0 where they never do), refused the position, the last repeat of each leg
// that has begun when they first meet, counted from 0, and the instant in nanoseconds. What is not told is 0.
// Kept: C reads these fields, and include/conepalhui.h says that a result and what is told beside it are numbers.
#[repr(C)]
#[derive(Clone, Copy, Debug, PartialEq, Eq)]
pub struct MeetingNumbers {
    pub result: u32,
    pub position: u32,
    pub first: u64,
    pub second: u64,
    pub instant: u64,
}

// What is told of two legs that never meet: 0 in each field.
const NEVER: MeetingNumbers = MeetingNumbers {
    result: 0,
    position: 0,
    first: 0,
    second: 0,
    instant: 0,
};

// What is told, in numbers.
// Kept: no From, since a conversion by From could not ask that the position of a refusal fits a word.
fn in_numbers(told: Result<Option<Meeting>, Refusal>) -> MeetingNumbers
    requires { SmallTold told }
    ensures { result ≡ meeting_numbers told }
{
    match told {
        Ok(None) => NEVER,
        Ok(Some(m)) => MeetingNumbers {
            result: 1,
            position: 0,
            first: m.first,
            second: m.second,
            instant: m.instant,
        },
        Err(r) => MeetingNumbers {
            result: answers::refused_result(r.cause),
            position: r.at as u32,
            ..NEVER
        },
    }
}

// Tells where two legs of a plan file first meet. Its name ends in the edition of the rules; in the header it is conepalhui_meeting.
pub fn conepalhui_meeting_3(plan: &[u8], leg: u32, other: u32) -> MeetingNumbers
    ensures { HostMeets plan.now leg other result }
{
    in_numbers(plans::of_plan(plan, |t| meeting::meeting(t, leg, other)))
}
