// The call for C that rechecks one leg of the plan of a plan file. It takes and gives no cursor.
ghost use Rattle.std.specs.Prelude.{◌≡◌};
ghost use Rattle.host.specs.Rechecks.{recheck_answered, HostRechecks};
ghost use Rattle.host.specs.Steps.{SmallTold};

use crate::{answers, plans};
use basics::Refusal;
use recheck::Rechecked;

// What C gets of a recheck, laid out as the struct in include/conepalhui.h: a result (0 is nothing violated at the places that were looked at), a number beside it, and the violated
// place. The number is how many places were looked at; refused, the position. Where no place is violated, leg and place are 0.
// Kept: C reads these fields, and include/conepalhui.h says that a result and what is told beside it are numbers.
#[repr(C)]
#[derive(Clone, Copy, Debug, PartialEq, Eq)]
pub struct RecheckedAnswer {
    pub result: u32,
    pub beside: u32,
    pub leg: u32,
    pub place: u32,
}

// What is told, in numbers.
// Kept: no From, since a conversion by From could not ask that the position of a refusal fits a word.
fn in_numbers(told: Result<Rechecked, Refusal>) -> RecheckedAnswer
    requires { SmallTold told }
    ensures { result ≡ recheck_answered told }
{
    match told {
        Err(r) => RecheckedAnswer {
            result: answers::refused_result(r.cause),
            beside: r.at as u32,
            leg: 0,
            place: 0,
        },
        Ok(Rechecked::Violated(at, rule, looked)) => RecheckedAnswer {
            result: answers::rule_result(rule),
            beside: looked,
            leg: at.leg,
            place: at.place,
        },
        Ok(Rechecked::NothingViolated(looked)) => RecheckedAnswer {
            result: 0,
            beside: looked,
            leg: 0,
            place: 0,
        },
    }
}

// Looks in order at the places of a plan file at which one leg, which was moved, can be read. Its name ends in the edition of the rules; in the header it is conepalhui_recheck.
pub fn conepalhui_recheck_3(plan: &[u8], leg: u32) -> RecheckedAnswer
    ensures { HostRechecks plan.now leg result }
{
    in_numbers(plans::of_plan(plan, |t| recheck::recheck(t, leg)))
}
