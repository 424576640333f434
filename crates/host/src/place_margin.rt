// The call for C that tells the numbers of the rule at a place of the plan of a plan file, and what is to spare. Nothing is lent to be written.
ghost use Rattle.std.specs.Prelude.{◌≡◌};
ghost use Rattle.margins.specs.declared.Spare.TheVariants.{Free};
ghost use Rattle.host.specs.Margins.{told_numbers, margin_numbers, HostMargins};
ghost use Rattle.host.specs.Steps.{SmallTold};

use crate::{answers, plans};
use basics::Refusal;
use margins::{At, Margin, Spare};
use rules::Rule;

// What C gets of a margin, laid out as the struct in include/conepalhui.h: a result (0 where the place holds, 2 to 5 where it does not), refused the position; the rule of the place, 2 to 5,
// and whether it asks anything there (1, or 0); and times in nanoseconds: how much is left or lacking, and the numbers of the rule. What is not told is 0.
// Kept: C reads these fields, and include/conepalhui.h says that a result and what is told beside it are numbers.
#[repr(C)]
#[derive(Clone, Copy, Debug, PartialEq, Eq)]
pub struct MarginNumbers {
    pub result: u32,
    pub position: u32,
    pub rule: u32,
    pub asked: u32,
    pub left: u64,
    pub lacks: u64,
    pub needs: u64,
    pub has: u64,
    pub divisor: u64,
    pub after: u64,
    pub hold: u64,
    pub other: u64,
}

// What is told of nothing: 0 in each field.
const NOTHING: MarginNumbers = MarginNumbers {
    result: 0,
    position: 0,
    rule: 0,
    asked: 0,
    left: 0,
    lacks: 0,
    needs: 0,
    has: 0,
    divisor: 0,
    after: 0,
    hold: 0,
    other: 0,
};

// The numbers of a rule, with nothing to spare.
fn asked_numbers(rule: Rule, m: Margin) -> MarginNumbers
    ensures { result ≡ told_numbers rule m Free }
{
    let free = MarginNumbers {
        rule: answers::rule_result(rule),
        ..NOTHING
    };
    match m {
        Margin::Free => free,
        Margin::Sides(s) => MarginNumbers {
            asked: 1,
            needs: s.needs,
            has: s.has,
            ..free
        },
        Margin::Turns(s) => MarginNumbers {
            asked: 1,
            divisor: s.divisor,
            after: s.after,
            hold: s.hold,
            other: s.other,
            ..free
        },
    }
}

// The numbers of a rule and what is to spare.
fn told_numbers(rule: Rule, m: Margin, s: Spare) -> MarginNumbers
    ensures { result ≡ told_numbers rule m s }
{
    let asked = asked_numbers(rule, m);
    match s {
        Spare::Free => asked,
        Spare::Left(n) => MarginNumbers { left: n, ..asked },
        Spare::Lacks(n) => MarginNumbers {
            result: asked.rule,
            lacks: n,
            ..asked
        },
    }
}

// What is told of a place of this rule, in numbers.
// Kept: no From, since a conversion by From could not ask that the position of a refusal fits a word.
fn in_numbers(rule: Rule, told: Result<At, Refusal>) -> MarginNumbers
    requires { SmallTold told }
    ensures { result ≡ margin_numbers rule told }
{
    match told {
        Ok(at) => told_numbers(rule, at.margin, at.spare),
        Err(r) => MarginNumbers {
            result: answers::refused_result(r.cause),
            position: r.at as u32,
            ..NOTHING
        },
    }
}

// Tells the numbers of the rule at a place of a plan file. Its name ends in the edition of the rules; in the header it is conepalhui_margin.
pub fn conepalhui_margin_3(plan: &[u8], leg: u32, place: u32) -> MarginNumbers
    ensures { HostMargins plan.now leg place result }
{
    let told = plans::of_plan(plan, |t| margins::margin_at(t, leg, place));
    let rule = Rule::from(rules::place::asked_at(place as usize));
    in_numbers(rule, told)
}
