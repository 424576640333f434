// The call for C that tells the nearest offsets of a leg with which a place of it holds. Nothing is lent to be written.
ghost use Rattle.std.specs.Prelude.{◌≡◌};
ghost use Rattle.host.specs.NearOffsets.{nearest_numbers, HostNears};
ghost use Rattle.host.specs.Steps.{SmallTold};

use crate::{answers, plans};
use basics::Refusal;
use margins::Nearest;

// What C gets of the nearest offsets, laid out as the struct in include/conepalhui.h: a result (0), refused the position; whether there is a lower offset (1, or 0) and which,
// and whether there is a higher one and which. What is not told is 0.
// Kept: C reads these fields, and include/conepalhui.h says that a result and what is told beside it are numbers.
#[repr(C)]
#[derive(Clone, Copy, Debug, PartialEq, Eq)]
pub struct NearestNumbers {
    pub result: u32,
    pub position: u32,
    pub lower: u32,
    pub below: u32,
    pub higher: u32,
    pub above: u32,
}

// What is told where there is no lower and no higher offset: 0 in each field.
const NEITHER: NearestNumbers = NearestNumbers {
    result: 0,
    position: 0,
    lower: 0,
    below: 0,
    higher: 0,
    above: 0,
};

// What is told, in numbers.
// Kept: no From, since a conversion by From could not ask that the position of a refusal fits a word.
fn in_numbers(told: Result<Nearest, Refusal>) -> NearestNumbers
    requires { SmallTold told }
    ensures { result ≡ nearest_numbers told }
{
    match told {
        Ok(n) => NearestNumbers {
            lower: u32::from(n.below.is_some()),
            below: n.below.unwrap_or(0),
            higher: u32::from(n.above.is_some()),
            above: n.above.unwrap_or(0),
            ..NEITHER
        },
        Err(r) => NearestNumbers {
            result: answers::refused_result(r.cause),
            position: r.at as u32,
            ..NEITHER
        },
    }
}

// Tells the nearest offsets of a leg with which a place of it holds. Its name ends in the edition of the rules; in the header it is conepalhui_nearest.
pub fn conepalhui_nearest_3(plan: &[u8], leg: u32, place: u32) -> NearestNumbers
    ensures { HostNears plan.now leg place result }
{
    in_numbers(plans::of_plan(plan, |t| margins::nearest_at(t, leg, place)))
}
