// Whether a leg and a place are a place of a table.
ghost use Rattle.basics.specs.Refusals.{Told};
ghost use Rattle.margins.specs.Asking.{ask_refusals};

use basics::{Cause, Refusal};

// The first of the refusals 1 to 7 and 9 that is due, or none.
// Kept: ask_refusals takes leg and place apart, as margin_at and nearest_at are called with them; a type would be built for this one call.
pub(crate) fn judged(t: &[u32], leg: u32, place: u32) -> Result<(), Refusal>
    ensures { Told (ask_refusals t.now leg place) result }
{
    shape::judged_shape(t)?;
    if t[table::LEGS_AT] <= leg {
        return Err(Cause::NoPlace.at(0));
    }
    if places::places_of(leg as usize) <= place as usize {
        return Err(Cause::NoPlace.at(0));
    }
    Ok(())
}
