// The refusals that come before a first offset is looked for: 1 to 7, 11, 20, 15 and 19.
ghost use Rattle.std.specs.Prelude.{IsTrue, ◌↔◌, ◌≡◌, ◌≤◌, length};
ghost use Rattle.basics.specs.Refusals.{Told};
ghost use Rattle.table.specs.Layout.{max_legs, Sized};
ghost use Rattle.enlarge.specs.Enlarged.{enlarged_words};
ghost use Rattle.admission.specs.Admits.{CanAdd, early_refusals};
ghost use Rattle.admission.specs.Steps.{CanRise};

use crate::least::ANY_WORD;
use basics::{Cause, Refusal};
use checker::cursors::MAX_REVISION;
use enlarge::Request;

// How many words the table has with the new stream and its legs.
// Kept: the table is not yet a Candidate; without Sized the clause could not speak of its header, as `enlarged_words` of specs/Enlarged.antt (enlarge) does.
pub(crate) fn enlarged_words(asked: &Request) -> usize
    requires sized { Sized asked.now.table.now }
    requires legs_le_max_legs { length asked.now.route.now ≤ max_legs }
    ensures { result ≡ enlarged_words asked.now.table.now asked.now.route.now }
{
    asked.table.len() + table::STREAM_WORDS + table::LEG_WORDS * asked.route.len()
}

// Whether the stream breaks no limit and no shape: the table with it, its legs at offset 0, is laid into words of this function's own and judged.
// Kept: the library allocates nothing, so these words lie in an array of fixed size.
fn can_add(asked: &Request) -> bool
    requires { CanRise asked.now.table.now }
    ensures { IsTrue result ↔ CanAdd asked.now.table.now asked.now.wanted asked.now.route.now }
{
    let t = asked.table;
    let route = asked.route;
    if table::MAX_STREAMS <= t[table::STREAMS_AT] as usize {
        return false;
    }
    if table::MAX_LEGS - (t[table::LEGS_AT] as usize) < route.len() {
        return false;
    }
    let mut own = [ANY_WORD; table::MAX_TABLE_WORDS];
    asked.lay_at_zero(&mut own);
    let n = enlarged_words(asked);
    shape::judged_shape(&own[..n]).is_ok()
}

/// Internal: the first of these refusals that is due, or none.
pub(crate) fn judged(asked: &Request, room: usize) -> Result<(), Refusal>
    ensures { Told (early_refusals asked.now.table.now asked.now.wanted asked.now.route.now room) result }
{
    shape::judged_shape(asked.table)?;
    if MAX_REVISION <= asked.table[table::REVISION_AT] {
        return Err(Cause::CannotRise.at(0));
    }
    if !can_add(asked) {
        return Err(Cause::CannotAdd.at(0));
    }
    if room < enlarged_words(asked) {
        return Err(Cause::NoRoom.at(0));
    }
    if !checker::accepted::rules_told(asked.table) {
        return Err(Cause::NotAccepted.at(0));
    }
    Ok(())
}
