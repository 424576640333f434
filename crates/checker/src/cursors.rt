// Cursors, judged and pulled back.
ghost use Rattle.std.specs.Prelude.{Result, IsTrue, ◌↔◌};
ghost use Rattle.shape.specs.Shape.{WellFormedTable};
ghost use Rattle.places.specs.Order.{PlaceOrEnd};
ghost use Rattle.checker.specs.Cursors.{CursorRight};
ghost use Rattle.checker.specs.Steps.{CursorTold, MoveTold, PulledBack};

use basics::{Cause, Refusal};
use files::Cursor;
use shape::plan::Plan;
use table::Move;

pub const MAX_REVISION: u32 = 4294967295;

/// Whether (a,p) is a place of the table, or the end.
fn is_place_or_end(plan: &Plan, a: u32, p: u32) -> bool
    ensures { IsTrue result ↔ PlaceOrEnd plan.now a p }
{
    let a = a as usize;
    let legs = plan.legs();
    if a < legs {
        return (p as usize) < places::places_of(a);
    }
    a == legs && p == 0
}

/// The refusals 8 and 9 of a cursor of a well-formed plan.
// Kept: CursorTold says that none of 1 to 7 is due, which a Plan's guarantees alone do not say.
fn placed(plan: &Plan, c: Cursor) -> Result<(), Refusal>
    requires { WellFormedTable plan.now }
    ensures { CursorTold plan.now c result }
{
    if c.revision != plan.revision() {
        return Err(Cause::StaleCursor.at(0));
    }
    if !is_place_or_end(plan, c.leg, c.place) {
        return Err(Cause::NoPlace.at(0));
    }
    Ok(())
}

/// Internal: the first of the refusals 1 to 9 of a table and a cursor.
pub fn judged_cursor(t: &[u32], c: Cursor) -> Result<(), Refusal>
    ensures { CursorTold t.now c result }
{
    let plan = Plan::judge(t)?;
    placed(&plan, c)
}

/// The refusals 10, 11 and 17 of a move, whose cursor is right.
// Kept: CursorRight is of a table and a cursor; a type of both would be built by judged_move alone, for this one call.
fn allowed(t: &[u32], c: Cursor, mv: Move) -> Result<(), Refusal>
    requires { CursorRight t.now c }
    ensures { MoveTold t.now c mv result }
{
    if t[table::LEGS_AT] <= mv.leg {
        return Err(Cause::NoLeg.at(0));
    }
    if t[table::REVISION_AT] == MAX_REVISION {
        return Err(Cause::CannotRise.at(0));
    }
    if shape::streams::MAX_PERIODS < mv.periods {
        return Err(Cause::TooLate.at(0));
    }
    Ok(())
}

/// Internal: the first of the refusals 1 to 11 and 17 of a move.
pub fn judged_move(t: &[u32], c: Cursor, mv: Move) -> Result<(), Refusal>
    ensures { MoveTold t.now c mv result }
{
    judged_cursor(t, c)?;
    allowed(t, c, mv)
}

/// Internal: the lesser of the cursor's place and (leg,0), at a revision.
pub fn pulled_back(c: Cursor, revision: u32, leg: u32) -> Cursor
    ensures { PulledBack c revision leg result }
{
    if c.leg < leg {
        return Cursor { revision, ..c };
    }
    Cursor {
        revision,
        leg,
        place: 0,
    }
}
