//! The check: start, slice and move.
#![tactic(auto)]

ghost use Rattle.std.specs.Prelude.{Result};
ghost use Rattle.checker.specs.Slices.{Starts, Slices};
ghost use Rattle.checker.specs.Moves.{Moves};

use basics::Refusal;
use files::{Cursor, Returned};
use rules::Rule;
use shape::plan::Plan;
use table::Move;

pub mod accepted;
pub mod cursors;
pub mod look;

/// The answer of a slice: violated, with the cursor of that place, the steps and the rule; nothing violated from here on, with the end cursor and the steps; paused, with the
/// cursor of the first place not looked at and the steps; or a refusal, and the cursor as it was given.
// Kept: the customer names these four answers (113 in docs/DECISIONS.md).
#[derive(Clone, Copy, Debug, PartialEq, Eq)]
pub enum SliceAnswer {
    Violated(Cursor, u32, Rule),
    NothingViolated(Cursor, u32),
    Paused(Cursor, u32),
    Refused(Refusal, Cursor),
}

/// Starts a check of a table: returns the cursor of its first place. A refusal returns 0, 0, 0 with it.
pub fn start(t: &[u32]) -> Result<Cursor, Returned>
    ensures { Starts t.now result }
{
    let none = Cursor {
        revision: 0,
        leg: 0,
        place: 0,
    };
    let plan = Plan::judge(t).map_err(|refusal| Returned {
        refusal,
        cursor: none,
    })?;
    Ok(Cursor {
        revision: plan.revision(),
        ..none
    })
}

/// Looks at places in order from a cursor on, as many as the budget says, and stops sooner only at a violated place or at the end.
pub fn slice(t: &[u32], cursor: Cursor, budget: u32) -> SliceAnswer
    ensures { Slices t.now cursor budget result }
{
    match cursors::judged_cursor(t, cursor) {
        Ok(()) => look::looked(t, cursor, budget),
        Err(refusal) => SliceAnswer::Refused(refusal, cursor),
    }
}

/// Sets the offset and the period word of one leg and raises the revision by one. Returns a cursor of the new revision: the one given, or the first place of that leg if it was
/// past it. A refusal leaves the table as it is and returns the cursor as it was given.
pub fn move_leg(t: &mut [u32], cursor: Cursor, mv: Move) -> Result<Cursor, Returned>
    ensures { Moves t.old cursor mv result t.new }
{
    if let Err(refusal) = cursors::judged_move(t, cursor, mv) {
        return Err(Returned { refusal, cursor });
    }
    let revision = t[table::REVISION_AT] + 1;
    table::parts::make_move(t, mv, revision);
    Ok(cursors::pulled_back(cursor, revision, mv.leg))
}
