//! A survey: every violated place of a table, in order, by slices that go on after each.
#![tactic(auto)]

ghost use Rattle.places.specs.Order.{IsPlace};
ghost use Rattle.checker.specs.Cursors.{CursorRight};
ghost use Rattle.survey.specs.Survey.{RightAfter};
ghost use Rattle.survey.specs.Steps.{Finds};

use checker::SliceAnswer;
use files::Cursor;
use rules::Rule;

/// What the next step of a survey finds: a violated place, how many places were looked at, its rule, and where the survey goes on; where it paused; or the end, since nothing is violated
/// from here on. None of these is a cursor for a check: before it there may be violated places.
#[derive(Clone, Copy, Debug, PartialEq, Eq)]
pub enum Found {
    Violated(Cursor, u32, Rule, Cursor),
    Paused(Cursor),
    Over(Cursor),
}

/// Where a survey goes on after a violated place: at the next place, or at the end.
// Kept: the cursor changes here and the table stays, so a type of both would be taken apart and built anew; RightAfter speaks of both.
fn place_after(t: &[u32], at: Cursor) -> Cursor
    requires cursor_right { CursorRight t.now at }
    requires place { IsPlace t.now at.leg at.place }
    ensures { CursorRight t.now result × RightAfter t.now at result }
{
    if (at.place as usize) + 1 < places::places_of(at.leg as usize) {
        return Cursor {
            place: at.place + 1,
            ..at
        };
    }
    Cursor {
        leg: at.leg + 1,
        place: 0,
        ..at
    }
}

/// Internal: the next step of a survey, which looks at as many places as the budget says.
// Kept: the caller goes on with the cursor that it is told, so a type of table and cursor would be built anew for each step.
pub fn step(t: &[u32], from: Cursor, budget: u32) -> Found
    requires { CursorRight t.now from }
    ensures { Finds t.now from budget result }
{
    match checker::look::looked(t, from, budget) {
        SliceAnswer::Violated(at, steps, rule) => Found::Violated(
            at,
            steps,
            rule,
            place_after(t, at),
        ),
        SliceAnswer::Paused(at, _) => Found::Paused(at),
        SliceAnswer::NothingViolated(end, _) => Found::Over(end),
        // Kept: `Slices` speaks of SliceAnswer with its four cases; that this one never comes here is proved.
        SliceAnswer::Refused(_, _) => unreachable!(),
    }
}
