// The nearest numbers of a range, below and above a number.
ghost use Rattle.std.specs.Prelude.{◌≤◌, ◌<◌};
ghost use Rattle.numbers.specs.Number.{max_word};
ghost use Rattle.rules.specs.Places.{places_of};
ghost use Rattle.margins.specs.Nearest.{IsAbove, IsBelow, NearestOf};
ghost use Rattle.margins.specs.Ranges.{Fits, Within};

use crate::turning::Turn;
use crate::{Leg, Nearest, Range};

// The first number of a range above y.
fn above(r: Range, y: u64) -> Option<u32>
    requires fits { Fits r }
    requires y_le_max_word { y ≤ max_word }
    ensures { IsAbove (Within r) y result }
{
    if r.turn.modulus < r.turn.before + r.turn.after {
        return None;
    }
    let start = r.from.max(y + 1);
    let x = start + Turn { condition: r.turn }.ahead(start);
    if x < r.end {
        return Some(x as u32);
    }
    None
}

// The last number of a range below y.
fn below(r: Range, y: u64) -> Option<u32>
    requires fits { Fits r }
    requires y_le_max_word { y ≤ max_word }
    ensures { IsBelow (Within r) y result }
{
    if r.turn.modulus < r.turn.before + r.turn.after {
        return None;
    }
    let end = r.end.min(y);
    if end == 0 {
        return None;
    }
    let w = Turn { condition: r.turn }.back(end - 1);
    if r.from + w < end {
        return Some((end - 1 - w) as u32);
    }
    None
}

impl<'p> Leg<'p> {
    // The two of the offsets with which its place p holds.
    pub(crate) fn nearest(&self, p: usize) -> Nearest
        requires { p < places_of self.now.at }
        ensures { NearestOf self.now.table self.now.at p result }
    {
        let r = self.range(rules::place::asked_at(p));
        let offset = self.frame.offset;
        Nearest {
            below: below(r, offset),
            above: above(r, offset),
        }
    }
}
