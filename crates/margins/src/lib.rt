// What a rule needs and has at a place of a table, and the nearest offsets with which it is kept there.
#![tactic(auto)]

ghost use Rattle.margins.specs.Margins.{Margins};
ghost use Rattle.margins.specs.Nearest.{Nears};
ghost use Rattle.margins.specs.Steps.{IsLeg, LegThere};

use basics::Refusal;
use offsets::Condition;
use rules::Frame;
use std::marker::Model;

pub mod asking;
pub mod near;
pub mod numbers_at;
pub mod ranges;
pub mod sparing;
pub mod turning;

/// The two sides of a rule, in nanoseconds: what it needs, and what it has. It is kept where it needs no more than it has.
#[derive(Clone, Copy, Debug, PartialEq, Eq)]
pub struct Sides {
    pub needs: u64,
    pub has: u64,
}

/// Two legs that take turns on one link, in nanoseconds: the greatest common divisor of their periods, how far the other leg lies after the leg by that divisor, and
/// how long the leg and the other one hold the link. The rule is kept where each ends before the other begins: hold <= after, and other <= divisor - after.
#[derive(Clone, Copy, Debug, PartialEq, Eq)]
pub struct Turns {
    pub divisor: u64,
    pub after: u64,
    pub hold: u64,
    pub other: u64,
}

/// The numbers of the rule at a place: nothing is asked there, or the two sides, or the turns.
#[derive(Clone, Copy, Debug, PartialEq, Eq)]
pub enum Margin {
    Free,
    Sides(Sides),
    Turns(Turns),
}

/// By how much a rule is kept or missed: nothing is asked, so much is left, or so much is lacking.
// Kept: no case is an error or a missing number, as in an Option of a Result; IsSpare names all three.
#[derive(Clone, Copy, Debug, PartialEq, Eq)]
pub enum Spare {
    Free,
    Left(u64),
    Lacks(u64),
}

/// The numbers of the rule at a place, and what is to spare.
#[derive(Clone, Copy, Debug, PartialEq, Eq)]
pub struct At {
    pub margin: Margin,
    pub spare: Spare,
}

/// The numbers of the rule at a place of a table, and by how much it is kept or missed. Errors: 1 to 7 and 9.
// Kept: docs/CALLS.md names this call, which takes plain words.
pub fn margin_at(t: &[u32], leg: u32, place: u32) -> Result<At, Refusal>
    ensures { Margins t.now leg place result }
{
    asking::judged(t, leg, place)?;
    let margin = Leg::of(t, leg as usize).margin(place as usize);
    Ok(At {
        margin,
        spare: sparing::spare(margin),
    })
}

/// Offsets from one number up to but without another, and of those the ones that a condition allows.
#[derive(Clone, Copy, Debug, PartialEq, Eq)]
pub struct Range {
    pub from: u64,
    pub end: u64,
    pub turn: Condition,
}

/// The nearest offsets of a leg, below and above its own; None where there is none.
#[derive(Clone, Copy, Debug, PartialEq, Eq)]
pub struct Nearest {
    pub below: Option<u32>,
    pub above: Option<u32>,
}

/// The nearest offsets of a leg, below and above its own, with which it keeps its window and this place of it holds, its period word staying as it is. Errors: 1 to 7 and 9.
// Kept: docs/CALLS.md names this call, which takes plain words.
pub fn nearest_at(t: &[u32], leg: u32, place: u32) -> Result<Nearest, Refusal>
    ensures { Nears t.now leg place result }
{
    asking::judged(t, leg, place)?;
    Ok(Leg::of(t, leg as usize).nearest(place as usize))
}

// A leg of a well-formed table, with its frame.
// Kept: rules::TimedLeg says Guarantees of its table alone, and where a moved leg stands (`same` of proofs/Standing.antt) rests on WellFormedTable.
#[derive(Drop)]
struct Leg<'p> {
    table: &'p [u32],
    at: usize,
    frame: Frame,
}

impl<'p> Model for Leg<'p> {
    ghost use Rattle.margins.specs.Moving.{LegSeen, Moving};

    ghost Value = { LegSeen };

    ghost view = { λ l. record { table = l.table.now; at = l.at; frame = l.frame } };

    ghost invariant = { λ l. Moving l.table.now l.at l.frame };
}

impl<'p> Leg<'p> {
    // Leg a of the table.
    fn of(table: &'p [u32], at: usize) -> Leg<'p>
        requires { LegThere table.now at }
        ensures { IsLeg table.now at result }
    {
        Leg {
            table,
            at,
            frame: rules::times::frame(table, at),
        }
    }
}
