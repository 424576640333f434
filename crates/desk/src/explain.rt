//! Why a place holds or not: its rule with the plan's own numbers put in. The numbers are those of margins::margin_at, meeting::meeting and margins::nearest_at, and of
//! rules::times::frame; how they are put into sentences is tested, not proved.
use crate::legs::{NamedLeg, NamedTable};
use crate::whole;
use basics::{Cause, Refusal};
use checker::SliceAnswer;
use margins::{Margin, Nearest, Sides, Spare, Turns};
use reasons::{records, report, small};
use repeats::Meeting;
use rules::{Asked, Frame, Rule};
use show::{answers, told};
use std::io::Write;
use std::{fmt, io};

/// The first line: the place, and whether its rule is kept there.
// Kept: leg and place come from arguments, a check or a saved cursor, and go to margins::margin_at, which takes the two apart.
fn verdict<O: Write>(out: &mut O, leg: u32, place: u32, spare: Spare) -> io::Result<()> {
    let verdict = match spare {
        Spare::Free | Spare::Left(_) => "holds",
        Spare::Lacks(_) => "violated",
    };
    let rule = told::rule_word(Rule::from(rules::place::asked_at(place as usize)));
    writeln!(out, "{verdict} {leg} {place} {rule}")
}

fn window<O: Write>(out: &mut O, f: Frame, s: Sides) -> io::Result<()> {
    writeln!(
        out,
        "window: offset and hold time are {} + {} = {} ns, and the period is {} ns",
        f.offset, f.hold, s.needs, s.has
    )
}

/// The hop needs the leg before.
fn hop<O: Write>(out: &mut O, leg: NamedLeg, s: Sides) -> io::Result<()> {
    let Some(before) = leg.before() else {
        return Ok(());
    };
    let (previous, at) = (before.at, leg.at);
    let began = before.start();
    let ready = before.ready(s.needs);
    let start = leg.start();
    writeln!(
        out,
        "hop: leg {previous}, which starts at {began} ns, has arrived at {ready}, and leg {at} starts at {start} ns"
    )
}

/// The deadline needs the first leg.
fn deadline<O: Write>(out: &mut O, leg: NamedLeg, s: Sides) -> io::Result<()> {
    let Some(first) = leg.first() else {
        return Ok(());
    };
    let at = leg.at;
    let start = leg.start();
    let ready = leg.ready(s.needs);
    write!(
        out,
        "deadline: leg {at}, which starts at {start} ns, has arrived at {ready}, and is due at "
    )?;
    writeln!(
        out,
        "{} + {} = {} ns (first leg's start, deadline)",
        first.frame.start, leg.frame.deadline, s.has
    )
}

/// How far two legs lie apart, going round by the divisor of their periods.
fn turns<O: Write>(out: &mut O, leg: NamedLeg, other: NamedLeg, s: Turns) -> io::Result<()> {
    let (a, b) = (leg.at, other.at);
    write!(
        out,
        "overlap: the periods {} and {} ns have the greatest common divisor {} ns. ",
        leg.frame.period, other.frame.period, s.divisor
    )?;
    write!(
        out,
        "By it leg {b} begins {} ns after leg {a}, which holds the link for {} ns, ",
        s.after, s.hold
    )?;
    writeln!(
        out,
        "and leg {a} begins {} ns after leg {b}, which holds it for {} ns",
        s.divisor.wrapping_sub(s.after),
        s.other
    )
}

/// When the repeat of a leg that holds its link at an instant began: that lies a whole number of periods after its offset, and less than a period before the instant.
fn begun_at(f: Frame, instant: u64) -> u64 {
    let since = instant.wrapping_sub(f.offset);
    instant.wrapping_sub(since.checked_rem(f.period).unwrap_or(0))
}

/// One leg at a meeting: its repeat, when that begins, and when it ends.
fn repeat<O: Write>(out: &mut O, leg: NamedLeg, k: u64, instant: u64) -> io::Result<()> {
    let f = leg.frame;
    let begun = begun_at(f, instant);
    write!(
        out,
        "leg {} in its repeat {k}, from {} + {k} x {} = {begun} up to {} ns",
        leg.at,
        f.offset,
        f.period,
        begun.wrapping_add(f.hold)
    )
}

/// Where two legs meet first.
fn meeting_line<O: Write>(
    out: &mut O,
    leg: NamedLeg,
    other: NamedLeg,
    met: Meeting,
) -> io::Result<()> {
    let instant = met.instant;
    write!(
        out,
        "both hold the link at {instant} ns, and at no earlier instant: "
    )?;
    repeat(out, leg, met.first, instant)?;
    write!(out, "; ")?;
    repeat(out, other, met.second, instant)?;
    writeln!(out)
}

/// An overlap with leg b: that leg's line, how far they lie apart, and where they meet first.
fn overlap<O: Write>(out: &mut O, leg: NamedLeg, b: u32, s: Turns) -> io::Result<()> {
    let Some(other) = leg.plan.leg(b) else {
        return Ok(());
    };
    other.put(out)?;
    turns(out, leg, other, s)?;
    match meeting::meeting(leg.plan.t, leg.at, b) {
        Ok(Some(met)) => meeting_line(out, leg, other, met),
        Ok(None) | Err(_) => Ok(()),
    }
}

/// Nothing is asked: of which leg that is, the rule says.
fn nothing_asked<O: Write>(out: &mut O, asked: Asked) -> io::Result<()> {
    match asked {
        Asked::Hop => writeln!(out, "hop: nothing is asked of the first leg of a route"),
        Asked::Deadline => writeln!(
            out,
            "deadline: nothing is asked but of the last leg of a route"
        ),
        Asked::Window | Asked::Overlap(_) => {
            writeln!(out, "overlap: nothing is asked of legs on different links")
        }
    }
}

/// What is asked of a leg, with the numbers by which that is kept or not. Turns are asked of two legs alone.
fn told_by<O: Write>(out: &mut O, leg: NamedLeg, asked: Asked, margin: Margin) -> io::Result<()> {
    match (margin, asked) {
        (Margin::Free, _) => nothing_asked(out, asked),
        (Margin::Sides(s), Asked::Window) => window(out, leg.frame, s),
        (Margin::Sides(s), Asked::Hop) => hop(out, leg, s),
        (Margin::Sides(s), _) => deadline(out, leg, s),
        (Margin::Turns(s), Asked::Overlap(b)) => overlap(out, leg, small(b), s),
        (Margin::Turns(_), _) => Ok(()),
    }
}

/// An offset, if there is one.
#[derive(Clone, Copy, Debug, PartialEq, Eq)]
struct Offset(Option<u32>);

impl fmt::Display for Offset {
    fn fmt<W: fmt::Write>(&self, f: &mut fmt::Formatter<W>) -> fmt::Result {
        match self.0 {
            Some(x) => write!(f, "{x} ns"),
            None => f.write_str("none"),
        }
    }
}

/// The nearest offsets that mend a place.
fn mends<O: Write>(out: &mut O, leg: u32, near: Nearest) -> io::Result<()> {
    let below = Offset(near.below);
    let above = Offset(near.above);
    writeln!(
        out,
        "nearest offsets of leg {leg} in its window with which this place holds: {below} below, {above} above"
    )
}

/// The last lines: by how much, and where a place is violated what mends it.
// Kept: leg and place come from arguments, a check or a saved cursor, and go to margins::margin_at, which takes the two apart.
fn ended<O: Write>(out: &mut O, t: &[u32], leg: u32, place: u32, spare: Spare) -> io::Result<()> {
    match spare {
        Spare::Free => writeln!(out, "status 0"),
        Spare::Left(n) => writeln!(out, "kept, with {n} ns left\nstatus 0"),
        Spare::Lacks(n) => {
            writeln!(out, "fails by {n} ns")?;
            if let Ok(near) = margins::nearest_at(t, leg, place) {
                mends(out, leg, near)?;
            }
            writeln!(out, "status 1")
        }
    }
}

/// Says why a place cannot be explained: the plan is refused, or it has no such place.
// Kept: leg and place come from arguments, a check or a saved cursor, and go to margins::margin_at, which takes the two apart.
fn no_place<E: Write>(err: &mut E, t: &[u32], refusal: Refusal, leg: u32, place: u32) {
    if !matches!(refusal.cause, Cause::NoPlace | Cause::NoLeg) {
        return records::why(err, t, refusal);
    }
    let legs = records::header_word(t, table::LEGS_AT);
    if legs <= leg {
        return report(
            err,
            format_args!("there is no leg {leg}: the plan has {legs} legs, counted from 0"),
        );
    }
    report(
        err,
        format_args!(
            "leg {leg} has no place {place}: its places are 0, 1, 2, and 3 + b for each leg b below it"
        ),
    );
}

/// Explains a place of a plan.
// Kept: leg and place come from arguments, a check or a saved cursor, and go to margins::margin_at, which takes the two apart.
pub(crate) fn place<O: Write, E: Write>(
    out: &mut O,
    err: &mut E,
    plan: NamedTable,
    leg: u32,
    place: u32,
) -> io::Result<()> {
    match margins::margin_at(plan.t, leg, place) {
        Ok(at) => {
            verdict(out, leg, place, at.spare)?;
            if let Some(leg) = plan.leg(leg) {
                leg.put(out)?;
                told_by(out, leg, rules::place::asked_at(place as usize), at.margin)?;
            }
            ended(out, plan.t, leg, place, at.spare)
        }
        Err(refusal) => {
            no_place(err, plan.t, refusal, leg, place);
            answers::plan_refused(out, refusal)
        }
    }
}

/// Explains the first violated place of a plan.
pub(crate) fn first<O: Write, E: Write>(
    out: &mut O,
    err: &mut E,
    plan: NamedTable,
) -> io::Result<()> {
    match whole::checked(plan.t) {
        Ok(SliceAnswer::Violated(at, _, _)) => place(out, err, plan, at.leg, at.place),
        Ok(SliceAnswer::NothingViolated(_, _)) => answers::accepted(out),
        Ok(SliceAnswer::Paused(_, _) | SliceAnswer::Refused(_, _)) => Ok(()),
        Err(refusal) => whole::refused(out, err, plan.t, refusal),
    }
}
