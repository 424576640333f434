//! The legs of a plan with their numbers, and how they are printed.
use plan_text::Draft;
use reasons::records;
use rules::Frame;
use rules::leg::TimedLeg;
use shape::plan::Plan;
use std::io::Write;
use std::{fmt, io};

/// A table, and the names of its nodes and streams.
// Kept: nobody compares or prints it, and Draft, which it lends, has no equality.
// Kept: margin_at, judged_cursor and start take words and refuse what is no plan, each in its order; a Plan is judged only to print a leg.
#[derive(Clone, Copy)]
pub(crate) struct NamedTable<'a> {
    pub(crate) t: &'a [u32],
    pub(crate) names: &'a Draft<'a>,
}

/// A leg of it with what its stream and its link say of it.
// Kept: nobody compares or prints it, and NamedTable has no equality.
#[derive(Clone, Copy)]
pub(crate) struct NamedLeg<'a> {
    pub(crate) plan: NamedTable<'a>,
    pub(crate) at: u32,
    pub(crate) frame: Frame,
}

/// Prints a name in brackets, if there is one.
fn in_brackets<O: Write>(out: &mut O, name: Option<&[u8]>) -> io::Result<()> {
    if let Some(name) = name {
        out.write_all(b" (")?;
        out.write_all(name)?;
        out.write_all(b")")?;
    }
    Ok(())
}

impl<'a> NamedTable<'a> {
    /// Leg a, if the plan has it.
    pub(crate) fn leg(self, a: u32) -> Option<NamedLeg<'a>> {
        let plan = Plan::judge(self.t).ok()?;
        let at = a as usize;
        if plan.legs() <= at {
            return None;
        }
        let frame = TimedLeg::of(&plan, at).frame;
        Some(NamedLeg {
            plan: self,
            at: a,
            frame,
        })
    }

    fn put_node<O: Write>(&self, out: &mut O, n: u32) -> io::Result<()> {
        write!(out, "node {n}")?;
        in_brackets(out, self.names.node_name(n))
    }

    /// Prints where a leg belongs: its stream, and its link with the nodes at its ends.
    pub(crate) fn put_place_of<O: Write>(&self, out: &mut O, a: u32) -> io::Result<()> {
        let leg = records::leg_at(self.t, a);
        let link = records::link_at(self.t, leg.link);
        write!(out, "stream {}", leg.stream)?;
        in_brackets(out, self.names.stream_name(leg.stream))?;
        write!(out, ", link {} from ", leg.link)?;
        self.put_node(out, link.from)?;
        out.write_all(b" to ")?;
        self.put_node(out, link.to)
    }
}

impl<'a> NamedLeg<'a> {
    /// The leg before it, if the plan has one.
    pub(crate) fn before(self) -> Option<NamedLeg<'a>> {
        self.plan.leg(self.at.checked_sub(1)?)
    }

    /// The first leg of its stream.
    pub(crate) fn first(self) -> Option<NamedLeg<'a>> {
        let stream = records::leg_at(self.plan.t, self.at).stream;
        self.plan.leg(records::stream_at(self.plan.t, stream).first)
    }

    /// Prints its line: where it belongs, and the numbers that all rules use.
    pub(crate) fn put<O: Write>(self, out: &mut O) -> io::Result<()> {
        let leg = records::leg_at(self.plan.t, self.at);
        let octets = records::stream_at(self.plan.t, leg.stream).octets;
        let rate = records::link_at(self.plan.t, leg.link).rate;
        let f = self.frame;
        write!(out, "leg {}: ", self.at)?;
        self.plan.put_place_of(out, self.at)?;
        write!(
            out,
            "; offset {} ns, period word {}, period {} ns; ",
            f.offset, leg.periods, f.period
        )?;
        writeln!(
            out,
            "{octets} octets at {rate} ns: on the wire for {} ns, holds the link for {} ns",
            f.wire, f.hold
        )
    }

    /// When it starts.
    pub(crate) fn start(self) -> Start {
        Start {
            periods: records::leg_at(self.plan.t, self.at).periods,
            frame: self.frame,
        }
    }

    /// When its frame is at the next node.
    pub(crate) fn ready(self, at: u64) -> Ready {
        Ready {
            frame: self.frame,
            precision: records::header_word(self.plan.t, table::PRECISION_AT),
            at,
        }
    }
}

/// When a leg starts: offset + period word x period = start.
#[derive(Clone, Copy, Debug, PartialEq, Eq)]
pub(crate) struct Start {
    periods: u32,
    frame: Frame,
}

impl fmt::Display for Start {
    fn fmt<W: fmt::Write>(&self, f: &mut fmt::Formatter<W>) -> fmt::Result {
        let leg = self.frame;
        write!(f, "{}", leg.offset)?;
        if self.periods != 0 {
            write!(f, " + {} x {} = {}", self.periods, leg.period, leg.start)?;
        }
        Ok(())
    }
}

/// When a leg's frame is at the next node: start + wire + propagation + precision = ready.
#[derive(Clone, Copy, Debug, PartialEq, Eq)]
pub(crate) struct Ready {
    frame: Frame,
    precision: u32,
    at: u64,
}

impl fmt::Display for Ready {
    fn fmt<W: fmt::Write>(&self, f: &mut fmt::Formatter<W>) -> fmt::Result {
        let leg = self.frame;
        write!(
            f,
            "{} + {} + {} + {} = {} ns (start, on the wire, propagation, precision)",
            leg.start, leg.wire, leg.propagation, self.precision, self.at
        )
    }
}
