//! The picture of a stream: its legs over links and time, for the frame of period 0.
use crate::axis::{Axis, LEFT, WIDTH};
use crate::plan::Named;
use crate::svg::Lasting;
use crate::{axis, names, svg};
use rules::leg::TimedLeg;
use std::io;
use std::io::Write;

/// Where what is told of each leg stands, and how wide the picture is.
const TOLD: u64 = LEFT + WIDTH + 1500;

const PAGE: u64 = TOLD + 20500;

const TOP: u64 = 10000;

const ROW: u64 = 5000;

const FOOT: u64 = 8000;

/// The columns that names have: of a stream and of nodes in the title, and of a node beside its row.
const STREAM_ROOM: u64 = 24;

const NODE_ROOM: u64 = 24;

const ROW_NODE_ROOM: u64 = 14;

const THINNEST: u64 = 200;

/// What is drawn: a stream of a plan, the stretch of time, the legs from the first to before the end, and when the deadline is.
// Kept: nobody compares or prints it, and Named, which it lends, has no equality.
#[derive(Clone, Copy)]
struct Route<'p> {
    plan: &'p Named<'p>,
    stream: u32,
    axis: Axis,
    first: usize,
    end: usize,
    due: u64,
}

/// Where the row of the i-th leg of a route begins.
fn row_at(i: usize) -> u64 {
    TOP.saturating_add((i as u64).saturating_mul(ROW))
}

/// The end of what is drawn: a deadline that is far off is not waited for.
fn end_of(from: u64, over: u64, due: u64) -> u64 {
    let long = over.saturating_sub(from);
    if from.saturating_add(long.saturating_mul(4)) < due {
        return over;
    }
    over.max(due)
}

/// A stretch of time with a margin.
fn framed(from: u64, to: u64) -> Axis {
    let margin = (to.saturating_sub(from) / 20).saturating_add(1);
    Axis {
        from: from.saturating_sub(margin),
        to: to.saturating_add(margin),
    }
}

impl<'p> Route<'p> {
    fn of(plan: &'p Named<'p>, stream: u32) -> Route<'p> {
        let s = plan.stream(stream);
        let first = s.first as usize;
        let end = first.saturating_add(s.count as usize);
        let mut from = plan.start_at(first);
        let mut over = 0;
        for a in first..end {
            if let Some(leg) = plan.timed(a) {
                let f = leg.frame;
                from = from.min(f.start);
                // Nothing more is drawn of a leg then.
                over = over.max(f.start.saturating_add(f.hold)).max(leg.ready());
            }
        }
        let due = plan.start_at(first).saturating_add(u64::from(s.deadline));
        Route {
            plan,
            stream,
            axis: framed(from, end_of(from, over, due)),
            first,
            end,
            due,
        }
    }

    /// The last leg.
    fn last(&self) -> usize {
        self.end.saturating_sub(1)
    }

    /// When the last leg is ready, and when it is due.
    fn deadline(&self) -> Compared {
        let last = self.plan.timed(self.last());
        Compared {
            kept: last.is_none_or(|leg| leg.keeps_deadline()),
            from: last.map_or(0, |leg| leg.ready()),
            to: self.due,
        }
    }

    /// Where the last row ends.
    fn bottom(&self) -> u64 {
        row_at(self.end.saturating_sub(self.first))
    }
}

// ---- What is told of a rule

/// Two instants or lengths that a rule compares, and whether it is kept by them.
#[derive(Clone, Copy, Debug, PartialEq, Eq)]
struct Compared {
    kept: bool,
    from: u64,
    to: u64,
}

impl Compared {
    /// Prints how much time is left, or lacking.
    fn put_spare<O: Write>(self, out: &mut O) -> io::Result<()> {
        if self.kept {
            return write!(out, "{} ns left", self.to.saturating_sub(self.from));
        }
        write!(out, "lacks {} ns", self.from.saturating_sub(self.to))
    }

    fn put_rule<O: Write>(self, out: &mut O, rule: &str, y: u64) -> io::Result<()> {
        let class = if self.kept { "small" } else { "small fault" };
        svg::begin_text(out, class, TOLD, y)?;
        write!(out, "{rule}: ")?;
        self.put_spare(out)?;
        svg::end_text(out)
    }

    /// The time between the two as a line, by whether the rule is kept.
    fn draw<O: Write>(self, out: &mut O, axis: Axis, y: u64) -> io::Result<()> {
        let (from, to) = (axis.place(self.from), axis.place(self.to));
        if self.kept {
            let y = y.saturating_add(2200);
            return svg::line(out, "spare", from, y, to, y);
        }
        let y = y.saturating_add(3700);
        svg::line(out, "lack", to, y, from, y)
    }
}

// ---- A leg

// Kept: rows::Bars holds the y and the height of a link's picture; here each leg has its own, for which a Bars would be made at each call.
fn bar<O: Write>(
    out: &mut O,
    axis: Axis,
    class: &str,
    y: u64,
    from: u64,
    to: u64,
) -> io::Result<()> {
    let x = axis.place(from);
    let width = axis.place(to).saturating_sub(x).max(THINNEST);
    svg::rect(out, class, x, y.saturating_add(1200), width, 2000)
}

/// The way of a frame to the next node, after it was sent.
fn way<O: Write>(out: &mut O, axis: Axis, leg: &TimedLeg, y: u64) -> io::Result<()> {
    let f = leg.frame;
    let sent = axis.place(f.start.saturating_add(f.wire));
    let x = axis.place(leg.ready());
    let middle = y.saturating_add(2200);
    svg::line(out, "way", sent, middle, x, middle)?;
    let (upper, lower) = (y.saturating_add(1700), y.saturating_add(2700));
    svg::line(out, "way", x, upper, x, lower)
}

fn frame<O: Write>(out: &mut O, axis: Axis, leg: &TimedLeg, y: u64, kept: bool) -> io::Result<()> {
    let f = leg.frame;
    let class = if kept { "leg" } else { "leg bad" };
    writeln!(out, "<g class=\"{class}\">")?;
    bar(out, axis, "gap", y, f.start, f.start.saturating_add(f.hold))?;
    bar(
        out,
        axis,
        "wire",
        y,
        f.start,
        f.start.saturating_add(f.wire),
    )?;
    writeln!(out, "</g>")?;
    way(out, axis, leg, y)
}

fn label<O: Write>(out: &mut O, plan: &Named, a: usize, link: u32, y: u64) -> io::Result<()> {
    let name = format_args!("leg {a}, link {link}");
    svg::text(out, "leg-name", 2000, y.saturating_add(2100), name)?;
    svg::begin_text(out, "small quiet", 2000, y.saturating_add(3800))?;
    plan.put_ends(out, link, ROW_NODE_ROOM)?;
    svg::end_text(out)
}

/// From when the leg before it is ready to when a leg starts.
fn hop<O: Write>(out: &mut O, r: &Route, leg: &TimedLeg, y: u64, kept: bool) -> io::Result<()> {
    let a = leg.at;
    let start = leg.frame.start;
    let told = y.saturating_add(2100);
    if a <= r.first {
        let starts = format_args!("starts at {start} ns");
        return svg::text(out, "small", TOLD, told, starts);
    }
    let at = r.plan.ready_at(a.saturating_sub(1));
    let x = r.axis.place(at);
    let (upper, lower) = (y.saturating_sub(2300), y.saturating_add(2200));
    svg::line(out, "hop", x, upper, x, lower)?;
    let compared = Compared {
        kept,
        from: at,
        to: start,
    };
    compared.draw(out, r.axis, y)?;
    compared.put_rule(out, "hop", told)
}

fn leg<O: Write>(out: &mut O, r: &Route, a: usize, y: u64) -> io::Result<()> {
    let Some(leg) = r.plan.timed(a) else {
        return Ok(());
    };
    let f = leg.frame;
    let in_window = leg.keeps_window();
    let in_hop = leg.keeps_hop();
    let in_time = leg.keeps_deadline();
    label(out, r.plan, a, f.link, y)?;
    hop(out, r, &leg, y, in_hop)?;
    if a == r.last() {
        r.deadline().draw(out, r.axis, y)?;
    }
    let kept = in_window && in_hop && in_time;
    frame(out, r.axis, &leg, y, kept)?;
    let window = Compared {
        kept: in_window,
        from: f.offset.saturating_add(f.hold),
        to: f.period,
    };
    window.put_rule(out, "window", y.saturating_add(3800))
}

/// The grounds of every other row.
// Kept: a ground belongs to each row whose number is even, which a step of two would leave to the reader.
fn stripes<O: Write>(out: &mut O, r: &Route) -> io::Result<()> {
    for i in 0..r.end.saturating_sub(r.first) {
        if i % 2 == 0 {
            svg::rect(out, "stripe", 1200, row_at(i), PAGE - 2400, ROW)?;
        }
    }
    Ok(())
}

// Kept: a is the number of the leg, and its row is told by how far it is from the first.
fn rows<O: Write>(out: &mut O, r: &Route) -> io::Result<()> {
    for a in r.first..r.end {
        leg(out, r, a, row_at(a.saturating_sub(r.first)))?;
    }
    Ok(())
}

// ---- The whole

/// The deadline, or that it lies further on.
fn due<O: Write>(out: &mut O, r: &Route) -> io::Result<()> {
    let deadline = r.deadline();
    let x = r.axis.place(r.due);
    let y = TOP - 600;
    // The text has its room on the longer side.
    let is_left = x < LEFT + WIDTH / 2;
    let class = match (is_left, deadline.kept) {
        (true, true) => "small due-text",
        (true, false) => "small due-text fault",
        (false, true) => "small due-text end",
        (false, false) => "small due-text end fault",
    };
    let beside = if is_left {
        x.saturating_add(600)
    } else {
        x.saturating_sub(600)
    };
    svg::begin_text(out, class, beside, y)?;
    write!(out, "deadline at {} ns: ", r.due)?;
    deadline.put_spare(out)?;
    if r.axis.to < r.due {
        write!(out, ", further on \u{2192}")?;
        return svg::end_text(out);
    }
    svg::end_text(out)?;
    svg::line(out, "due", x, TOP - 1700, x, r.bottom())
}

fn put_name<O: Write>(out: &mut O, r: &Route) -> io::Result<()> {
    let plan = r.plan;
    names::stream_title(out, plan.names, r.stream, STREAM_ROOM)?;
    write!(out, ": ")?;
    let from = plan.link(plan.leg(r.first).link).from;
    let to = plan.link(plan.leg(r.last()).link).to;
    names::nodes(out, plan.names, from, to, NODE_ROOM)
}

fn put_about<O: Write>(out: &mut O, r: &Route) -> io::Result<()> {
    let s = r.plan.stream(r.stream);
    let period = Lasting(u64::from(s.period));
    let deadline = Lasting(u64::from(s.deadline));
    let octets = s.octets;
    let legs = s.count;
    let word = if legs == 1 { "leg" } else { "legs" };
    let precision = r.plan.plan.precision();
    write!(out, "period T = {period}, deadline {deadline}, ")?;
    write!(
        out,
        "{octets} octets, {legs} {word}, clock precision {precision} ns"
    )
}

// Kept: the link's picture differs in width, a sentence, name and about; one function would take these four, two of them as closures.
fn head<O: Write>(out: &mut O, r: &Route, height: u64) -> io::Result<()> {
    svg::begin(out, PAGE, height)?;
    write!(out, "<title>")?;
    put_name(out, r)?;
    write!(
        out,
        "</title>\n<desc>The way of the frame of period 0 over its links: "
    )?;
    put_about(out, r)?;
    writeln!(out, "</desc>")?;
    svg::style(out, PAGE, height)?;
    svg::begin_text(out, "title", 2000, 3000)?;
    put_name(out, r)?;
    svg::end_text(out)?;
    svg::begin_text(out, "quiet", 2000, 5200)?;
    put_about(out, r)?;
    svg::end_text(out)
}

/// What the colours mean.
fn legend<O: Write>(out: &mut O, y: u64) -> io::Result<()> {
    let top = y.saturating_sub(1000);
    svg::rect(out, "wire", LEFT, top, 1200, 1200)?;
    svg::text(out, "small", LEFT + 1900, y, "frame on the wire")?;
    svg::rect(out, "gap", LEFT + 16000, top, 1200, 1200)?;
    svg::text(out, "small", LEFT + 17900, y, "gap after it")?;
    let middle = y.saturating_sub(400);
    svg::line(out, "way", LEFT + 28000, middle, LEFT + 30000, middle)?;
    let way = "propagation and clock precision";
    svg::text(out, "small", LEFT + 30700, y, way)?;
    svg::line(out, "spare", LEFT + 54000, middle, LEFT + 56000, middle)?;
    svg::text(out, "small", LEFT + 56700, y, "time left")?;
    svg::line(out, "lack", LEFT + 65000, middle, LEFT + 67000, middle)?;
    svg::text(out, "small", LEFT + 67700, y, "time lacking")
}

fn foot<O: Write>(out: &mut O, r: &Route) -> io::Result<()> {
    let bottom = r.bottom();
    axis::base(out, bottom)?;
    axis::labels(out, r.axis, bottom.saturating_add(1700))?;
    let after = " from the start of period 0";
    axis::caption(out, r.axis, bottom.saturating_add(3600), after)?;
    legend(out, bottom.saturating_add(6000))
}

/// Draws a stream that is there.
pub(crate) fn draw<O: Write>(out: &mut O, plan: &Named, stream: u32) -> io::Result<()> {
    let r = Route::of(plan, stream);
    let bottom = r.bottom();
    let period = u64::from(plan.stream(stream).period);
    head(out, &r, bottom.saturating_add(FOOT))?;
    stripes(out, &r)?;
    axis::grid(out, r.axis, TOP, bottom)?;
    axis::periods(out, r.axis, period, TOP, bottom)?;
    due(out, &r)?;
    rows(out, &r)?;
    foot(out, &r)?;
    writeln!(out, "</svg>\nstatus 0")
}
