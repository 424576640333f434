//! The picture of a link.
use crate::axis::{Axis, LEFT, WIDTH};
use crate::page::{MANY_ROWS, Page};
use crate::pairs::{Found, LINE, MOST_LISTED};
use crate::plan::Named;
use crate::svg::Lasting;
use crate::{axis, pairs, rows, stretch, svg};
use reasons::report;
use std::io;
use std::io::Write;

/// How wide the picture is.
const PAGE: u64 = LEFT + WIDTH + 4000;

/// The columns that the name of a node has in the title.
const NODE_ROOM: u64 = 30;

/// What stands below the rows: the axis, what its numbers are, and what the colours mean.
const FOOT: u64 = 8800;

fn rate(ns: u32) -> &'static str {
    match ns {
        8 => "1 Gb/s",
        80 => "100 Mb/s",
        _ => "10 Mb/s",
    }
}

/// How the stretch lies in the cycle.
fn put_stretch<O: Write>(out: &mut O, page: &Page) -> io::Result<()> {
    let axis = page.axis;
    write!(out, "{} to {}", Lasting(axis.from), Lasting(axis.to))?;
    match page.cycle {
        None => write!(out, " of a cycle longer than 1 s"),
        Some(cycle) if axis.from == 0 && cycle == axis.span() => write!(out, ", the whole cycle"),
        Some(cycle) => write!(out, " of a cycle of {}", Lasting(cycle)),
    }
}

fn put_name<O: Write>(out: &mut O, page: &Page) -> io::Result<()> {
    let link = page.link;
    write!(out, "Link {link}: ")?;
    page.plan.put_ends(out, link, NODE_ROOM)
}

fn put_about<O: Write>(out: &mut O, page: &Page) -> io::Result<()> {
    let link = page.plan.link(page.link);
    let rate = rate(link.rate);
    let propagation = link.propagation;
    let legs = page.legs;
    let word = if legs == 1 { "leg" } else { "legs" };
    write!(out, "{rate}, propagation {propagation} ns, {legs} {word}")?;
    if legs == 0 {
        return Ok(());
    }
    write!(out, ", ")?;
    put_stretch(out, page)
}

// Kept: the stream's picture differs in width, a sentence, name and about; one function would take these four, two of them as closures.
fn head<O: Write>(out: &mut O, page: &Page, height: u64) -> io::Result<()> {
    svg::begin(out, PAGE, height)?;
    write!(out, "<title>")?;
    put_name(out, page)?;
    write!(out, "</title>\n<desc>When each leg holds the link: ")?;
    put_about(out, page)?;
    writeln!(out, "</desc>")?;
    svg::style(out, PAGE, height)?;
    svg::begin_text(out, "title", 2000, 3000)?;
    put_name(out, page)?;
    svg::end_text(out)?;
    svg::begin_text(out, "quiet", 2000, 5200)?;
    put_about(out, page)?;
    svg::end_text(out)
}

/// A box of a colour.
fn sample<O: Write>(out: &mut O, class: &str, x: u64, y: u64) -> io::Result<()> {
    svg::rect(out, class, x, y.saturating_sub(1000), 1200, 1200)
}

/// What the colours mean.
fn legend<O: Write>(out: &mut O, y: u64, violated: u64) -> io::Result<()> {
    sample(out, "wire", LEFT, y)?;
    svg::text(out, "small", LEFT + 1900, y, "frame on the wire")?;
    sample(out, "gap", LEFT + 16000, y)?;
    let gap = "gap after it, where it is wide enough to be seen";
    svg::text(out, "small", LEFT + 17900, y, gap)?;
    if violated == 0 {
        return Ok(());
    }
    write!(out, "<g class=\"bad\">")?;
    sample(out, "wire", LEFT + 52000, y)?;
    sample(out, "gap", LEFT + 53200, y)?;
    writeln!(out, "</g>")?;
    svg::text(out, "small", LEFT + 55100, y, "leg in a violated place")
}

fn foot<O: Write>(out: &mut O, page: &Page, violated: u64) -> io::Result<()> {
    let bottom = page.bottom();
    axis::base(out, bottom)?;
    axis::labels(out, page.axis, bottom.saturating_add(1700))?;
    let after = ", all periods begin together at 0";
    axis::caption(out, page.axis, bottom.saturating_add(3600), after)?;
    legend(out, bottom.saturating_add(6000), violated)
}

fn list_foot<O: Write>(out: &mut O, y: u64, violated: u64) -> io::Result<()> {
    if violated == 0 {
        let none = "No two legs meet on this link, and each is over before its period ends.";
        return svg::text(out, "quiet", LEFT, y, none);
    }
    let more = violated.saturating_sub(MOST_LISTED as u64);
    if more != 0 {
        svg::text(out, "fault", LEFT, y, format_args!("and {more} more"))?;
    }
    Ok(())
}

fn top_labels<O: Write>(out: &mut O, page: &Page) -> io::Result<()> {
    if MANY_ROWS < page.legs {
        axis::labels(out, page.axis, page.top.saturating_sub(700))?;
        axis::base(out, page.top)?;
    }
    Ok(())
}

/// The picture, with what is violated on the link.
fn put<O: Write>(out: &mut O, page: &Page, found: &Found) -> io::Result<()> {
    let list = page.bottom().saturating_add(FOOT);
    let lines = found.count.min(MOST_LISTED as u64);
    let end = list.saturating_add(lines.saturating_mul(LINE));
    head(out, page, end.saturating_add(2000))?;
    rows::stripes(out, page)?;
    axis::grid(out, page.axis, page.top, page.bottom())?;
    top_labels(out, page)?;
    rows::all(out, page, &found.is_bad)?;
    foot(out, page, found.count)?;
    pairs::list(out, page, list, found)?;
    list_foot(out, end, found.count)?;
    writeln!(out, "</svg>\nstatus 0")
}

/// A stretch that was asked for and has too many holds.
fn too_many<O: Write, E: Write>(out: &mut O, err: &mut E, holds: u64) -> io::Result<()> {
    let about = holds.min(u64::from(u32::MAX));
    let most = stretch::MOST_HOLDS;
    report(
        err,
        format_args!(
            "the stretch has about {about} holds, and a picture has at most {most}: draw a shorter one"
        ),
    );
    writeln!(out, "refused stretch\nstatus 2")
}

/// Draws a link that is there, over a stretch of time or, where that is empty, over its cycle.
pub(crate) fn draw<O: Write, E: Write>(
    out: &mut O,
    err: &mut E,
    plan: &Named,
    link: u32,
    from: u64,
    to: u64,
) -> io::Result<()> {
    let all = stretch::periods_on(plan, link);
    let periods = all.as_slice();
    let cycle = stretch::cycle(periods);
    let end = if from < to {
        to
    } else {
        from.saturating_add(stretch::length(periods, cycle))
    };
    let holds = stretch::holds(periods, end.saturating_sub(from));
    if stretch::MOST_HOLDS < holds {
        return too_many(out, err, holds);
    }
    let axis = Axis { from, to: end };
    let page = Page::new(plan, link, axis, cycle, periods.len() as u64);
    let found = Found::on_link(plan, link);
    put(out, &page, &found)
}
