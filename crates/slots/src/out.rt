// The answers on standard output. The numbers of an admitted stream are those of the enlarged table.
use basics::Refusal;
use files::Cursor;
use reasons::records;
use rules::Rule;
use rules::leg::TimedLeg;
use shape::plan::Plan;
use std::io;
use std::io::Write;
use table::{Leg, Link};

// What is in front of the answer about a stream that has a label.
fn begin<O: Write>(out: &mut O, label: &[u8]) -> io::Result<()> {
    if !label.is_empty() {
        out.write_all(label)?;
        write!(out, ": ")?;
    }
    Ok(())
}

/// A stream that is refused.
pub(crate) fn refused<O: Write>(out: &mut O, label: &[u8], refusal: Refusal) -> io::Result<()> {
    begin(out, label)?;
    show::refused(out, refusal)
}

/// A plan that is not accepted, and its first violated place.
pub(crate) fn not_accepted<O: Write>(out: &mut O, at: Cursor, rule: Rule) -> io::Result<()> {
    show::answers::not_accepted(out, at, rule)?;
    writeln!(out)
}

fn leg<O: Write>(out: &mut O, leg: &TimedLeg) -> io::Result<()> {
    let a = leg.at;
    let start = leg.frame.start;
    let arrival = leg.ready();
    let Leg {
        link,
        offset,
        periods,
        ..
    } = leg.plan.leg(a);
    let Link { from, to, .. } = leg.plan.link(link as usize);
    write!(
        out,
        "leg {a} on link {link} from node {from} to node {to}: "
    )?;
    writeln!(
        out,
        "starts at {start} ns (offset {offset}, period word {periods}), arrives by {arrival} ns"
    )
}

/// A stream that is admitted, the last one of the enlarged table, which is a plan, and each of its legs.
pub(crate) fn admitted<O: Write>(
    out: &mut O,
    label: &[u8],
    u: &[u32],
    offset: u32,
) -> io::Result<()> {
    let last = records::header_word(u, table::STREAMS_AT).wrapping_sub(1);
    begin(out, label)?;
    writeln!(out, "admitted stream {last} offset {offset}")?;
    let first = records::stream_at(u, last).first as usize;
    if let Ok(plan) = Plan::judge(u) {
        for a in first..plan.legs() {
            leg(out, &TimedLeg::of(&plan, a))?;
        }
    }
    Ok(())
}

/// The new file, and the exit status: some of the streams may have been left out.
pub(crate) fn written<O: Write>(
    out: &mut O,
    u: &[u32],
    bytes: usize,
    left_out: u32,
    all: u32,
) -> io::Result<()> {
    writeln!(
        out,
        "written streams {} legs {} revision {} bytes {bytes}",
        records::header_word(u, table::STREAMS_AT),
        records::header_word(u, table::LEGS_AT),
        records::header_word(u, table::REVISION_AT)
    )?;
    if left_out == 0 {
        writeln!(out, "status 0")
    } else {
        writeln!(out, "status 1 left {left_out} {all}")
    }
}

/// The exit status where nothing is written.
pub(crate) fn nothing_written<O: Write>(out: &mut O) -> io::Result<()> {
    writeln!(out, "status 2")
}
