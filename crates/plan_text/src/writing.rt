//! A draft written as a text.
use crate::draft::{Between, Draft};
use reasons::small;
use std::io::Write;
use std::{fmt, io};
use table::{Leg, Stream};
use units::largest;

/// A text in lent bytes. What has no room is left out, and whoever reads the text again sees that.
#[derive(Drop)]
pub struct Page<'r> {
    room: &'r mut [u8],
    len: usize,
}

impl<'r> Page<'r> {
    pub fn new(room: &'r mut [u8]) -> Page<'r> {
        Page { room, len: 0 }
    }

    /// The text of a draft. No text has more than `MAX_BYTES`.
    pub fn of(draft: &Draft, room: &'r mut [u8]) -> Page<'r> {
        let mut page = Page::new(room);
        let _ = write(&mut page, draft);
        page
    }

    /// What was written.
    // Kept: it hands the bytes out and prints nothing.
    pub fn text(&self) -> &[u8] {
        self.room.get(..self.len).unwrap_or(&[])
    }
}

impl Write for Page<'_> {
    fn write(&mut self, part: &[u8]) -> io::Result<usize> {
        let at = self.len;
        if at <= self.room.len() && part.len() <= self.room.len() - at {
            let end = at + part.len();
            self.room[at..end].copy_from_slice(part);
            self.len = end;
        }
        Ok(part.len())
    }

    fn flush(&mut self) -> io::Result<()> {
        Ok(())
    }
}

/// A rate in ns per octet, printed by its name where it has one.
#[derive(Clone, Copy, Debug, PartialEq, Eq)]
struct Rate(u32);

impl fmt::Display for Rate {
    fn fmt<W: fmt::Write>(&self, f: &mut fmt::Formatter<W>) -> fmt::Result {
        match self.0 {
            8 => f.write_str("1G"),
            80 => f.write_str("100M"),
            800 => f.write_str("10M"),
            ns => write!(f, "{ns}ns/octet"),
        }
    }
}

/// Writes a draft as a text.
// Kept: names are bytes of any kind, which Display, a text of characters, cannot write.
pub fn write<W: Write>(out: &mut W, draft: &Draft) -> io::Result<()> {
    let revision = draft.revision;
    let precision = largest(draft.precision);
    write!(out, "plan revision {revision} precision {precision}")?;
    out.write_all(b"\n")?;
    for node in draft.nodes.as_slice() {
        out.write_all(b"node ")?;
        out.write_all(node.name)?;
        write!(out, " {}", node.number)?;
        out.write_all(b"\n")?;
    }
    for link in draft.links.as_slice() {
        out.write_all(b"link ")?;
        put_ends(out, draft, link.from, link.to)?;
        let rate = Rate(link.rate);
        let propagation = largest(link.propagation);
        write!(out, " rate {rate} propagation {propagation}")?;
        out.write_all(b"\n")?;
    }
    let rest = put_streams(out, draft)?;
    put_rest(out, draft, rest)
}

fn put_node<W: Write>(out: &mut W, draft: &Draft, number: u32) -> io::Result<()> {
    match draft.node_name(number) {
        Some(name) => out.write_all(name),
        None => write!(out, "{number}"),
    }
}

fn put_ends<W: Write>(out: &mut W, draft: &Draft, from: u32, to: u32) -> io::Result<()> {
    put_node(out, draft, from)?;
    out.write_all(b" -> ")?;
    put_node(out, draft, to)
}

/// Writes the streams, each with the legs that stand below it, and answers which legs are left.
fn put_streams<'d, W: Write>(out: &mut W, draft: &'d Draft) -> io::Result<&'d [Leg]> {
    let mut left = draft.legs.as_slice();
    for (i, stream) in draft.streams.iter().enumerate() {
        let s = stream.record;
        out.write_all(b"stream ")?;
        match stream.name {
            Some(name) => out.write_all(name)?,
            None => write!(out, "{i}")?,
        }
        let period = largest(s.period);
        let deadline = largest(s.deadline);
        let octets = s.octets;
        write!(out, " period {period} deadline {deadline} octets {octets}")?;
        let next = small(draft.legs.len().saturating_sub(left.len()));
        let (below, others) = split_legs(left, s, next);
        if s.first != next || s.count != small(below.len()) {
            write!(out, " first {} legs {}", s.first, s.count)?;
        }
        out.write_all(b"\n")?;
        for leg in below {
            put_leg(out, draft, *leg, Some(small(i)))?;
        }
        left = others;
    }
    Ok(left)
}

/// The legs that stand below a stream, and those after them: its own, where they come next and are there; otherwise none, and the stream says which they are.
fn split_legs(left: &[Leg], s: Stream, next: u32) -> (&[Leg], &[Leg]) {
    if s.first == next {
        if let Some(split) = left.split_at_checked(s.count as usize) {
            return split;
        }
    }
    (&[], left)
}

/// Writes the legs that stand below no stream: each says its own.
fn put_rest<W: Write>(out: &mut W, draft: &Draft, rest: &[Leg]) -> io::Result<()> {
    if rest.is_empty() {
        return Ok(());
    }
    out.write_all(b"rest\n")?;
    for leg in rest {
        put_leg(out, draft, *leg, None)?;
    }
    Ok(())
}

/// A leg below a stream, which is named where the leg is another's.
fn put_leg<W: Write>(out: &mut W, draft: &Draft, leg: Leg, above: Option<u32>) -> io::Result<()> {
    out.write_all(b"leg ")?;
    put_route(out, draft, leg.link)?;
    write!(out, " offset {}", largest(leg.offset))?;
    if leg.periods != 0 {
        write!(out, " periods {}", leg.periods)?;
    }
    if above != Some(leg.stream) {
        write!(out, " stream {}", leg.stream)?;
    }
    out.write_all(b"\n")
}

/// The ends of a leg's link, where no other link has them; otherwise its number.
fn put_route<W: Write>(out: &mut W, draft: &Draft, number: u32) -> io::Result<()> {
    if let Some(link) = draft.links.get(number as usize) {
        if let Between::One(_) = draft.between(link.from, link.to) {
            return put_ends(out, draft, link.from, link.to);
        }
    }
    write!(out, "link {number}")
}
