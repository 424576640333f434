//! What nodes, streams and links are called in a picture: by their names, where they have some, and else by their numbers.
use crate::letters;
use plan_text::Draft;
use std::io;
use std::io::Write;

fn named<O: Write>(
    out: &mut O,
    name: Option<&[u8]>,
    word: &str,
    n: u32,
    room: u64,
) -> io::Result<()> {
    match name {
        Some(name) => letters::within(out, name, room),
        None => write!(out, "{word}{n}"),
    }
}

fn node<O: Write>(out: &mut O, names: &Draft, n: u32, room: u64) -> io::Result<()> {
    named(out, names.node_name(n), "node ", n, room)
}

/// A stream, in so many columns.
pub(crate) fn stream<O: Write>(out: &mut O, names: &Draft, n: u32, room: u64) -> io::Result<()> {
    named(out, names.stream_name(n), "stream ", n, room)
}

/// The same at the beginning of a title.
pub(crate) fn stream_title<O: Write>(
    out: &mut O,
    names: &Draft,
    n: u32,
    room: u64,
) -> io::Result<()> {
    write!(out, "Stream ")?;
    named(out, names.stream_name(n), "", n, room)
}

/// From one node to another, in so many columns each.
pub(crate) fn nodes<O: Write>(
    out: &mut O,
    names: &Draft,
    from: u32,
    to: u32,
    room: u64,
) -> io::Result<()> {
    node(out, names, from, room)?;
    write!(out, " \u{2192} ")?;
    node(out, names, to, room)
}
