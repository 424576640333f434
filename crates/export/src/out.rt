// The answers on standard output.
use crate::form::cycle;
use basics::Refusal;
use files::Cursor;
use reasons::records;
use rules::Rule;
use std::io::Write;
use std::{fmt, io};
use table::Link;

// How many pairs a list has, and how long it lasts.
// Kept: nobody compares it, and each derive more is a function more to prove.
#[derive(Clone, Copy)]
struct Size<'a>(&'a [u32]);

impl fmt::Display for Size<'_> {
    fn fmt<W: fmt::Write>(&self, f: &mut fmt::Formatter<W>) -> fmt::Result {
        let pairs = self.0.len() / 2;
        let cycle = cycle(self.0);
        write!(f, "pairs {pairs} cycle {cycle}")
    }
}

fn revision(t: &[u32]) -> u32 {
    records::header_word(t, table::REVISION_AT)
}

/// A list, a pair to a line.
pub(crate) fn pairs<O: Write>(out: &mut O, words: &[u32]) -> io::Result<()> {
    let size = Size(words);
    writeln!(out, "{size}")?;
    show::rows(out, words, 2)?;
    writeln!(out, "status 0")
}

/// A list as tc takes it. One without pairs is no text, and the status says so.
pub(crate) fn for_tc<O: Write>(out: &mut O, bytes: &[u8]) -> io::Result<()> {
    if bytes.is_empty() {
        return writeln!(out, "status 0 empty");
    }
    out.write_all(bytes)?;
    writeln!(out, "status 0")
}

/// A list for which there is no command, since tc would set only its beginning.
pub(crate) fn no_command<O: Write>(out: &mut O) -> io::Result<()> {
    writeln!(out, "refused tc\nstatus 2")
}

/// A plan that is not accepted, and its first violated place.
pub(crate) fn not_accepted<O: Write>(out: &mut O, at: Cursor, rule: Rule) -> io::Result<()> {
    show::answers::not_accepted(out, at, rule)?;
    writeln!(out, "\nstatus 2")
}

/// A list that is written, and as how many bytes.
pub(crate) fn written<O: Write>(
    out: &mut O,
    t: &[u32],
    link: u32,
    words: &[u32],
    bytes: usize,
) -> io::Result<()> {
    let size = Size(words);
    let revision = revision(t);
    writeln!(
        out,
        "written link {link} {size} bytes {bytes} revision {revision}\nstatus 0"
    )
}

// Begins the line of a link.
fn begin<O: Write>(out: &mut O, t: &[u32], link: u32) -> io::Result<()> {
    let Link { from, to, .. } = records::link_at(t, link);
    write!(out, "link {link} from node {from} to node {to}: ")
}

/// The line of a link whose list is written.
pub(crate) fn line<O: Write>(
    out: &mut O,
    t: &[u32],
    link: u32,
    words: &[u32],
    bytes: usize,
) -> io::Result<()> {
    let size = Size(words);
    begin(out, t, link)?;
    writeln!(out, "{size} bytes {bytes}")
}

/// The line of a link that has no list.
pub(crate) fn refused_line<O: Write>(
    out: &mut O,
    t: &[u32],
    link: u32,
    refusal: Refusal,
) -> io::Result<()> {
    begin(out, t, link)?;
    show::refused(out, refusal)
}

/// Ends the answer about all links, with the exit status: some of them may have no list, or all.
pub(crate) fn all_written<O: Write>(
    out: &mut O,
    t: &[u32],
    lists: u32,
    refused: u32,
) -> io::Result<()> {
    if lists == 0 {
        return writeln!(out, "status 2");
    }
    let links = records::header_word(t, table::LINKS_AT);
    let revision = revision(t);
    writeln!(out, "written lists {lists} of {links} revision {revision}")?;
    if refused == 0 {
        writeln!(out, "status 0")
    } else {
        writeln!(out, "status 1 without {refused} {links}")
    }
}

/// A list file that is too long to be read here.
pub(crate) fn too_long<O: Write>(out: &mut O) -> io::Result<()> {
    writeln!(out, "refused long\nstatus 2")
}
