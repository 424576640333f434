//! What the answers are made of, on standard output.
use basics::Refusal;
use std::io;
use std::io::Write;
use wishes::reading::{Constraint, Wishes};

// A refusal's line, and the last one.
// Kept: show::answers::plan_refused prints the same, but show uses rules and places, which temporal does not (crates.txt).
pub(crate) fn refused<O: Write>(out: &mut O, refusal: Refusal) -> io::Result<()> {
    let number = u32::from(refusal.cause);
    let at = refusal.at;
    write!(out, "refused {number} {at}\nstatus 2\n")
}

// The refusal of a line that has none of the forms.
pub(crate) fn refused_line<O: Write>(out: &mut O, line: usize) -> io::Result<()> {
    write!(out, "refused line {line}\nstatus 2\n")
}

// A constraint and its line, which is not ended.
pub(crate) fn constraint<O: Write>(out: &mut O, wishes: &Wishes, c: &Constraint) -> io::Result<()> {
    let line = c.line;
    let most = c.most;
    write!(out, "line {line}: ")?;
    out.write_all(wishes.name(c.to))?;
    out.write_all(b" - ")?;
    out.write_all(wishes.name(c.from))?;
    write!(out, " <= {most}")
}
