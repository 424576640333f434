//! The answer of the solver, printed.
use crate::{out, sentences};
use std::io;
use std::io::Write;
use wishes::reading::{Constraint, Wishes};

fn times<O: Write>(out: &mut O, wishes: &Wishes, times: &[i64]) -> io::Result<()> {
    let count = wishes.events.len();
    writeln!(out, "times {count}")?;
    for (name, time) in wishes.events.iter().zip(times) {
        out.write_all(b"time ")?;
        out.write_all(name)?;
        writeln!(out, " {time}")?;
    }
    writeln!(out, "status 0")
}

// A sum and one more constraint. No chain that is printed has a sum past 64 bits.
fn plus(sum: i64, c: &Constraint) -> i64 {
    sum.saturating_add(c.most)
}

// The constraint that a number of a chain names.
pub(crate) fn named<'w, 'a>(wishes: &'w Wishes<'_, 'a>, k: u32) -> Option<&'w Constraint<'a>> {
    wishes.constraints().get(k as usize)
}

// The sum of the constraints of a chain.
pub(crate) fn sum_of(wishes: &Wishes, chain: &[u32]) -> i64 {
    chain.iter().filter_map(|k| named(wishes, *k)).fold(0, plus)
}

fn links<O: Write>(out: &mut O, wishes: &Wishes, chain: &[u32]) -> io::Result<()> {
    let count = chain.len();
    let whole = sum_of(wishes, chain);
    writeln!(out, "chain {count} sum {whole}")?;
    let mut sum = 0;
    for c in chain.iter().filter_map(|k| named(wishes, *k)) {
        sum = plus(sum, c);
        out::constraint(out, wishes, c)?;
        writeln!(out, ", sum {sum}")?;
    }
    writeln!(out, "status 1")
}

// Solves a network, and prints its times or a chain.
// Kept: `solver::solve` writes a chain into lent words, and a chain has no more than this array.
// Kept: on_times judges other words of the same wishes (renumbered), so the two are not one value.
pub(crate) fn solved<O: Write, E: Write>(
    out: &mut O,
    err: &mut E,
    wishes: &Wishes,
    words: &[i64],
) -> io::Result<()> {
    let mut chain = [0u32; network::MAX_EVENTS];
    let solved = solver::solve(wishes.events.len(), words, &mut chain);
    match solved.outcome {
        Ok(None) => times(out, wishes, &solved.times),
        Ok(Some(length)) => links(out, wishes, chain.get(..length).unwrap_or(&chain)),
        Err(refusal) => sentences::refused(out, err, wishes, refusal),
    }
}
