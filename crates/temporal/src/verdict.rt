//! The verdict on a claim, printed.
use crate::claim::Claimed;
use crate::solution::{named, sum_of};
use crate::{claim, out, sentences};
use lines::shown::shown;
use network::Network;
use reasons::{begin, report, text};
use std::io;
use std::io::Write;
use wishes::reading::{Constraint, Wishes};

// ---- Times

// The constraints with the events renumbered so that those with a time come first, in the order of the times. Any other event has the last number, which is past
// the times.
fn renumbered<'w>(wishes: &Wishes, claimed: &Claimed, room: &'w mut [i64]) -> &'w [i64] {
    let last = wishes.events.len().saturating_sub(1);
    wishes.words(room, |event| claimed.place(event).unwrap_or(last))
}

fn untimed<O: Write>(out: &mut O, wishes: &Wishes, event: usize) -> io::Result<()> {
    out.write_all(b", but ")?;
    out.write_all(wishes.name(event))?;
    out.write_all(b" has no time\nstatus 1\n")
}

// Why a constraint is not kept, after it was printed.
fn but<O: Write>(
    out: &mut O,
    wishes: &Wishes,
    claimed: &Claimed,
    c: &Constraint,
) -> io::Result<()> {
    let Some(later) = claimed.time_of(c.to) else {
        return untimed(out, wishes, c.to);
    };
    let Some(earlier) = claimed.time_of(c.from) else {
        return untimed(out, wishes, c.from);
    };
    let difference = i128::from(later) - i128::from(earlier);
    write!(out, ", but it is {difference}\nstatus 1\n")
}

// Kept: the renumbered words lie here once, in an array of the largest size, so that judging allocates nothing.
fn on_times<O: Write, E: Write>(
    out: &mut O,
    err: &mut E,
    wishes: &Wishes,
    claimed: &Claimed,
) -> io::Result<()> {
    let mut room = [0i64; wishes::KEPT_WORDS];
    let words = renumbered(wishes, claimed, &mut room);
    match claims::test_times(wishes.events.len(), words, &claimed.times) {
        Ok(None) => out.write_all(b"kept\nstatus 0\n"),
        Ok(Some(k)) => {
            out.write_all(b"broken\n")?;
            let Some(c) = wishes.constraints().get(k) else {
                return Ok(());
            };
            out::constraint(out, wishes, c)?;
            but(out, wishes, claimed, c)
        }
        Err(refusal) => sentences::refused(out, err, wishes, refusal),
    }
}

// ---- Chains

// The first constraint of a chain that does not end where the next one begins, and that next one.
// Kept: after the last comes the first, which `windows` does not give; a zip with cycle and skip would end only by its shorter side.
fn unlinked<'w, 'a>(
    wishes: &'w Wishes<'_, 'a>,
    chain: &[u32],
) -> Option<(&'w Constraint<'a>, &'w Constraint<'a>)> {
    let first = chain.first()?;
    for (i, k) in chain.iter().enumerate() {
        let link = named(wishes, *k)?;
        let next = named(wishes, *chain.get(i + 1).unwrap_or(first))?;
        if link.to != next.from {
            return Some((link, next));
        }
    }
    None
}

fn say_unlinked<E: Write>(err: &mut E, wishes: &Wishes, link: &Constraint, next: &Constraint) {
    let line = link.line;
    let following = next.line;
    begin(err);
    let _ = write!(err, "line {line} ends at ");
    shown(err, wishes.name(link.to));
    let _ = write!(err, ", but line {following}, which follows, begins at ");
    shown(err, wishes.name(next.from));
    text(err, b"\n");
}

// The first event that two constraints of a chain begin at.
// Kept: each link is held against those before it; a find would nest a second closure and give the link, of which the event is taken again.
fn repeated(wishes: &Wishes, chain: &[u32]) -> Option<usize> {
    for (i, k) in chain.iter().enumerate() {
        let event = named(wishes, *k)?.from;
        if chain
            .iter()
            .take(i)
            .filter_map(|k| named(wishes, *k))
            .any(|before| before.from == event)
        {
            return Some(event);
        }
    }
    None
}

fn say_repeated<E: Write>(err: &mut E, wishes: &Wishes, event: usize) {
    begin(err);
    text(err, b"the event ");
    shown(err, wishes.name(event));
    text(err, b" is in the chain twice\n");
}

// Says why this is no chain.
fn say_why<E: Write>(err: &mut E, wishes: &Wishes, chain: &[u32]) {
    if network::MAX_EVENTS < chain.len() {
        let most = network::MAX_EVENTS;
        report(
            err,
            format_args!("there are more than {most} constraints, but a chain has no event twice"),
        );
        return;
    }
    if let Some((link, next)) = unlinked(wishes, chain) {
        say_unlinked(err, wishes, link, next);
        return;
    }
    if let Some(event) = repeated(wishes, chain) {
        say_repeated(err, wishes, event);
        return;
    }
    let sum = sum_of(wishes, chain);
    report(
        err,
        format_args!("the sum is {sum}, but that of a chain is below 0"),
    );
}

fn on_chain<O: Write, E: Write>(
    out: &mut O,
    err: &mut E,
    wishes: &Wishes,
    words: &[i64],
    chain: &[u32],
) -> io::Result<()> {
    match claims::test_chain(wishes.events.len(), words, chain) {
        Ok(true) => out.write_all(b"chain\nstatus 0\n"),
        Ok(false) => {
            say_why(err, wishes, chain);
            out.write_all(b"no chain\nstatus 1\n")
        }
        Err(refusal) => sentences::refused(out, err, wishes, refusal),
    }
}

// ---- Both

fn refused_claim<O: Write, E: Write>(out: &mut O, err: &mut E, why: &str) -> io::Result<()> {
    report(err, why);
    out.write_all(b"refused claim\nstatus 2\n")
}

// Judges a claim on a network. Where the network is refused, the claim is not read.
pub(crate) fn judged<O: Write, E: Write>(
    out: &mut O,
    err: &mut E,
    wishes: &Wishes,
    words: &[i64],
    claim: &[u8],
) -> io::Result<()> {
    if let Err(refusal) = Network::judge(wishes.events.len(), words) {
        return sentences::refused(out, err, wishes, refusal);
    }
    let claimed = claim::read(err, claim, wishes);
    if let Some(line) = claimed.wrong {
        return out::refused_line(out, line);
    }
    match (claimed.times.is_empty(), claimed.chain.is_empty()) {
        (true, true) => refused_claim(
            out,
            err,
            "the claim has neither lines time NAME NUMBER nor lines line N:, and it needs one of the two",
        ),
        (false, false) => refused_claim(
            out,
            err,
            "the claim has lines time NAME NUMBER and lines line N:, and only one of the two may be there",
        ),
        (false, true) => on_times(out, err, wishes, &claimed),
        (true, false) => on_chain(out, err, wishes, words, &claimed.chain),
    }
}
