//! Why a network is refused, on standard error.
use crate::out;
use basics::{Cause, Refusal};
use lines::shown::shown;
use reasons::{begin, report, text};
use std::io;
use std::io::Write;
use wishes::forms;
use wishes::forms::Wish;
use wishes::reading::{Wishes, WrongLine};

// Says that a line has none of the forms that it may have.
pub(crate) fn wrong<E: Write>(err: &mut E, wrong: &WrongLine, of: &str, forms: &str) {
    let line = wrong.line;
    begin(err);
    let _ = write!(err, "line {line} of the {of} is ");
    shown(err, wrong.content);
    let _ = writeln!(err, ", but a line there is {forms}");
}

// Says of each line with none of the forms what is there. The text is read again, since no such line is kept.
pub(crate) fn wrong_lines<E: Write>(err: &mut E, network: &[u8]) {
    for (i, line) in network.split(|byte| *byte == b'\n').enumerate() {
        let content = lines::content(line);
        if let Wish::Wrong = forms::wish_in(content) {
            wrong(
                err,
                &WrongLine {
                    line: i + 1,
                    content,
                },
                "network",
                "TO - FROM <= NUMBER, TO - FROM >= NUMBER, event NAME or empty, with blanks between all words and whole numbers",
            );
        }
    }
}

fn too_many<E: Write>(err: &mut E, wishes: &Wishes) {
    if let Some(past) = wishes.events.get(network::MAX_EVENTS) {
        let most = network::MAX_EVENTS;
        begin(err);
        let _ = write!(
            err,
            "the network has more than {most} events: the first past them is "
        );
        shown(err, past);
        text(err, b"\n");
        return;
    }
    let count = wishes.constraint_count;
    let most = network::MAX_CONSTRAINTS;
    report(
        err,
        format_args!("the network has {count} constraints, but at most {most} are allowed"),
    );
}

fn out_of_range<E: Write>(err: &mut E, wishes: &Wishes, k: usize) {
    if let Some(c) = wishes.constraints().get(k) {
        let line = c.line;
        begin(err);
        let _ = write!(err, "line {line} of the network has the number ");
        shown(err, c.number);
        text(err, b", but numbers are -1000000000 to 1000000000\n");
    }
}

// The refusal of a network that was read.
pub(crate) fn refused<O: Write, E: Write>(
    out: &mut O,
    err: &mut E,
    wishes: &Wishes,
    refusal: Refusal,
) -> io::Result<()> {
    if refusal.cause == Cause::TooLarge {
        too_many(err, wishes);
    } else {
        out_of_range(err, wishes, refusal.at);
    }
    out::refused(out, refusal)
}

// The refusal of a text that is too long.
pub(crate) fn too_long<O: Write, E: Write>(out: &mut O, err: &mut E, what: &str) -> io::Result<()> {
    let most = wishes::MAX_BYTES;
    report(
        err,
        format_args!("{what} has more than {most} bytes, and there is no room for it"),
    );
    out.write_all(b"refused long\nstatus 2\n")
}
