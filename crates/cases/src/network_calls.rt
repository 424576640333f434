// The calls on temporal networks, and those for C. A line has the number of events, how many words the constraints are, what the call takes besides, and after a
// colon the words, which are repeated until they are as many.
use crate::files_calls::WORD_MARK;
use crate::text::Numbers;
use crate::{Call, integers, text};
use basics::Refusal;
use network_host::Verdict;
use std::alloc::Global;
use std::io;
use std::io::Write;

// How many words a line may name for constraints, for a chain and for times, and how many numbers are before what the call takes besides.
const MAX_WORDS: usize = 6150;

const MAX_LENT: usize = 160;

const BEFORE: usize = 2;

// A network as a line gives it.
// Kept: nobody compares or prints it, and Global, where memory comes from, has no equality.
#[derive(Clone, Copy)]
struct Given<'a> {
    alloc: Global,
    events: usize,
    constraints: &'a [i64],
}

impl Given<'_> {
    // The number that constraint k may not pass, 0 where there is no such constraint.
    fn most_of(self, k: u32) -> i64 {
        match self.constraints.chunks_exact(3).nth(k as usize) {
            Some([_, _, most]) => *most,
            _ => 0,
        }
    }

    // The sum of the constraints with these numbers. It does not wrap: a chain has 128 constraints or fewer.
    fn sum(self, chain: &[u32]) -> i64 {
        chain
            .iter()
            .fold(0, |sum: i64, k| sum.wrapping_add(self.most_of(*k)))
    }

    // Prints what a chain is worth: which one was given is not told.
    // Kept: n is what the call says of the words that were lent, and may pass them; that is told here, where a slice could not be.
    fn chain<O: Write>(self, out: &mut O, lent: &[u32], n: usize) -> io::Result<()> {
        let Some(chain) = lent.get(..n) else {
            return writeln!(out, "longer than what was lent");
        };
        let sum = self.sum(chain);
        write!(out, "sum {sum} tested: ")?;
        chain_test(
            out,
            claims::test_chain(self.events, self.constraints, chain),
        )
    }

    // Prints all that was lent or given besides the outcome.
    fn lent<O: Write>(self, out: &mut O, times: &[i64], lent: &[u32], n: usize) -> io::Result<()> {
        if 0 < n {
            self.chain(out, lent, n)?;
        }
        write!(out, "times:")?;
        integers::show_used(out, times)?;
        write!(out, "rest: ")?;
        show::rest_words(out, lent, n)
    }

    fn solve<O: Write>(self, out: &mut O, room: usize) -> io::Result<()> {
        let mut chain = vec![in self.alloc; WORD_MARK; room]?;
        let solved = solver::solve(self.events, self.constraints, &mut chain);
        let n = outcome(out, solved.outcome)?;
        self.lent(out, &solved.times, &chain, n)
    }

    fn host_solve<O: Write>(self, out: &mut O, room: usize) -> io::Result<()> {
        let mut chain = vec![in self.alloc; WORD_MARK; room]?;
        let answer = network_host::conepalhui_network(self.events, self.constraints, &mut chain);
        writeln!(out, "result {} number {}", answer.result, answer.number)?;
        // How many words of the chain the answer says: 1 is a chain.
        // Kept: results are numbers of the C interface, which this call returns.
        let n = match answer.result {
            1 => answer.number as usize,
            _ => 0,
        };
        self.lent(out, &answer.times, &chain, n)
    }

    // A test of the words in front, as times or as the numbers of a chain.
    fn tested<O: Write>(self, out: &mut O, verb: &[u8], front: &[u8]) -> io::Result<bool> {
        let times = integers::words(self.alloc, front)?;
        let numbers = text::words(self.alloc, front)?;
        if MAX_LENT < times.len() {
            return Ok(false);
        }
        let (Some(times), Some(numbers)) = (times.get(BEFORE..), numbers.get(BEFORE..)) else {
            return Ok(false);
        };
        let Given {
            events,
            constraints,
            ..
        } = self;
        match verb {
            b"test-times" => times_test(out, claims::test_times(events, constraints, times))?,
            b"c-test-times" => verdict(
                out,
                network_host::conepalhui_network_times(events, constraints, times),
            )?,
            b"test-chain" => chain_test(out, claims::test_chain(events, constraints, numbers))?,
            b"c-test-chain" => verdict(
                out,
                network_host::conepalhui_network_chain(events, constraints, numbers),
            )?,
            _ => return Ok(false),
        }
        Ok(true)
    }
}

fn chain_test<O: Write>(out: &mut O, test: Result<bool, Refusal>) -> io::Result<()> {
    match test {
        Ok(true) => writeln!(out, "chain"),
        Ok(false) => writeln!(out, "no chain"),
        Err(refusal) => show::refused(out, refusal),
    }
}

fn times_test<O: Write>(out: &mut O, test: Result<Option<usize>, Refusal>) -> io::Result<()> {
    match test {
        Ok(None) => writeln!(out, "kept"),
        Ok(Some(k)) => writeln!(out, "broken {k}"),
        Err(refusal) => show::refused(out, refusal),
    }
}

// Prints an outcome: how many words of the chain were written.
fn outcome<O: Write>(out: &mut O, outcome: Result<Option<usize>, Refusal>) -> io::Result<usize> {
    match outcome {
        Ok(None) => {
            writeln!(out, "times")?;
            Ok(0)
        }
        Ok(Some(n)) => {
            writeln!(out, "chain {n}")?;
            Ok(n)
        }
        Err(refusal) => {
            show::refused(out, refusal)?;
            Ok(0)
        }
    }
}

fn verdict<O: Write>(out: &mut O, verdict: Verdict) -> io::Result<()> {
    writeln!(out, "result {} number {}", verdict.result, verdict.number)
}

pub(crate) fn asked<O: Write>(out: &mut O, alloc: Global, call: &Call<'_>) -> io::Result<bool> {
    let Some((front, words)) = text::split_once(call.rest, b':') else {
        return Ok(false);
    };
    let numbers = Numbers::of(alloc, front)?;
    let count = numbers.size(1);
    if MAX_WORDS < count {
        return Ok(false);
    }
    let words = integers::words(alloc, words)?;
    let mut constraints = vec![in alloc; 0i64; count]?;
    for (word, z) in constraints.iter_mut().zip(words.iter().cycle()) {
        *word = *z;
    }
    let given = Given {
        alloc,
        events: numbers.size(0),
        constraints: &constraints,
    };
    let room = numbers.size(2);
    match call.verb {
        b"solve" if room <= MAX_LENT => given.solve(out, room)?,
        b"c-solve" if room <= MAX_LENT => given.host_solve(out, room)?,
        verb => return given.tested(out, verb, front),
    }
    Ok(true)
}
