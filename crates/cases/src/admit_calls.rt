// The calls that admit a stream to a table, each with its answer and all the lent words printed. A line has the numbers of the stream, how many words are lent,
// for a piece of an admission from where and until where it looks, and after a colon the links of the route.
use crate::files_calls::WORD_MARK;
use crate::text::Numbers;
use crate::{Call, Given, text};
use admission::Admitted;
use basics::Refusal;
use enlarge::Wanted;
use std::io;
use std::io::Write;

// How many words a line may lend, and how many links it may name.
const MAX_LENT: usize = 96;

const MAX_LINKS: usize = 16;

fn told<O: Write>(
    out: &mut O,
    answer: Result<Option<Admitted>, Refusal>,
    lent: &[u32],
) -> io::Result<()> {
    let used = match answer {
        Ok(Some(Admitted { offset, words })) => {
            writeln!(out, "admitted {offset} words {words}:")?;
            show::first_words(out, lent, words)?;
            words
        }
        Ok(None) => {
            writeln!(out, "none yet")?;
            0
        }
        Err(refusal) => {
            show::refused(out, refusal)?;
            0
        }
    };
    write!(out, "rest: ")?;
    show::rest_words(out, lent, used)
}

pub(crate) fn asked<O: Write>(out: &mut O, call: &Call<'_>, given: &Given) -> io::Result<bool> {
    let Some((front, links)) = text::split_once(call.rest, b':') else {
        return Ok(false);
    };
    let numbers = Numbers::of(given.alloc, front)?;
    let route = text::words(given.alloc, links)?;
    let room = numbers.size(3);
    if MAX_LINKS < route.len() || MAX_LENT < room {
        return Ok(false);
    }
    let wanted = Wanted {
        period: numbers.at(0),
        deadline: numbers.at(1),
        octets: numbers.at(2),
    };
    let mut lent = vec![in given.alloc; WORD_MARK; room]?;
    let answer = match call.verb {
        b"admit" => admission::admit(&given.table, wanted, &route, &mut lent),
        b"admit-between" => admission::admit_between(
            &given.table,
            wanted,
            &route,
            numbers.at(4),
            numbers.at(5),
            &mut lent,
        ),
        _ => return Ok(false),
    };
    told(out, answer, &lent)?;
    Ok(true)
}
