// What is said on standard error: why there is no list, and what is to be known of one.
ghost use Rattle.std.specs.Prelude.{◌≤◌, IfSome};
ghost use Rattle.gates.specs.Pairs.{max_cycle};

use crate::form::{Form, MOST_OF_TC};
use basics::{Cause, Refusal};
use files::Cursor;
use gates::{MAX_CYCLE, MAX_PAIRS};
use reasons::records::header_word;
use reasons::{records, report};
use std::io::Write;
use table::Leg;

/// Why a plan has no lists whose first violated place this is.
// Kept: the sentence of slots differs in its second half, on what the plan is for.
pub(crate) fn not_accepted<E: Write>(err: &mut E, at: Cursor) {
    let Cursor { leg, place, .. } = at;
    report(
        err,
        format_args!(
            "place {place} of leg {leg} is violated, and only an accepted plan has gate lists: move legs until 'check' accepts it"
        ),
    );
}

/// A link that the plan does not have.
// Kept: draw says this of streams too, by their word and count, and slots with a label in front; all three see only reasons, which explains refused files and tables.
pub(crate) fn no_link<E: Write>(err: &mut E, t: &[u32], link: u32) {
    match header_word(t, table::LINKS_AT).checked_sub(1) {
        None => report(
            err,
            format_args!("there is no link {link}: the plan has no links"),
        ),
        Some(last) => report(
            err,
            format_args!("there is no link {link}: links are 0 to {last}"),
        ),
    }
}

// ---- 21: the cycle is too long

// The period of a leg on a link, and 1 for a leg on another.
fn period_on(t: &[u32], link: u32, leg: Leg) -> u32 {
    if leg.link == link {
        return records::stream_at(t, leg.stream).period;
    }
    1
}

// The least common multiple of a cycle and a period, or nothing where it passes the limit.
// Kept: draw's knows no bound of the cycle that it begins from; gates::cycle, which both see, goes by slots, of which it asks more than a period.
fn common(cycle: u64, period: u64) -> Option<u64>
    requires { cycle ≤ max_cycle }
    ensures { IfSome result (λ all. all ≤ max_cycle) }
{
    let divisor = overlap::gcd(cycle, period);
    if divisor == 0 || MAX_CYCLE < period {
        return None;
    }
    let all = cycle / divisor * period;
    if all == 0 || MAX_CYCLE < all {
        return None;
    }
    Some(all)
}

// The first leg with which the cycle of a link passes the limit, if any does.
fn passing(t: &[u32], link: u32) -> Option<u32> {
    let mut cycle = 1;
    for a in 0..header_word(t, table::LEGS_AT) {
        let period = period_on(t, link, records::leg_at(t, a));
        match common(cycle, u64::from(period)) {
            Some(all) => cycle = all,
            None => return Some(a),
        }
    }
    None
}

fn long_cycle<E: Write>(err: &mut E, t: &[u32], link: u32) {
    let Some(a) = passing(t, link) else {
        return;
    };
    let period = records::stream_at(t, records::leg_at(t, a).stream).period;
    report(
        err,
        format_args!(
            "the least common multiple of the periods on link {link} passes {MAX_CYCLE} ns with leg {a}, whose period is {period} ns: give its streams periods that go into one another"
        ),
    );
}

/// Why a link of an accepted plan has no list.
// Kept: of an AskedLink each sentence would take table and link apart again, since it prints the one and reads the other.
pub(crate) fn link_refused<E: Write>(err: &mut E, t: &[u32], link: u32, refusal: Refusal) {
    if refusal.cause == Cause::LongCycle {
        return long_cycle(err, t, link);
    }
    report(
        err,
        format_args!(
            "the list of link {link} would have more than {MAX_PAIRS} pairs: periods with a smaller least common multiple make it shorter, and frames that follow each other without a gap"
        ),
    );
}

// ---- What is to be known of a list

/// That a link has no legs.
pub(crate) fn empty<E: Write>(err: &mut E, link: u32, words: &[u32]) {
    if words.is_empty() {
        report(
            err,
            format_args!("link {link} has no legs: its list is empty"),
        );
    }
}

/// That tc cuts a list off.
pub(crate) fn cut_by_tc<E: Write>(err: &mut E, link: u32, words: &[u32], form: Form<'_>) {
    if form.is_cut(words) {
        let pairs = words.len() / 2;
        report(
            err,
            format_args!(
                "the list of link {link} has {pairs} pairs, but the tc of iproute2 6.1.0 to 7.3.0 sends {MOST_OF_TC} at most, and says only 'message exceeded bound': set it by other means"
            ),
        );
    }
}

/// The same of several links.
pub(crate) fn some_empty<E: Write>(err: &mut E, count: u32) {
    if 0 < count {
        report(
            err,
            format_args!("links without legs, whose lists are empty: {count}"),
        );
    }
}

pub(crate) fn some_cut<E: Write>(err: &mut E, count: u32) {
    if 0 < count {
        report(
            err,
            format_args!(
                "lists of more than {MOST_OF_TC} pairs, which the tc of iproute2 6.1.0 to 7.3.0 sends in part, saying only 'message exceeded bound': {count}. Set them by other means"
            ),
        );
    }
}

/// How many links are done.
pub(crate) fn so_far<E: Write>(err: &mut E, done: u32, links: u32) {
    report(err, format_args!("so far {done} of {links} links are done"));
}
