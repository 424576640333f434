//! The arguments: the verb, and then numbers.
use reasons::report;
use std::env::Env;
use std::io::Write;

pub(crate) const VERB_AT: usize = 1;

pub(crate) const LEG_AT: usize = 2;

pub(crate) const PLACE_AT: usize = 3;

pub(crate) const BUDGET_AT: usize = 4;

/// Where names are used, the plan's path comes first.
pub(crate) const PLAN_AT: usize = 2;

pub(crate) const CURSOR_AT: usize = 3;

pub(crate) const GIVEN_LEG_AT: usize = 3;

pub(crate) const GIVEN_PLACE_AT: usize = 4;

/// How long an argument may be.
pub(crate) const ROOM: usize = 4096;

/// An argument that has to be a number. What is said where it is none names it.
// Kept: desk, draw, export and operator each say another sentence of an argument that is no number, and draw takes an empty one as 0.
pub(crate) fn number_at<R: Env, E: Write>(
    rt: &R,
    err: &mut E,
    i: usize,
    what: &str,
) -> Option<u32> {
    // Kept: the system puts an argument into lent bytes, and input gives back what came as a slice.
    let mut room = [0u8; ROOM];
    match decimal::read_decimal(input::argument_or_nothing(rt, i, &mut room)) {
        Ok(n) => Some(n),
        Err(_) => {
            report(
                err,
                format_args!("{what} is not a number from 0 to 4294967295"),
            );
            None
        }
    }
}
