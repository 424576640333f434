// A slot for a new stream: the least first offset at which the table with one stream more is accepted. No old leg moves.
#![tactic(auto)]

ghost use Rattle.std.specs.Prelude.{◌<◌, length, Ok, Some};
ghost use Rattle.offsets.specs.Search.{LeastFrom};
ghost use Rattle.admission.specs.Admits.{Admits, AdmitsBetween, Fits, MayAdmit};

use basics::{Cause, Refusal};
use enlarge::{Request, Wanted};
use std::marker::Model;

mod conditions;
mod early;
mod least;

/// What an admission gives: the first offset, and how many words the enlarged table has.
#[derive(Clone, Copy, Debug, PartialEq, Eq)]
pub struct Admitted {
    pub offset: u32,
    pub words: usize,
}

// A stream that is asked for, of an accepted table to which it can be added.
#[derive(Drop)]
struct Candidate<'p> {
    asked: Request<'p>,
}

impl<'p> Model for Candidate<'p> {
    ghost use Rattle.admission.specs.Steps.{Asked, Ready};

    ghost Value = { Asked };

    ghost view = { λ c. record { table = c.asked.table.now; wanted = c.asked.wanted; route = c.asked.route.now } };

    ghost invariant = { λ c. Ready c.asked.table.now c.asked.wanted c.asked.route.now };
}

impl<'p> Candidate<'p> {
    // Writes the enlarged table for the first offset x, which is the least.
    // Kept: from and until are here for the clauses alone: AdmitsBetween, which `looked` owes, names both.
    fn written(&self, from: u32, until: u32, x: u64, out: &mut [u32]) -> Admitted
        requires may_admit { MayAdmit self.now.table self.now.wanted self.now.route (length out.old) }
        requires least_from { LeastFrom (Fits self.now.table self.now.wanted self.now.route) self.now.wanted.period from x }
        requires x_lt_until { x < until }
        ensures { AdmitsBetween self.now.table self.now.wanted self.now.route from until out.old (Ok (Some result)) out.new }
    {
        let offset = x as u32;
        self.asked.lay_from(offset, out);
        Admitted {
            offset,
            words: early::enlarged_words(&self.asked),
        }
    }

    // Looks for the first offset, and writes the enlarged table where one is found.
    // Kept: docs/CALLS.md names admit_between, which takes from and until as numbers, and AdmitsBetween names both.
    fn looked(&self, from: u32, until: u32, out: &mut [u32]) -> Result<Option<Admitted>, Refusal>
        requires { MayAdmit self.now.table self.now.wanted self.now.route (length out.old) }
        ensures { AdmitsBetween self.now.table self.now.wanted self.now.route from until out.old result out.new }
    {
        let period = self.asked.wanted.period;
        match self.least_offset(period.min(until), from) {
            Some(x) => Ok(Some(self.written(from, until, x, out))),
            None if until < period => Ok(None),
            None => Err(Cause::NoOffset.at(0)),
        }
    }
}

/// A piece of an admission: only the first offsets from `from` up to but without `until` are looked at. Ok(None): none of them fits yet, and the period goes on
/// after them. Errors: 1 to 7, 11, 20, 15, 19 and 18, in this order.
// Kept: docs/CALLS.md names this call, which takes plain words.
pub fn admit_between(
    t: &[u32],
    w: Wanted,
    route: &[u32],
    from: u32,
    until: u32,
    out: &mut [u32],
) -> Result<Option<Admitted>, Refusal>
    ensures { AdmitsBetween t.now w route.now from until out.old result out.new }
{
    let asked = Request {
        table: t,
        wanted: w,
        route,
    };
    early::judged(&asked, out.len())?;
    Candidate { asked }.looked(from, until, out)
}

/// Admits one stream to an accepted table: its least first offset, and in the lent words the table with it. Never Ok(None). Errors: as admit_between.
// Kept: docs/CALLS.md names this call, which takes plain words.
pub fn admit(
    t: &[u32],
    w: Wanted,
    route: &[u32],
    out: &mut [u32],
) -> Result<Option<Admitted>, Refusal>
    ensures { Admits t.now w route.now out.old result out.new }
{
    admit_between(t, w, route, 0, w.period, out)
}
