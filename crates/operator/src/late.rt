// One late move: a recheck of the leg that was moved, and what is known of the whole plan by it.
use crate::calls::Call;
use basics::{Cause, Refusal};
use files::Cursor;
use kept::accepted::Accepted;
use kept::{Check, refused};
use reasons::records::{header_word, leg_count};
use recheck::Rechecked;
use show::answers;
use show::answers::{LookedAt, Part};
use std::io;
use std::io::Write;
use std::rt::Files;
use table::Move;

// What follows a move: the answer of a recheck, whether a plan that is the same but for that leg is known to have been accepted, and the plan that is to be kept as an accepted
// one, if any.
#[derive(Clone, Copy, Debug, PartialEq, Eq)]
pub(crate) struct After<'p> {
    told: Result<Rechecked, Refusal>,
    is_known: bool,
    pub(crate) keep: Option<&'p [u8]>,
}

impl After<'_> {
    // What the recheck of a leg looked at: n places of a plan.
    fn looked_at(self, t: &[u32], leg: u32, n: u32) -> LookedAt {
        LookedAt {
            leg,
            n,
            legs: leg_count(t),
            revision: revision_of(t),
            is_known: self.is_known,
        }
    }
}

// The plan before a move, and the one after it.
#[derive(Clone, Copy, Debug, PartialEq, Eq)]
pub(crate) struct Plans<'p> {
    pub(crate) old: &'p [u8],
    pub(crate) new: &'p [u8],
}

fn revision_of(t: &[u32]) -> u32 {
    header_word(t, table::REVISION_AT)
}

// A plan of which nothing is violated is kept, where that is known of the whole of it; and otherwise the one of which that was known.
fn found<'p>(
    told: Result<Rechecked, Refusal>,
    standing: Accepted,
    ended: bool,
    plans: Plans<'p>,
) -> After<'p> {
    let is_known = ended || standing == Accepted::Same;
    let is_clean = matches!(told, Ok(Rechecked::NothingViolated(_)));
    let keep = if standing == Accepted::NotOurs {
        None
    } else if is_clean && is_known {
        Some(plans.new)
    } else if ended {
        Some(plans.old)
    } else {
        None
    };
    After {
        told,
        is_known,
        keep,
    }
}

// What follows a move that is granted, after a cursor that was at the end of the plan before it, or was not.
pub(crate) fn after_move<'p, R: Files, O: Write, E: Write>(
    check: &mut Check<R, O, E>,
    t: &[u32],
    leg: u32,
    ended: bool,
    plans: Plans<'p>,
) -> After<'p> {
    let told = recheck::recheck(t, leg);
    found(told, check.accepted(t, leg), ended, plans)
}

impl<'a, R: Files, O: Write, E: Write> Call<'a, R, O, E> {
    fn leg_refused(&mut self, t: &[u32], leg: u32, refusal: Refusal) -> io::Result<()> {
        if refusal.cause != Cause::NoLeg {
            return self.plan_refused(t, refusal);
        }
        let mv = Move {
            leg,
            offset: 0,
            periods: 0,
        };
        refused::why_move(self.check.err, t, mv);
        self.judged(t, refusal, Part::Leg)
    }

    // Writes the answer of a recheck.
    pub(crate) fn tell(&mut self, t: &[u32], leg: u32, after: After) -> io::Result<()> {
        match after.told {
            Err(refusal) => self.leg_refused(t, leg, refusal),
            Ok(Rechecked::NothingViolated(n)) => {
                answers::recheck_clean(self.check.out, after.looked_at(t, leg, n))
            }
            Ok(Rechecked::Violated(place, rule, n)) => {
                let at = Cursor {
                    revision: revision_of(t),
                    leg: place.leg,
                    place: place.place,
                };
                answers::recheck_violated(self.check.out, after.looked_at(t, leg, n), at, rule)
            }
        }
    }

    // Keeps the plan as an accepted one, unless it is. Where that fails it is said, and the answer is right all the same.
    fn keep_plan(&mut self, plan: &[u8]) {
        if self.check.has_accepted(plan)
            || (self.check.write_accepted_beside(plan) && self.check.put_accepted_in_place())
        {
            return;
        }
        let cursor = self.check.cursor;
        reasons::begin(self.check.err);
        reasons::text(self.check.err, cursor);
        reasons::text(
            self.check.err,
            b".accepted could not be written: a recheck after this one may not know that the plan is accepted\n",
        );
    }

    // Rechecks a leg of a plan as it stands. Where a place is violated, a cursor at the end of this very plan says nothing: these commands did not leave the two so.
    pub(crate) fn recheck(&mut self, plan: &[u8], t: &[u32], leg: u32) -> io::Result<()> {
        let told = recheck::recheck(t, leg);
        if let Err(refusal) = told {
            return self.leg_refused(t, leg, refusal);
        }
        let standing = self.check.accepted(t, leg);
        let ended = matches!(told, Ok(Rechecked::NothingViolated(_)))
            && self.check.has_ended(plan, t);
        let plans = Plans {
            old: plan,
            new: plan,
        };
        let after = found(told, standing, ended, plans);
        if let Some(accepted) = after.keep {
            self.keep_plan(accepted);
        }
        self.tell(t, leg, after)
    }
}
