// Start, slice, move and recheck on files. Everything is written beside first, so that a full disk is met before any file is replaced.
use crate::late::{Plans, after_move};
use basics::{Cause, Refusal};
use checker::SliceAnswer;
use durable::FileRead;
use files::{Cursor, Returned};
use input::PLAN_ROOM;
use kept::ours::Standing;
use kept::{Check, refused, saved};
use reasons::records;
use reasons::records::{header_word, leg_count};
use show::answers;
use show::answers::{Part, Reached};
use std::io;
use std::io::Write;
use std::rt::Files;
use table::Move;

// What is asked of a plan and its check.
// Kept: an order is matched once, at the call that it is for; in its place a closure would have to hold the check and the plan, which are made later.
#[derive(Clone, Copy, Debug, PartialEq, Eq)]
pub(crate) enum Order {
    Start { anew: bool },
    Slice { budget: u32 },
    Move(Move),
    MoveAndRecheck(Move),
    Recheck(u32),
}

// A cursor of a plan.
fn reached(t: &[u32], at: Cursor) -> Reached {
    let legs = leg_count(t);
    Reached { at, legs }
}

// A call: the files of a check, and the path of its plan.
#[derive(Drop)]
pub(crate) struct Call<'a, R: Files, O: Write, E: Write> {
    pub(crate) check: Check<'a, R, O, E>,
    pub(crate) plan: &'a [u8],
}

// Kept: operator reaches no allocator (docs/TRUST.md), so files and tables lie in arrays of the largest size, and what was read or written is a slice of one.
// Kept: a bool says whether it was done or is so, as callers ask and chain by &&; what went wrong is said or answered already.
// Kept: moved changes t and leaves the bytes as they were, so a struct of plan and table would hold two that do not match.
impl<'a, R: Files, O: Write, E: Write> Call<'a, R, O, E> {
    // What is refused is said on standard error before the answer is written.
    pub(crate) fn judged(&mut self, t: &[u32], refusal: Refusal, part: Part) -> io::Result<()> {
        answers::judged(
            self.check.out,
            refusal,
            header_word(t, table::REVISION_AT),
            part,
        )
    }

    pub(crate) fn plan_refused(&mut self, t: &[u32], refusal: Refusal) -> io::Result<()> {
        records::why(self.check.err, t, refusal);
        self.judged(t, refusal, Part::Plan)
    }

    // A cursor that is refused is to be replaced by a start. Where it is none of ours, that is said and not why it is refused: a start will leave it as it is.
    fn cursor_refused(&mut self, t: &[u32], refusal: Refusal, c: Cursor) -> io::Result<()> {
        match self.check.standing() {
            Standing::NotOurs => self.judged(t, refusal, Part::Foreign),
            Standing::Free | Standing::Begun(_) | Standing::OtherEdition(_) => {
                refused::why(self.check.err, t, c);
                self.judged(t, refusal, Part::Cursor)
            }
        }
    }

    // Whether the plan is well-formed, and the cursor not of another edition of the rules, to which its places would mean something else. Where it is not, that is the
    // answer, and it is written.
    fn may_go_on(&mut self, t: &[u32]) -> io::Result<bool> {
        if let Err(Returned { refusal, .. }) = checker::start(t) {
            self.plan_refused(t, refusal)?;
            return Ok(false);
        }
        self.check.is_present(header_word(t, table::REVISION_AT))
    }

    // Whether the cursor is one of the plan, which is well-formed. What is refused after this lies in the move.
    fn cursor_stands(&mut self, t: &[u32], c: Cursor) -> io::Result<bool> {
        if let SliceAnswer::Refused(refusal, given) = checker::slice(t, c, 0) {
            self.cursor_refused(t, refusal, given)?;
            return Ok(false);
        }
        Ok(true)
    }

    // Replaces cursor and copy. The old cursor goes first: it must never stand beside the copy of another plan.
    fn begun(&mut self, plan: &[u8], c: Cursor) -> bool {
        self.check.write_seen_beside(plan, b"")
            && self.check.write_cursor_beside(c)
            && self.check.remove_cursor()
            && self.check.put_seen_in_place()
            && self.check.put_cursor_in_place()
    }

    // Whether a start may replace what stands there. Where it may not, that is the answer, and it is written, or said of a file that is not ours.
    fn may_begin(&mut self, t: &[u32], anew: bool) -> io::Result<bool> {
        match self.check.standing() {
            Standing::Free => return Ok(true),
            Standing::NotOurs => return Ok(false),
            Standing::Begun(c) => {
                if !anew {
                    answers::begun(self.check.out, reached(t, c))?;
                }
            }
            Standing::OtherEdition(edition) => {
                if !anew {
                    let revision = header_word(t, table::REVISION_AT);
                    answers::other_edition(self.check.out, edition, revision)?;
                }
            }
        }
        Ok(anew)
    }

    fn start(&mut self, plan: &[u8], t: &[u32], anew: bool) -> io::Result<()> {
        match checker::start(t) {
            Err(Returned { refusal, .. }) => self.plan_refused(t, refusal)?,
            Ok(c) => {
                if self.may_begin(t, anew)? && self.begun(plan, c) {
                    answers::granted(self.check.out, reached(t, c))?;
                }
            }
        }
        Ok(())
    }

    // Replaces the cursor, where the plan is known.
    fn gone_on(&mut self, plan: &[u8], c: Cursor) -> io::Result<bool> {
        Ok(
            self.check.is_known(plan, c.revision)?
                && self.check.write_cursor_beside(c)
                && self.check.put_cursor_in_place(),
        )
    }

    fn slice(&mut self, plan: &[u8], t: &[u32], budget: u32) -> io::Result<()> {
        let Some(given) = self.check.cursor()? else {
            return Ok(());
        };
        if !self.may_go_on(t)? {
            return Ok(());
        }
        match checker::slice(t, given, budget) {
            SliceAnswer::Refused(refusal, c) => self.cursor_refused(t, refusal, c)?,
            SliceAnswer::Violated(c, steps, rule) => {
                if self.gone_on(plan, c)? {
                    answers::violated(self.check.out, reached(t, c), steps, rule)?;
                }
            }
            SliceAnswer::NothingViolated(c, steps) => {
                if self.gone_on(plan, c)? {
                    answers::nothing_violated(self.check.out, reached(t, c), steps)?;
                }
            }
            SliceAnswer::Paused(c, steps) => {
                if self.gone_on(plan, c)? {
                    answers::paused(self.check.out, reached(t, c), steps)?;
                }
            }
        }
        Ok(())
    }

    // Writes the accepted plan that is to be kept, if any, beside its file, and gives it its name.
    fn accepted_kept(&mut self, keep: Option<&[u8]>) -> bool {
        keep.is_none_or(|plan| {
            self.check.write_accepted_beside(plan) && self.check.put_accepted_in_place()
        })
    }

    // Replaces all three files, and before them the accepted plan, if one is to be kept: it is true by itself. The copy goes first and has both plans, so that whichever of the two is
    // found is known; then the plan, then the cursor.
    fn replaced(&mut self, plans: Plans, c: Cursor, keep: Option<&[u8]>) -> bool {
        self.check.write_seen_beside(plans.new, plans.old)
            && durable::write_beside(self.check.rt, self.check.err, self.plan, &[plans.new])
            && self.check.write_cursor_beside(c)
            && self.accepted_kept(keep)
            && self.check.put_seen_in_place()
            && durable::put_in_place(self.check.rt, self.check.err, self.plan)
            && self.check.put_cursor_in_place()
    }

    fn move_refused(&mut self, t: &[u32], refusal: Refusal, mv: Move) -> io::Result<()> {
        if refusal.cause == Cause::TooLate {
            records::late_move(self.check.err, mv.periods);
        } else {
            refused::why_move(self.check.err, t, mv);
        }
        self.judged(t, refusal, Part::Move)
    }

    // Where the leg is to be rechecked, that is done before any file is replaced: the answer is one about the moved table, wherever that stands.
    fn moved(
        &mut self,
        old: &[u8],
        t: &mut [u32],
        c: Cursor,
        mv: Move,
        rechecks: bool,
    ) -> io::Result<()> {
        let before = records::leg_at(t, mv.leg);
        let ended = saved::is_end(t, c);
        let d = match checker::move_leg(t, c, mv) {
            Ok(d) => d,
            Err(Returned { refusal, .. }) => return self.move_refused(t, refusal, mv),
        };
        if !self.check.is_known(old, c.revision)? {
            return Ok(());
        }
        let mut room = [0u8; files::MAX_FILE_BYTES];
        let Ok(n) = files::write_plan(t, &mut room) else {
            return Ok(());
        };
        let plans = Plans {
            old,
            new: &room[..n],
        };
        let after = if rechecks {
            Some(after_move(&mut self.check, t, mv.leg, ended, plans))
        } else {
            None
        };
        if !self.replaced(plans, d, after.and_then(|after| after.keep)) {
            return Ok(());
        }
        answers::move_lines(self.check.out, reached(t, d), mv, before)?;
        match after {
            Some(after) => self.tell(t, mv.leg, after),
            None => answers::moved(self.check.out),
        }
    }

    fn move_leg(&mut self, plan: &[u8], t: &mut [u32], mv: Move, rechecks: bool) -> io::Result<()> {
        let Some(c) = self.check.cursor()? else {
            return Ok(());
        };
        if self.may_go_on(t)? && self.cursor_stands(t, c)? {
            self.moved(plan, t, c, mv, rechecks)?;
        }
        Ok(())
    }

    fn on_table(&mut self, order: Order, plan: &[u8], t: &mut [u32]) -> io::Result<()> {
        match order {
            Order::Start { anew } => self.start(plan, t, anew),
            Order::Slice { budget } => self.slice(plan, t, budget),
            Order::Move(mv) => self.move_leg(plan, t, mv, false),
            Order::MoveAndRecheck(mv) => self.move_leg(plan, t, mv, true),
            Order::Recheck(leg) => self.recheck(plan, t, leg),
        }
    }

    fn on_bytes(&mut self, order: Order, plan: &[u8]) -> io::Result<()> {
        let mut words = [0u32; table::MAX_TABLE_WORDS];
        match files::read_plan(plan, &mut words) {
            Ok(n) => self.on_table(order, plan, &mut words[..n]),
            Err(refusal) => {
                reasons::file::why(self.check.err, plan, refusal);
                answers::unread(self.check.out, refusal, Part::Plan)
            }
        }
    }

    // Reads the plan and does what is asked.
    pub(crate) fn answered(&mut self, order: Order) -> io::Result<()> {
        let mut room = [0u8; PLAN_ROOM];
        match durable::file(self.check.rt, self.check.err, self.plan, &mut room) {
            FileRead::Bytes(plan) => self.on_bytes(order, plan)?,
            FileRead::Missing => durable::missing(self.check.err, self.plan),
            FileRead::Failed => {}
        }
        Ok(())
    }
}
