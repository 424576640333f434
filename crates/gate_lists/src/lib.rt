// Gate lists out: the gate control list of one link of an accepted table.
#![tactic(auto)]

ghost use Rattle.std.specs.Prelude.{◌≡◌, ◌+◌, ◌*◌, ◌<◌, IfOk, length};
ghost use Rattle.basics.specs.Refusals.{Told};
ghost use Rattle.table.specs.Layout.{leg_count, max_legs};
ghost use Rattle.gates.specs.Pairs.{max_pairs};
ghost use Rattle.gate_lists.specs.Lists.{MayList, WritesGateList, may_list_refusals};
ghost use Rattle.gate_lists.specs.Steps.{Gathered, ListTold};

use basics::{Cause, Refusal};
use gates::slots::{ANY_SLOT, StoredSlot};
use std::marker::Model;

// What the words of a call's own hold at first: any word, since none is read before it is written.
const ANY_WORD: u32 = 1;

/// Internal: a link of an accepted table: its gate list may be asked for. Its value is the words of the table and the link.
#[derive(Drop)]
pub struct AskedLink<'a> {
    pub t: &'a [u32],
    pub link: u32,
}

impl<'a> Model for AskedLink<'a> {
    ghost use Rattle.std.specs.Prelude.{ℕ, List};
    ghost use Rattle.gate_lists.specs.Lists.{MayList};

    ghost Value = { List ℕ × ℕ };

    ghost view = { λ a. (a.t.now, a.link) };

    ghost invariant = { λ a. MayList a.t.now a.link };
}

impl<'a> AskedLink<'a> {
    /// Internal: the link of a table where its list may be asked for, or the first refusal that is due: 1 to 7, 23 or 19.
    pub fn judge(t: &'a [u32], link: u32) -> Result<AskedLink<'a>, Refusal>
        ensures told { Told (may_list_refusals t.now link) result }
        ensures asked { IfOk result (λ asked. asked ≡ (t.now, link)) }
    {
        shape::judged_shape(t)?;
        if t[table::LINKS_AT] <= link {
            return Err(Cause::NoLink.at(0));
        }
        if !checker::accepted::rules_told(t) {
            return Err(Cause::NotAccepted.at(0));
        }
        Ok(AskedLink { t, link })
    }

    // Adds the slot of leg a to those that were gathered of the legs below it, if it is on the link, and returns how many they are then.
    // Kept: the library allocates nothing, so the slots lie in the first n places of what is lent, and `Gathered` names n.
    fn gather_leg(&self, a: usize, slots: &mut [StoredSlot], n: usize) -> usize
        requires leg { a < leg_count self.now.0 }
        requires slots_len { length slots.old ≡ max_legs }
        requires gathered { Gathered self.now.0 self.now.1 a slots.old n }
        ensures { Gathered self.now.0 self.now.1 (a + 1) slots.new result }
    {
        if rules::judge::link(self.t, a) != self.link {
            return n;
        }
        let frame = rules::times::frame(self.t, a);
        gates::slots::add(slots, n, frame.slot());
        n + 1
    }

    // Gathers the slots of the legs on the link, and returns how many they are.
    // Kept: the library allocates nothing, so the slots lie in the first places of what is lent.
    fn gather(&self, slots: &mut [StoredSlot]) -> usize
        requires slots_len { length slots.old ≡ max_legs }
        ensures gathered { Gathered self.now.0 self.now.1 (leg_count self.now.0) slots.new result }
        ensures may_list { MayList self.now.0 self.now.1 }
    {
        let mut n: usize = 0;
        for a in 0..self.t[table::LEGS_AT] as usize {
            n = self.gather_leg(a, slots, n);
        }
        n
    }

    // The list of slots that were gathered: how many pairs it has, or the refusal 21 or 22.
    fn list_slots(&self, slots: &[StoredSlot], words: &mut [u32]) -> Result<usize, Refusal>
        requires gathered { Gathered self.now.0 self.now.1 (leg_count self.now.0) slots.now (length slots.now) }
        requires words_len { length words.old ≡ 2 * max_pairs }
        ensures { ListTold self.now.0 self.now.1 words.new result }
    {
        if slots.is_empty() {
            return Ok(0);
        }
        let cycle = gates::cycle::cycle_of(slots).ok_or(Cause::LongCycle.at(0))?;
        gates::pairs::write_pairs(slots, cycle, words).ok_or(Cause::TooManyPairs.at(0))
    }

    /// Internal: the gate list of the link, in words: how many pairs it has. Refuses 21 or 22; of the words nothing is promised then.
    // Kept: the library allocates nothing, so the slots lie in an array of the largest size, and the pairs in the words that are lent.
    pub fn list(&self, words: &mut [u32]) -> Result<usize, Refusal>
        requires { length words.old ≡ 2 * max_pairs }
        ensures told { ListTold self.now.0 self.now.1 words.new result }
        ensures may_list { MayList self.now.0 self.now.1 }
    {
        let mut slots = [ANY_SLOT; table::MAX_LEGS];
        let count = self.gather(&mut slots);
        self.list_slots(&slots[..count], words)
    }

    // The list as a file. The pairs are written once, into words of this function's own; only then is it seen whether the file has room.
    // Kept: the library allocates nothing, so the pairs lie in an array of the largest size.
    fn write(&self, bytes: &mut [u8]) -> Result<usize, Refusal>
        ensures { WritesGateList self.now.0 self.now.1 bytes.old result bytes.new }
    {
        let mut words = [ANY_WORD; gates::MAX_LIST_WORDS];
        let n = self.list(&mut words)?;
        gate_files::write_list(&words[..2 * n], bytes)
    }
}

/// Internal: the gate list of a link, in words, for callers who know that the table is accepted and has the link: how many pairs it has. Refuses 21 or 22; of the words nothing is promised then.
// Kept: docs/DECISIONS.md names this call, which asks by contract what an AskedLink holds.
pub fn list_of(t: &[u32], link: u32, words: &mut [u32]) -> Result<usize, Refusal>
    requires may_list { MayList t.now link }
    requires words_len { length words.old ≡ 2 * max_pairs }
    ensures { ListTold t.now link words.new result }
{
    AskedLink { t, link }.list(words)
}

/// Writes the gate list of a link of an accepted table as a list file to lent bytes: the file lies in the first of them, and Ok says how many. Refuses 1 to 7, 23, 19, 21, 22 or 15.
// Kept: docs/CALLS.md names this call and `WritesGateList` its answer: a number of lent bytes, which C takes as it is.
pub fn write_gate_list(t: &[u32], link: u32, bytes: &mut [u8]) -> Result<usize, Refusal>
    ensures { WritesGateList t.now link bytes.old result bytes.new }
{
    AskedLink::judge(t, link)?.write(bytes)
}
