// A table with what a well-formed one guarantees, lent: what the layers above take in place of words whose shape they would have to ask for again.
ghost use Rattle.std.specs.Prelude.{◌≡◌, ◌<◌};
ghost use Rattle.table.specs.Layout.{revision_of, precision_of, link_count, stream_count, leg_count};
ghost use Rattle.table.specs.Records.{link_at, stream_at, leg_at};
ghost use Rattle.shape.specs.Guarantees.{LinkSmall, StreamPlaced, LegPlaced, Guarantees};
ghost use Rattle.shape.specs.Plans.{PlanTold};

use basics::Refusal;
use std::marker::Model;
use table::{Leg, Link, Stream};

/// Internal: a table with what a well-formed one guarantees, lent. Its value is the list of its words.
#[derive(Drop)]
pub struct Plan<'a> {
    words: &'a [u32],
}

impl<'a> Model for Plan<'a> {
    ghost use Rattle.std.specs.Prelude.{ℕ, List};
    ghost use Rattle.shape.specs.Guarantees.{Guarantees};

    ghost Value = { List ℕ };

    ghost view = { λ p. p.words.now };

    ghost invariant = { λ p. Guarantees p.words.now };
}

impl<'a> Plan<'a> {
    /// Internal: the plan that these words are, or the first of the refusals 1 to 7 that is due.
    pub fn judge(words: &'a [u32]) -> Result<Plan<'a>, Refusal>
        ensures { PlanTold words.now result }
    {
        crate::judged_shape(words)?;
        Ok(Plan::of(words))
    }

    /// Internal: the plan that words are that guarantee this.
    // Kept: here words become a Plan, so the fact has to be asked for once.
    pub fn of(words: &'a [u32]) -> Plan<'a>
        requires { Guarantees words.now }
        ensures { result ≡ words.now }
    {
        Plan { words }
    }

    /// Internal: all its words, for what is asked of a table.
    // Kept: the clause hands out what the type holds, since other crates do not see its invariant.
    pub fn words(&self) -> &'a [u32]
        ensures words { result.now ≡ self.now }
        ensures shaped { Guarantees self.now }
    {
        self.words
    }

    /// Internal: its revision.
    pub fn revision(&self) -> u32
        ensures { result ≡ revision_of self.now }
    {
        self.words[table::REVISION_AT]
    }

    /// Internal: the precision of its clocks, in ns.
    pub fn precision(&self) -> u32
        ensures { result ≡ precision_of self.now }
    {
        self.words[table::PRECISION_AT]
    }

    /// Internal: how many legs it has.
    // Kept: the clause hands out what the type holds, since other crates do not see its invariant.
    pub fn legs(&self) -> usize
        ensures count { result ≡ leg_count self.now }
        ensures shaped { Guarantees self.now }
    {
        self.words[table::LEGS_AT] as usize
    }

    /// Internal: link i.
    pub fn link(&self, i: usize) -> Link
        requires { i < link_count self.now }
        ensures link { result ≡ link_at self.now i }
        ensures small { LinkSmall (link_at self.now i) }
    {
        table::parts::link_in(table::parts::link_part(self.words), i)
    }

    /// Internal: stream i.
    pub fn stream(&self, i: usize) -> Stream
        requires { i < stream_count self.now }
        ensures stream { result ≡ stream_at self.now i }
        ensures placed { StreamPlaced self.now i }
    {
        table::parts::stream_in(table::parts::stream_part(self.words), i)
    }

    /// Internal: leg a.
    pub fn leg(&self, a: usize) -> Leg
        requires { a < leg_count self.now }
        ensures leg { result ≡ leg_at self.now a }
        ensures placed { LegPlaced self.now a }
    {
        table::parts::leg_in(table::parts::leg_part(self.words), a)
    }
}
