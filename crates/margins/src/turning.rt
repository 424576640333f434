// The next number and the last one that a condition allows.
ghost use Rattle.std.specs.Prelude.{◌+◌, ◌≤◌};
ghost use Rattle.numbers.specs.Number.{max_word};
ghost use Rattle.rules.specs.Times.{max_ready};
ghost use Rattle.offsets.specs.Conditions.{Sound};
ghost use Rattle.margins.specs.Ranges.{Ahead, Behind, RestOf, Turning, TurnedFrom};

use offsets::Condition;

// The same condition, with remainders that end before the modulus: no remainder is the modulus itself.
// Kept: `widened` (offsets) builds a Condition as a record, also one that is not sound, so Sound is no ghost field of it.
pub(crate) fn turning(q: Condition) -> Condition
    requires { Sound q }
    ensures { TurnedFrom q result }
{
    Condition {
        after: q.after.max(1),
        ..q
    }
}

// A condition with such remainders.
// Kept: nobody compares or prints it, and each further derive is a function more to prove.
#[derive(Clone, Copy)]
pub(crate) struct Turn {
    pub(crate) condition: Condition,
    pub(crate) ghost turning: { Turning condition },
}

impl Turn {
    // The remainder of x, as the condition sees it.
    fn rest(self, x: u64) -> u64
        requires { x ≤ max_ready + max_word }
        ensures { RestOf self.condition x result }
    {
        (x + self.condition.shift) % self.condition.modulus
    }

    // How far it is from x on to the next number that is allowed, where some are.
    // Kept: no twin of Search::past (offsets), which tells a number, stops at a limit and spares divisions; here the distance alone is told.
    pub(crate) fn ahead(self, x: u64) -> u64
        requires after_bound { self.condition.before + self.condition.after ≤ self.condition.modulus }
        requires x_bound { x ≤ max_ready + max_word }
        ensures { Ahead self.condition x result }
    {
        let q = self.condition;
        let r = self.rest(x);
        if r < q.before {
            return q.before - r;
        }
        if q.modulus - r < q.after {
            return q.modulus - r + q.before;
        }
        0
    }

    // How far it is back from x to the last number that is allowed, where some are.
    pub(crate) fn back(self, x: u64) -> u64
        requires after_bound { self.condition.before + self.condition.after ≤ self.condition.modulus }
        requires x_le_max_word { x ≤ max_word }
        ensures { Behind self.condition x result }
    {
        let q = self.condition;
        let r = self.rest(x);
        if r < q.before {
            return r + q.after;
        }
        if q.modulus - r < q.after {
            return q.after - (q.modulus - r);
        }
        0
    }
}
