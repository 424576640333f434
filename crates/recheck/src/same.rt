// Whether two tables are the same but for one leg.
ghost use Rattle.std.specs.Prelude.{◌<◌, IsTrue, ◌↔◌};
ghost use Rattle.table.specs.Layout.{leg_count, Sized};
ghost use Rattle.recheck.specs.Premise.{SameButLeg};

/// Internal: whether u differs from a well-formed table t at most in the revision and in the offset and the period word of a leg.
// Kept: it asks of t only that it is as long as its header says, which is less than a Plan guarantees.
pub fn same_but_leg(t: &[u32], u: &[u32], leg: u32) -> bool
    requires { Sized t.now × (leg < leg_count t.now) }
    ensures { IsTrue result ↔ SameButLeg t.now u.now leg }
{
    if t.len() != u.len() {
        return false;
    }
    let offset = table::parts::offset_at(t, leg as usize);
    t[table::REVISION_AT + 1..offset] == u[table::REVISION_AT + 1..offset]
        && t[offset + 2..] == u[offset + 2..]
}
