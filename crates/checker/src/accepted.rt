// Whether a well-formed table is accepted: a whole check, for calls that ask for an accepted table.
ghost use Rattle.std.specs.Prelude.{IsTrue, ◌↔◌};
ghost use Rattle.shape.specs.Shape.{WellFormedTable};
ghost use Rattle.rules.specs.Rules.{RulesHold};

use crate::{SliceAnswer, look};
use files::Cursor;

/// More than any table has places.
const EVERY_PLACE: u32 = 4294967295;

/// Internal: whether the rules hold of a well-formed table.
// Kept: `Slices` asks for a well-formed table, which a Plan's guarantees alone do not say.
pub fn rules_told(t: &[u32]) -> bool
    requires { WellFormedTable t.now }
    ensures { IsTrue result ↔ RulesHold t.now }
{
    let cursor = Cursor {
        revision: t[table::REVISION_AT],
        leg: 0,
        place: 0,
    };
    matches!(
        look::looked(t, cursor, EVERY_PLACE),
        SliceAnswer::NothingViolated(_, _)
    )
}
