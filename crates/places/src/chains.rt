// The legs of each link, lowest first: a link knows its lowest leg, and a leg the next on its link.
ghost use Rattle.std.specs.Prelude.{length, ◌≤◌, ◌≡◌};
ghost use Rattle.table.specs.Layout.{max_legs};
ghost use Rattle.places.specs.Chains.{Begun, Chained, Unbegun};

use shape::plan::Plan;

/// The lowest leg of a link that no leg uses, and the leg after the last one of a link.
// Kept: it lies above every leg, so that one test ends a chain and a search; an Option would need two.
pub const NO_CHAIN: usize = table::MAX_LEGS;

/// A plan and the chains of its links: `first` has each link's lowest leg, `next` each leg's successor on its link.
#[derive(Drop)]
pub struct Chains<'c, 'a> {
    pub plan: &'c Plan<'a>,
    pub first: &'c [usize],
    pub next: &'c [usize],
    pub ghost begun: { Begun plan.now first.now 0 },
    pub ghost chained: { Chained plan.now next.now 0 },
}

/// Internal: puts every leg into the chain of its link.
pub fn chain<'c, 'a>(
    plan: &'c Plan<'a>,
    first: &'c mut [usize],
    next: &'c mut [usize],
) -> Chains<'c, 'a>
    requires unbegun { Unbegun first.old }
    requires max_legs_in_bounds { max_legs ≤ length next.old }
    ensures { result.plan.now ≡ plan.now }
{
    for b in (0..plan.legs()).rev() {
        let l = plan.leg(b).link as usize;
        next[b] = first[l];
        first[l] = b;
    }
    Chains { plan, first, next }
}
