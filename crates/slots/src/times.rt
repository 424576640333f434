// How long a frame holds a link, and how long it takes along a route that is refused, in ns. What is refused by the shape counts as 0 here.
// Kept: no leg of a plan takes a refused route, so that no TimedLeg has its times; the two laws of frames are those of rules.
ghost use Rattle.shape.specs.Guarantees.{max_rate};

use reasons::records;
use shape::streams::MAX_OCTETS;
use table::Link;

// How long a frame is on the wire of a link.
// Kept: wire and hold differ in the law of rules alone; as a closure, what that law asks of rate and octets would be its contract.
fn wire(octets: u32, l: Link) -> u64 {
    if shape::links::is_rate(l.rate) && octets <= MAX_OCTETS {
        return rules::times::wire_time(octets, l.rate);
    }
    0
}

/// How long it holds that link.
pub(crate) fn hold(octets: u32, l: Link) -> u64 {
    if shape::links::is_rate(l.rate) && octets <= MAX_OCTETS {
        return rules::times::hold_time(octets, l.rate);
    }
    0
}

/// How long after its first start a frame is at the end of a route that it takes without waiting.
pub(crate) fn along(t: &[u32], octets: u32, route: &[u32]) -> u64 {
    let precision = records::header_word(t, table::PRECISION_AT);
    let mut time: u64 = 0;
    for link in route {
        let l = records::link_at(t, *link);
        time = time
            .wrapping_add(wire(octets, l))
            .wrapping_add(u64::from(l.propagation))
            .wrapping_add(u64::from(precision));
    }
    time
}
