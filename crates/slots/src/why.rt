// Why a stream is not admitted: one sentence on standard error. Of several causes one is said.
use crate::lines::Way;
use crate::route::Asked;
use crate::times;
use basics::Cause;
use checker::cursors::MAX_REVISION;
use enlarge::Wanted;
use files::Cursor;
use reasons::records::header_word;
use reasons::{records, report, small};
use shape::streams::{MAX_OCTETS, MAX_PERIOD, MAX_PERIODS, MAX_ROUTE, MIN_OCTETS};
use std::fmt;
use std::io::Write;
use table::Link;

// Prints a sentence on a line of its own, after the label of the stream where it has one.
fn explain<E: Write, S: fmt::Display + Drop>(err: &mut E, label: &[u8], sentence: S) {
    reasons::begin(err);
    if !label.is_empty() {
        reasons::text(err, label);
        reasons::text(err, b": ");
    }
    let _ = writeln!(err, "{sentence}");
}

/// How far a search is.
pub(crate) fn looked_through<E: Write>(err: &mut E, label: &[u8], until: u32, period: u32) {
    explain(
        err,
        label,
        format_args!("looked through first offsets below {until} of {period}"),
    );
}

/// How many streams of a list are done.
pub(crate) fn so_far<E: Write>(err: &mut E, admitted: u32, left_out: u32) {
    report(
        err,
        format_args!("so far {admitted} streams are admitted and {left_out} left out"),
    );
}

/// A search that ended without an answer, which no search does.
pub(crate) fn unended<E: Write>(err: &mut E, label: &[u8]) {
    explain(
        err,
        label,
        "the search did not end: this is a fault of the program",
    );
}

/// Why a plan of the last revision takes no stream.
pub(crate) fn cannot_rise<E: Write>(err: &mut E, label: &[u8]) {
    explain(
        err,
        label,
        format_args!(
            "the plan has revision {MAX_REVISION}, the last one: no stream can be added before all its cursors are destroyed and it is written with a lower one"
        ),
    );
}

/// Why a plan takes no stream whose first violated place this is.
// Kept: export's sentence differs in its second half, on what the plan is for.
pub(crate) fn not_accepted<E: Write>(err: &mut E, at: Cursor) {
    let Cursor { leg, place, .. } = at;
    report(
        err,
        format_args!(
            "place {place} of leg {leg} is violated, and only an accepted plan takes a stream: move legs until 'check' accepts it"
        ),
    );
}

// ---- 18: no first offset fits

// The links of a route, as the command takes them: with a comma between them.
#[derive(Clone, Copy, Debug)]
struct Links<'a>(&'a [u32]);

impl fmt::Display for Links<'_> {
    fn fmt<W: fmt::Write>(&self, f: &mut fmt::Formatter<W>) -> fmt::Result {
        let Some((first, others)) = self.0.split_first() else {
            return Ok(());
        };
        write!(f, "{first}")?;
        for link in others {
            write!(f, ",{link}")?;
        }
        Ok(())
    }
}

// Why no first offset fits on a route, and what may help.
#[derive(Clone, Copy, Debug, PartialEq, Eq)]
enum NoOffset {
    TooSlow { time: u64, deadline: u32 },
    HeldTooLong { link: u32, hold: u64 },
    AllMeet { may_be_late: bool },
}

impl NoOffset {
    fn of(asked: Asked) -> NoOffset {
        let Wanted {
            period,
            deadline,
            octets,
        } = asked.request.want;
        let time = times::along(asked.plan, octets, asked.links());
        if u64::from(deadline) < time {
            return NoOffset::TooSlow { time, deadline };
        }
        for link in asked.links() {
            let hold = times::hold(octets, records::link_at(asked.plan, *link));
            if u64::from(period) < hold {
                return NoOffset::HeldTooLong { link: *link, hold };
            }
        }
        NoOffset::AllMeet {
            may_be_late: asked.may_be_late(),
        }
    }
}

impl fmt::Display for NoOffset {
    fn fmt<W: fmt::Write>(&self, f: &mut fmt::Formatter<W>) -> fmt::Result {
        match self {
            NoOffset::TooSlow { time, deadline } => write!(
                f,
                "without waiting the frame takes {time} ns, and its deadline is {deadline} ns. Give a later deadline, fewer octets or another route"
            ),
            NoOffset::HeldTooLong { link, hold } => write!(
                f,
                "the frame holds link {link} for {hold} ns, longer than its period. Give a longer period, fewer octets or another route"
            ),
            NoOffset::AllMeet { may_be_late } => {
                f.write_str("each one meets a frame of another stream or the end of its period")?;
                if *may_be_late {
                    write!(f, ", or sends a leg more than {MAX_PERIODS} periods late")?;
                }
                f.write_str(". Try another route or fewer octets, or move legs of other streams")
            }
        }
    }
}

impl Asked<'_> {
    // Whether the last leg may lie more periods late than a leg may lie, at the latest first offset.
    fn may_be_late(self) -> bool {
        let Some((_, before)) = self.links().split_last() else {
            return false;
        };
        let want = self.request.want;
        let most = u64::from(MAX_PERIODS).saturating_mul(u64::from(want.period));
        most < times::along(self.plan, want.octets, before)
    }

    fn no_offset<E: Write>(self, err: &mut E) {
        let period = self.request.want.period;
        let why = NoOffset::of(self);
        let links = Links(self.links());
        self.explain(
            err,
            format_args!("no first offset below {period} ns fits on the route {links}: {why}"),
        );
    }
}

// ---- 20: the stream would break a limit or the shape

// What is wrong with a route: its i-th link is not there, or a link does not go on from the node that the route has reached, or comes back to a node.
#[derive(Clone, Copy, Debug, PartialEq, Eq)]
enum RouteFault {
    NoLink { i: usize, link: u32 },
    Gap { link: u32, from: u32, reached: u32 },
    Back { link: u32, to: u32 },
}

// The first fault of a route.
fn route_fault(t: &[u32], links: &[u32]) -> Option<RouteFault> {
    let count = header_word(t, table::LINKS_AT);
    let mut reached = None;
    for (i, link) in links.iter().enumerate() {
        let link = *link;
        if count <= link {
            return Some(RouteFault::NoLink { i, link });
        }
        let Link { from, to, .. } = records::link_at(t, link);
        if let Some(reached) = reached {
            if from != reached {
                return Some(RouteFault::Gap {
                    link,
                    from,
                    reached,
                });
            }
        }
        let mut before = links.iter().take(i);
        if from == to || before.any(|earlier| records::link_at(t, *earlier).from == to) {
            return Some(RouteFault::Back { link, to });
        }
        reached = Some(to);
    }
    None
}

impl Asked<'_> {
    // A route whose i-th link is not there.
    // Kept: of links by number it says what draw and export say of an argument; reasons, which all three see, explains refused files and tables alone.
    fn no_link<E: Write>(self, err: &mut E, i: usize, link: u32) {
        match &self.request.way {
            Way::Shortest(from, to) => self.explain(
                err,
                format_args!(
                    "no links lead from node {from} to node {to}: give nodes that links join"
                ),
            ),
            Way::Nodes(nodes) => {
                let (from, to) = match nodes.first.as_slice().get(i..) {
                    Some([from, to, ..]) => (*from, *to),
                    _ => (0, 0),
                };
                self.explain(
                    err,
                    format_args!("there is no link from node {from} to node {to}"),
                );
            }
            Way::Links(_) => match header_word(self.plan, table::LINKS_AT).checked_sub(1) {
                None => self.explain(
                    err,
                    format_args!("there is no link {link}: the plan has no links"),
                ),
                Some(last) => self.explain(
                    err,
                    format_args!("there is no link {link}: links are 0 to {last}"),
                ),
            },
        }
    }

    fn bad_link<E: Write>(self, err: &mut E, fault: RouteFault) {
        match fault {
            RouteFault::NoLink { i, link } => self.no_link(err, i, link),
            RouteFault::Gap {
                link,
                from,
                reached,
            } => self.explain(
                err,
                format_args!(
                    "link {link} begins at node {from}, but the route has reached node {reached}"
                ),
            ),
            RouteFault::Back { link, to } => self.explain(
                err,
                format_args!("link {link} leads to node {to}, where the route was before"),
            ),
        }
    }

    // A route without links.
    fn no_way<E: Write>(self, err: &mut E) {
        let node = match &self.request.way {
            Way::Links(_) => {
                return self.explain(
                    err,
                    format_args!("the route has no link, but a route has 1 to {MAX_ROUTE}"),
                );
            }
            Way::Nodes(nodes) => nodes.first.as_slice().first().copied().unwrap_or(0),
            Way::Shortest(from, _) => *from,
        };
        self.explain(
            err,
            format_args!(
                "the route begins and ends at node {node}, but a route leads to another node"
            ),
        );
    }

    fn too_many<E: Write>(self, err: &mut E, count: u32) {
        if let Way::Shortest(from, to) = &self.request.way {
            return self.explain(
                err,
                format_args!(
                    "the shortest way from node {from} to node {to} has {count} links, but a route has at most {MAX_ROUTE}"
                ),
            );
        }
        self.explain(
            err,
            format_args!("the route has {count} links, but a route has at most {MAX_ROUTE}"),
        );
    }

    // What is left where the stream itself is right: the plan has no place for it.
    fn no_place<E: Write>(self, err: &mut E, count: u32) {
        let streams = header_word(self.plan, table::STREAMS_AT);
        if table::MAX_STREAMS <= streams as usize {
            return self.explain(
                err,
                format_args!("the plan has {streams} streams, and no plan has more"),
            );
        }
        let legs = header_word(self.plan, table::LEGS_AT);
        let most = table::MAX_LEGS;
        self.explain(
            err,
            format_args!(
                "the plan has {legs} legs, and with {count} more it would have more than {most}"
            ),
        );
    }

    // How many links the route is said to have: one along no nodes too many.
    // Kept: of no nodes the largest number is printed, as a route that is too long, and what a program prints stays.
    fn count(self) -> u32 {
        match &self.request.way {
            Way::Nodes(nodes) if nodes.count == 0 => u32::MAX,
            _ => small(self.route.count),
        }
    }

    fn bad_route<E: Write>(self, err: &mut E) {
        let count = self.count();
        if count == 0 {
            return self.no_way(err);
        }
        if MAX_ROUTE < count {
            return self.too_many(err, count);
        }
        match route_fault(self.plan, self.links()) {
            Some(fault) => self.bad_link(err, fault),
            None => self.no_place(err, count),
        }
    }

    fn cannot_add<E: Write>(self, err: &mut E) {
        let Wanted {
            period,
            deadline,
            octets,
        } = self.request.want;
        if !(1..=MAX_PERIOD).contains(&period) {
            return self.explain(
                err,
                format_args!("the period is {period} ns, but periods are 1 to {MAX_PERIOD} ns"),
            );
        }
        let latest = records::latest_deadline(period);
        if !(1..=latest).contains(&deadline) {
            return self.explain(
                err,
                format_args!(
                    "the deadline is {deadline} ns, but the period allows 1 to {latest} ns"
                ),
            );
        }
        if !(MIN_OCTETS..=MAX_OCTETS).contains(&octets) {
            return self.explain(
                err,
                format_args!(
                    "the frame has {octets} octets, but frames have {MIN_OCTETS} to {MAX_OCTETS}"
                ),
            );
        }
        self.bad_route(err);
    }

    /// Says why it is refused for a cause.
    pub(crate) fn refused<E: Write>(self, err: &mut E, cause: Cause) {
        match cause {
            Cause::CannotRise => cannot_rise(err, self.request.label),
            Cause::NoOffset => self.no_offset(err),
            _ => self.cannot_add(err),
        }
    }

    fn explain<E: Write, S: fmt::Display + Drop>(self, err: &mut E, sentence: S) {
        explain(err, self.request.label, sentence);
    }
}
