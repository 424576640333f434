// The route of a new stream, as links: as they are given, along given nodes, or the shortest way between two nodes. Where there is no such link or way, the route has
// NO_LINK in its place, which no plan has, so that the admission refuses it.
use crate::lines::{Request, Row, Way};
use arrayvec::ArrayVec;
use reasons::records;
use table::Link;

// Kept: admission::admit takes a route as numbers of links, and refuses one that no plan has.
const NO_LINK: u32 = u32::MAX;

// The nodes of a way: each but the last begins a link.
const MAX_NODES: usize = table::MAX_LINKS + 1;

/// A stream that is asked for: the plan that is to take it, what is wanted, and the links of its way.
// Kept: nobody compares or prints it, and Request, which it lends, has no equality.
#[derive(Clone, Copy)]
pub(crate) struct Asked<'a> {
    pub(crate) plan: &'a [u32],
    pub(crate) request: &'a Request<'a>,
    pub(crate) route: &'a Row,
}

impl<'a> Asked<'a> {
    pub(crate) fn links(self) -> &'a [u32] {
        self.route.first.as_slice()
    }
}

// A node from which the end of a way is reached, and over how many links.
#[derive(Clone, Copy, Debug, Default, PartialEq, Eq)]
struct Reached {
    node: u32,
    links: u32,
}

// The links of a plan.
fn links_of(t: &[u32]) -> ArrayVec<Link, { table::MAX_LINKS }> {
    let mut links = ArrayVec::new();
    for i in 0..records::header_word(t, table::LINKS_AT) {
        let _ = links.try_push(records::link_at(t, i));
    }
    links
}

// The link from a node to another.
fn link_between(links: &[Link], from: u32, to: u32) -> u32 {
    let i = links.iter().position(|l| l.from == from && l.to == to);
    i.map_or(NO_LINK, |i| reasons::small(i))
}

// Along given nodes. No nodes make no route.
fn along(links: &[Link], nodes: &Row) -> Row {
    let mut route = Row::new();
    if nodes.count == 0 {
        route.push(NO_LINK);
        return route;
    }
    for pair in nodes.first.as_slice().windows(2) {
        if let [from, to] = pair {
            route.push(link_between(links, *from, *to));
        }
    }
    route.count = nodes.count.saturating_sub(1);
    route
}

// How many links lead from a node to the end, if any do.
fn distance(reached: &[Reached], node: u32) -> Option<u32> {
    reached.iter().find(|r| r.node == node).map(|r| r.links)
}

// The nodes from which a node is reached, the nearest first.
fn all_reached(links: &[Link], to: u32) -> ArrayVec<Reached, MAX_NODES> {
    let mut reached = ArrayVec::new();
    let _ = reached.try_push(Reached { node: to, links: 0 });
    // Kept: a while on the nodes that are not yet gone on from would need a measure; each is gone on from once, and each but the last begins a link.
    for i in 0..=links.len() {
        let Some(at) = reached.as_slice().get(i).copied() else {
            break;
        };
        let further = at.links.saturating_add(1);
        for l in links {
            if l.to == at.node && distance(reached.as_slice(), l.from).is_none() {
                let _ = reached.try_push(Reached {
                    node: l.from,
                    links: further,
                });
            }
        }
    }
    reached
}

// The shortest way between two nodes: at each node the lowest link that goes on with one link less.
fn shortest(links: &[Link], from: u32, to: u32) -> Row {
    let all = all_reached(links, to);
    let reached = all.as_slice();
    let mut route = Row::new();
    let Some(count) = distance(reached, from) else {
        route.push(NO_LINK);
        return route;
    };
    let mut node = from;
    for left in (0..count).rev() {
        let goes_on = |l: &Link| l.from == node && distance(reached, l.to) == Some(left);
        let Some(i) = links.iter().position(goes_on) else {
            break;
        };
        route.push(reasons::small(i));
        node = links[i].to;
    }
    route
}

// The same links again.
fn given(links: &Row) -> Row {
    let mut route = Row::new();
    for link in links.first.as_slice() {
        route.push(*link);
    }
    route.count = links.count;
    route
}

/// The route of what is given.
pub(crate) fn of(t: &[u32], way: &Way) -> Row {
    match way {
        Way::Links(links) => given(links),
        Way::Nodes(nodes) => along(links_of(t).as_slice(), nodes),
        Way::Shortest(from, to) => shortest(links_of(t).as_slice(), *from, *to),
    }
}
