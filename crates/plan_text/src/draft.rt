//! A draft: the records of a plan and the names of its nodes and streams.
use crate::fault::Fault;
use arrayvec::ArrayVec;
use reasons::{records, small};
use table::{Leg, Link, Stream};

/// A node that has a name. The number is declared where a line of its own gave it.
#[derive(Clone, Copy, Debug, Default, PartialEq, Eq)]
pub(crate) struct Node<'t> {
    pub(crate) name: &'t [u8],
    pub(crate) number: u32,
    pub(crate) is_declared: bool,
}

/// A stream, and its name if it has one.
#[derive(Clone, Copy, Debug, Default, PartialEq, Eq)]
pub(crate) struct NamedStream<'t> {
    pub(crate) name: Option<&'t [u8]>,
    pub(crate) record: Stream,
}

/// The links between two nodes.
// Kept: a Result says no more: put_route takes None and Several alike, and only link_between has the names that their faults show.
#[derive(Clone, Copy, Debug, PartialEq, Eq)]
pub(crate) enum Between {
    One(u32),
    None,
    Several,
}

/// A plan whose names lie in a text.
#[derive(Drop)]
pub struct Draft<'t> {
    pub(crate) revision: u32,
    pub(crate) precision: u32,
    pub(crate) nodes: ArrayVec<Node<'t>, { crate::MAX_NAMED }>,
    pub(crate) links: ArrayVec<Link, { table::MAX_LINKS }>,
    pub(crate) streams: ArrayVec<NamedStream<'t>, { table::MAX_STREAMS }>,
    pub(crate) legs: ArrayVec<Leg, { table::MAX_LEGS }>,
    /// No number below it is free for a name.
    lowest_free: u32,
}

impl<'t> Draft<'t> {
    /// A draft with no record.
    pub(crate) fn empty() -> Draft<'t> {
        Draft {
            revision: 0,
            precision: 0,
            nodes: ArrayVec::new(),
            links: ArrayVec::new(),
            streams: ArrayVec::new(),
            legs: ArrayVec::new(),
            lowest_free: 0,
        }
    }

    /// The draft of a table, with no names. Records past what a plan may have are left out.
    // Kept: records::link_at takes a number; the parts of a table ask that it has its size, which this public call does not.
    pub fn of_table(t: &[u32]) -> Draft<'t> {
        let mut draft = Draft::empty();
        draft.revision = records::header_word(t, table::REVISION_AT);
        draft.precision = records::header_word(t, table::PRECISION_AT);
        for i in 0..records::header_word(t, table::LINKS_AT) {
            if draft.links.try_push(records::link_at(t, i)).is_err() {
                break;
            }
        }
        for i in 0..records::header_word(t, table::STREAMS_AT) {
            let record = records::stream_at(t, i);
            let stream = NamedStream { name: None, record };
            if draft.streams.try_push(stream).is_err() {
                break;
            }
        }
        for a in 0..records::header_word(t, table::LEGS_AT) {
            if draft.legs.try_push(records::leg_at(t, a)).is_err() {
                break;
            }
        }
        draft
    }

    /// The table of the draft, which has room: no part has more records than a plan may have.
    pub fn table(&self) -> ArrayVec<u32, { table::MAX_TABLE_WORDS }> {
        let mut words = ArrayVec::new();
        let _ = words.try_extend_from_slice(&[
            self.revision,
            small(self.links.len()),
            small(self.streams.len()),
            small(self.legs.len()),
            self.precision,
        ]);
        for l in self.links.as_slice() {
            let _ = words.try_extend_from_slice(&[l.from, l.to, l.rate, l.propagation]);
        }
        for stream in self.streams.as_slice() {
            let s = stream.record;
            let _ = words.try_extend_from_slice(&[
                s.period, s.deadline, s.octets, s.first, s.count,
            ]);
        }
        for l in self.legs.as_slice() {
            let _ = words.try_extend_from_slice(&[l.stream, l.link, l.offset, l.periods]);
        }
        words
    }

    /// Takes revision, offsets and period words from a table that is the same but for them.
    pub(crate) fn moved_to(&mut self, t: &[u32]) {
        self.revision = records::header_word(t, table::REVISION_AT);
        for (leg, a) in self.legs.as_mut_slice().iter_mut().zip(0..u32::MAX) {
            *leg = records::leg_at(t, a);
        }
    }

    /// Whether a node or a stream has a name.
    pub fn has_names(&self) -> bool {
        !self.nodes.is_empty() || self.streams.iter().any(|stream| stream.name.is_some())
    }

    // Kept: nodes are found by name and by number and written in the order of their lines; two maps would stand beside the list.
    pub(crate) fn node_named(&self, name: &[u8]) -> Option<Node<'t>> {
        self.nodes.iter().copied().find(|node| node.name == name)
    }

    pub(crate) fn node_numbered(&self, number: u32) -> Option<Node<'t>> {
        self.nodes
            .iter()
            .copied()
            .find(|node| node.number == number)
    }

    /// The name of a node, if it has one.
    pub fn node_name(&self, number: u32) -> Option<&'t [u8]> {
        self.node_numbered(number).map(|node| node.name)
    }

    /// The name of a stream, if it has one.
    pub fn stream_name(&self, number: u32) -> Option<&'t [u8]> {
        self.streams.get(number as usize)?.name
    }

    /// The number of the stream with a name.
    pub(crate) fn stream_named(&self, name: &[u8]) -> Option<u32> {
        self.streams
            .iter()
            .position(|stream| stream.name == Some(name))
            .map(small)
    }

    /// The links from one node to another.
    pub(crate) fn between(&self, from: u32, to: u32) -> Between {
        let mut found = self
            .links
            .iter()
            .zip(0..u32::MAX)
            .filter(|(link, _)| link.from == from && link.to == to);
        match (found.next(), found.next()) {
            (None, _) => Between::None,
            (Some((_, number)), None) => Between::One(number),
            (Some(_), Some(_)) => Between::Several,
        }
    }

    /// Whether a name or a link has this number.
    fn is_taken(&self, number: u32) -> bool {
        self.nodes.iter().any(|node| node.number == number)
            || self
                .links
                .iter()
                .any(|link| link.from == number || link.to == number)
    }

    /// The lowest number that no name and no link has so far, nor the line at hand. Such numbers are only ever taken.
    // Kept: what is found is noted too; a find would hand it on in an Option that is taken apart twice.
    pub(crate) fn take_lowest(&mut self, but: Option<u32>) -> u32 {
        for number in self.lowest_free..u32::MAX {
            if but != Some(number) && !self.is_taken(number) {
                self.lowest_free = number;
                return number;
            }
        }
        u32::MAX
    }

    /// Gives a node a name.
    pub(crate) fn name_node(&mut self, node: Node<'t>) -> Result<u32, Fault<'t>> {
        self.nodes
            .try_push(node)
            .map_err(|_| Fault::TooManyNames(node.name))?;
        Ok(node.number)
    }
}
