// What is wanted, as the command hands it over: a line for each stream, with its label (which may be empty), a tab, and numbers with a blank between them. The first says
// what the way is; then come period, deadline and octets, and the links or nodes of the way.
ghost use Rattle.std.specs.Prelude.{length};
ghost use Rattle.std.specs.Iterator.{at_most};

use arrayvec::ArrayVec;
use enlarge::Wanted;
use shape::streams::MAX_ROUTE;
use std::fmt;

/// The most bytes that it may have.
pub(crate) const MAX_BYTES: usize = 262144;

/// How many numbers of a way are kept: as many as a route has nodes that has one link too many.
pub(crate) const WAY_ROOM: usize = MAX_ROUTE as usize + 2;

// What the first number of a line says of its way.
// Kept: these are numbers of what the command hands over; Way::of makes a Way of them, and nothing else reads them.
const BY_LINKS: u32 = 0;

const BY_NODES: u32 = 1;

const SHORTEST: u32 = 2;

// How many numbers stand before the way.
const HEAD: usize = 4;

/// Links or nodes in a row: how many they are, and the first of them. With more than are kept no route is right, and it is refused for their number.
#[derive(Drop)]
pub(crate) struct Row {
    pub(crate) first: ArrayVec<u32, WAY_ROOM>,
    pub(crate) count: usize,
}

impl Row {
    /// Nothing.
    pub(crate) fn new() -> Row {
        Row {
            first: ArrayVec::new(),
            count: 0,
        }
    }

    /// Adds a link or a node.
    pub(crate) fn push(&mut self, number: u32) {
        let _ = self.first.try_push(number);
        self.count = self.count.saturating_add(1);
    }

    fn at(&self, i: usize) -> u32 {
        self.first.as_slice().get(i).copied().unwrap_or(0)
    }
}

/// The way of a stream: the numbers of its links, those of its nodes, or the shortest way from a node to another.
#[derive(Drop)]
pub(crate) enum Way {
    Links(Row),
    Nodes(Row),
    Shortest(u32, u32),
}

/// What is wanted of a stream. A stream that is asked for alone has an empty label.
#[derive(Drop)]
pub(crate) struct Request<'a> {
    // Kept: the command hands over an empty label for a stream alone, and the bytes are put in front as they came; an Option would be made for three is_empty.
    pub(crate) label: &'a [u8],
    pub(crate) want: Wanted,
    pub(crate) way: Way,
}

/// Why no streams are wanted: one of the lines is wrong, counted from 1, or there is none.
// Kept: it is an error and no answer: an Option of the line would say nothing of a list without streams.
#[derive(Clone, Copy, Debug, PartialEq, Eq)]
pub(crate) enum LinesError {
    NotAStream(usize),
    NoStream,
}

impl fmt::Display for LinesError {
    fn fmt<W: fmt::Write>(&self, f: &mut fmt::Formatter<W>) -> fmt::Result {
        match self {
            LinesError::NotAStream(n) => write!(
                f,
                "line {n} of what is wanted is not a label, a tab and at least four numbers from 0 to 4294967295 with a blank between them"
            ),
            LinesError::NoStream => f.write_str("no stream is wanted"),
        }
    }
}

impl Way {
    // The way by its kind and its numbers. A kind that is none of the three is read as links, and as a way from node 0 to itself where there are none.
    fn of(kind: u32, numbers: Row) -> Way {
        let from = numbers.at(0);
        let to = numbers.at(1);
        match kind {
            BY_NODES => Way::Nodes(numbers),
            SHORTEST => Way::Shortest(from, to),
            BY_LINKS => Way::Links(numbers),
            _ if numbers.count == 0 => Way::Shortest(from, to),
            _ => Way::Links(numbers),
        }
    }
}

impl<'a> Request<'a> {
    // The stream of a line, or nothing where the line is wrong.
    fn parse(line: &'a [u8]) -> Option<Request<'a>> {
        let mut parts = line.splitn(2, |byte| *byte == b'\t');
        let (Some(label), Some(text)) = (parts.next(), parts.next()) else {
            return None;
        };
        let mut head: ArrayVec<u32, HEAD> = ArrayVec::new();
        let mut numbers = Row::new();
        for word in text.split_inclusive(|byte| *byte == b' ') {
            let digits = word.strip_suffix(b" ").unwrap_or(word);
            let number = decimal::read_decimal(digits).ok()?;
            if head.try_push(number).is_err() {
                numbers.push(number);
            }
        }
        let [kind, period, deadline, octets] = head.as_slice() else {
            return None;
        };
        let want = Wanted {
            period: *period,
            deadline: *deadline,
            octets: *octets,
        };
        let way = Way::of(*kind, numbers);
        Some(Request { label, want, way })
    }
}

/// The streams that are wanted, in the order of their lines.
#[derive(Clone, Copy, Debug, PartialEq, Eq, Drop)]
pub(crate) struct Requests<'a>(&'a [u8]);

impl<'a> Requests<'a> {
    /// The streams of a text whose lines are all right.
    pub(crate) fn read(text: &'a [u8]) -> Result<Requests<'a>, LinesError> {
        let mut streams: usize = 0;
        for line in text.split_inclusive(|byte| *byte == b'\n') {
            streams = streams.saturating_add(1);
            let line = line.strip_suffix(b"\n").unwrap_or(line);
            if Request::parse(line).is_none() {
                return Err(LinesError::NotAStream(streams));
            }
        }
        if streams == 0 {
            return Err(LinesError::NoStream);
        }
        Ok(Requests(text))
    }
}

impl<'a> Iterator for Requests<'a> {
    type Item = Request<'a>;

    ghost remaining = { λ s. at_most (length s.0.now) };

    fn next(&mut self) -> Option<Request<'a>> {
        let line = self.0.split_inclusive(|byte| *byte == b'\n').next()?;
        self.0 = &self.0[line.len()..];
        Request::parse(line.strip_suffix(b"\n").unwrap_or(line))
    }
}
