//! The records: what each line adds to the draft. A record with a fault in its fields is added all the same, so that no line below it is found wrong for that.
use crate::draft::{Between, Draft, NamedStream, Node};
use crate::fault::Fault;
use crate::fields::{Fields, Record, needs};
use decimal::DecimalError;
use lines::words::FirstWords;
use reasons::small;
use table::{Leg, Link, Stream};

const ARROW: &[u8] = b"->";

/// What stands above a leg: nothing, a stream that counts its legs, a stream that says how many it has, or the rest.
#[derive(Clone, Copy, Debug, PartialEq, Eq)]
pub(crate) enum Above {
    Nothing,
    Counting,
    Counted,
    Rest,
}

/// A draft that is being read.
#[derive(Drop)]
pub(crate) struct Reader<'t> {
    pub(crate) draft: Draft<'t>,
    pub(crate) above: Above,
    /// Whether a record has been read.
    pub(crate) is_begun: bool,
}

/// The word of an index, or nothing.
// Kept: no word of a line is empty, and to Fault an empty one is the end of the line; an Option would be unwrapped to that at each call.
fn word<'t>(words: &FirstWords<'_, 't>, i: usize) -> &'t [u8] {
    words.first.get(i).copied().unwrap_or(&[])
}

/// Whether a word begins with a digit, as a number does and no name.
fn is_numeral(word: &[u8]) -> bool {
    word.first().is_some_and(|byte| byte.is_ascii_digit())
}

/// Refuses a word that may not be a name.
fn judge_name(word: &[u8]) -> Result<(), Fault<'_>> {
    if word.is_empty() {
        return Err(Fault::Line("the line ends where a name or a number is expected"));
    }
    if word == ARROW {
        return Err(Fault::Word(word, " is no name: expected a name or a number"));
    }
    if crate::MAX_NAME < word.len() {
        return Err(Fault::Word(word, " is too long: expected a name of at most 64 bytes"));
    }
    Ok(())
}

impl<'t> Reader<'t> {
    /// Reads the words of a line, of which there is one at least.
    pub(crate) fn record(&mut self, words: &FirstWords<'_, 't>) -> Result<(), Fault<'t>> {
        match word(words, 0) {
            b"leg" => self.leg(words),
            b"stream" => self.stream(words),
            b"link" => self.link(words),
            b"node" => self.node(words),
            b"plan" => self.plan(words),
            b"rest" => self.rest(words),
            kind => Err(Fault::Word(
                kind,
                " is no record: expected plan, node, link, stream, leg or rest",
            )),
        }
    }

    fn plan(&mut self, words: &FirstWords<'_, 't>) -> Result<(), Fault<'t>> {
        if self.is_begun {
            return Err(Fault::Word(
                word(words, 0),
                " stands below other records: expected it once, as the first",
            ));
        }
        let mut fields = Fields::default();
        fields.read(Record::Plan, words, 1)?;
        let precision = fields.precision.unwrap_or(0);
        if table::MAX_PRECISION < precision as usize {
            return Err(Fault::Precision(precision));
        }
        self.draft.revision = fields.revision.unwrap_or(0);
        self.draft.precision = precision;
        Ok(())
    }

    // ---- Nodes

    /// A line that declares a name: node NAME NUMBER.
    fn node(&mut self, words: &FirstWords<'_, 't>) -> Result<(), Fault<'t>> {
        if let Some(more) = words.first.get(3) {
            return Err(Fault::Word(more, " is one word too many: expected node NAME NUMBER"));
        }
        let name = word(words, 1);
        if is_numeral(name) {
            return Err(Fault::Word(
                name,
                " is no name: expected one that does not begin with a digit",
            ));
        }
        judge_name(name)?;
        let stood = word(words, 2);
        match decimal::read_decimal(stood) {
            Ok(number) => self.declare(name, number),
            Err(DecimalError::Empty) => Err(Fault::Word(
                name,
                " has no number: expected node NAME NUMBER",
            )),
            Err(DecimalError::NoDigit(_) | DecimalError::TooLarge) => Err(Fault::Word(
                stood,
                " is no number of a node: expected 0 to 4294967295",
            )),
        }
    }

    fn declare(&mut self, name: &'t [u8], number: u32) -> Result<(), Fault<'t>> {
        if let Some(node) = self.draft.node_named(name) {
            return Err(Fault::NameOfNode(name, node.number));
        }
        if let Some(node) = self.draft.node_numbered(number) {
            return Err(Fault::Named(
                number,
                node.name,
                " already: expected one name for each node, and node lines above other uses of names",
            ));
        }
        self.draft.name_node(Node {
            name,
            number,
            is_declared: true,
        })?;
        Ok(())
    }

    /// The node of a number that stands for itself. Where a name got it by its order, it is not known which of the two is meant.
    fn node_of_number(&self, stood: &'t [u8]) -> Result<u32, Fault<'t>> {
        let number = decimal::read_decimal(stood).map_err(|_| {
            Fault::Word(
                stood,
                " is no node: expected a number from 0 to 4294967295, or a name, which does not begin with a digit",
            )
        })?;
        match self.draft.node_numbered(number) {
            Some(node) if !node.is_declared => Err(Fault::Named(
                number,
                node.name,
                ", by the order of the names: expected this name, or a line 'node NAME NUMBER' above its first use",
            )),
            _ => Ok(number),
        }
    }

    /// The node that a word of a link is. A new name gets a number, past the one that the line has taken already.
    fn met(&mut self, stood: &'t [u8], but: Option<u32>) -> Result<u32, Fault<'t>> {
        if is_numeral(stood) {
            return self.node_of_number(stood);
        }
        judge_name(stood)?;
        if let Some(node) = self.draft.node_named(stood) {
            return Ok(node.number);
        }
        let number = self.draft.take_lowest(but);
        self.draft.name_node(Node {
            name: stood,
            number,
            is_declared: false,
        })
    }

    /// The node that a word of a leg is: one that is known.
    fn known(&self, stood: &'t [u8]) -> Result<u32, Fault<'t>> {
        if is_numeral(stood) {
            return self.node_of_number(stood);
        }
        let node = self.draft.node_named(stood).ok_or(Fault::Word(
            stood,
            " is no node so far: expected the ends of a link above",
        ))?;
        Ok(node.number)
    }

    // ---- Links

    fn link(&mut self, words: &FirstWords<'_, 't>) -> Result<(), Fault<'t>> {
        let arrow = word(words, 2);
        if arrow != ARROW {
            return Err(Fault::Word(
                arrow,
                " stands where -> is expected: link FROM -> TO rate RATE propagation TIME",
            ));
        }
        let from = self.met(word(words, 1), None)?;
        let to = self.met(word(words, 3), Some(from))?;
        let mut fields = Fields::default();
        let read = link_fields(&mut fields, words);
        let added = self.add_link(Link {
            from,
            to,
            rate: fields.rate.unwrap_or(0),
            propagation: fields.propagation.unwrap_or(0),
        });
        read.and(added)
    }

    fn add_link(&mut self, link: Link) -> Result<(), Fault<'t>> {
        self.draft
            .links
            .try_push(link)
            .map_err(|_| Fault::TooMany("link", table::MAX_LINKS))
    }

    // ---- Streams

    fn stream(&mut self, words: &FirstWords<'_, 't>) -> Result<(), Fault<'t>> {
        if self.draft.streams.is_full() {
            return Err(Fault::TooMany("stream", table::MAX_STREAMS));
        }
        let mut fields = Fields::default();
        let mut name = None;
        let read = self.stream_line(&mut name, &mut fields, words);
        self.above = match fields.legs {
            Some(_) => Above::Counted,
            None => Above::Counting,
        };
        // Its first leg is the next one, unless it is given; its legs are counted, unless they are.
        let record = Stream {
            period: fields.period.unwrap_or(0),
            deadline: fields.deadline.unwrap_or(0),
            octets: fields.octets.unwrap_or(0),
            first: fields.first.unwrap_or(small(self.draft.legs.len())),
            count: fields.legs.unwrap_or(0),
        };
        self.draft.streams.push(NamedStream { name, record });
        read
    }

    fn stream_line(
        &self,
        name: &mut Option<&'t [u8]>,
        fields: &mut Fields,
        words: &FirstWords<'_, 't>,
    ) -> Result<(), Fault<'t>> {
        *name = self.name_of_stream(word(words, 1))?;
        fields.read(Record::Stream, words, 2)?;
        needs(
            fields.period,
            "the stream has no period: expected period, deadline and octets",
        )?;
        needs(
            fields.deadline,
            "the stream has no deadline: expected period, deadline and octets",
        )?;
        needs(
            fields.octets,
            "the stream has no octets: expected period, deadline and octets",
        )
    }

    /// The name of the next stream. A number in its place is that of this very stream.
    fn name_of_stream(&self, stood: &'t [u8]) -> Result<Option<&'t [u8]>, Fault<'t>> {
        if is_numeral(stood) {
            let own = small(self.draft.streams.len());
            return match decimal::read_decimal(stood) {
                Ok(n) if n == own => Ok(None),
                _ => Err(Fault::NotOwnNumber(stood, own)),
            };
        }
        judge_name(stood)?;
        match self.draft.stream_named(stood) {
            Some(other) => Err(Fault::NameOfStream(stood, other)),
            None => Ok(Some(stood)),
        }
    }

    fn rest(&mut self, words: &FirstWords<'_, 't>) -> Result<(), Fault<'t>> {
        if let Some(more) = words.first.get(1) {
            return Err(Fault::Word(
                more,
                " is one word too many: expected rest alone, and legs below it",
            ));
        }
        self.above = Above::Rest;
        Ok(())
    }

    // ---- Legs

    fn leg(&mut self, words: &FirstWords<'_, 't>) -> Result<(), Fault<'t>> {
        if self.above == Above::Nothing {
            return Err(Fault::Word(
                word(words, 0),
                " stands below no stream: expected a stream above, or rest",
            ));
        }
        let mut fields = Fields::default();
        match self.route(words) {
            Ok(link) => {
                let read = self.leg_fields(&mut fields, words);
                let added = self.add_leg(link, &fields);
                read.and(added)
            }
            // A leg that is on no link counts too.
            Err(fault) => {
                self.count_leg(0, &fields);
                Err(fault)
            }
        }
    }

    /// The link of a leg, by its ends or its number.
    fn route(&self, words: &FirstWords<'_, 't>) -> Result<u32, Fault<'t>> {
        let second = word(words, 2);
        if second == ARROW {
            return self.link_between(word(words, 1), word(words, 3));
        }
        match (word(words, 1), decimal::read_decimal(second)) {
            (b"link", Ok(link)) => Ok(link),
            (b"link", _) => Err(Fault::Word(
                second,
                " is no number of a link: expected 0 to 4294967295",
            )),
            _ => Err(Fault::Word(
                second,
                " stands where -> is expected: leg FROM -> TO offset TIME, or leg link NUMBER offset TIME",
            )),
        }
    }

    fn link_between(&self, from: &'t [u8], to: &'t [u8]) -> Result<u32, Fault<'t>> {
        let first = self.known(from)?;
        let second = self.known(to)?;
        match self.draft.between(first, second) {
            Between::One(link) => Ok(link),
            Between::None => Err(Fault::NoLink(from, to)),
            Between::Several => Err(Fault::ManyLinks(from, to)),
        }
    }

    fn leg_fields(&self, fields: &mut Fields, words: &FirstWords<'_, 't>) -> Result<(), Fault<'t>> {
        // They begin after the two ends, or after the number of the link.
        let from = if word(words, 2) == ARROW { 4 } else { 3 };
        fields.read(Record::Leg, words, from)?;
        needs(
            fields.offset,
            "the leg has no offset: expected one, as in offset 1176ns",
        )?;
        if self.above == Above::Rest {
            needs(
                fields.stream,
                "the leg stands below rest and names no stream: expected one, as in stream 4",
            )?;
        }
        Ok(())
    }

    fn add_leg(&mut self, link: u32, fields: &Fields) -> Result<(), Fault<'t>> {
        if self.draft.legs.is_full() {
            return Err(Fault::TooMany("leg", table::MAX_LEGS));
        }
        self.count_leg(link, fields);
        Ok(())
    }

    /// Adds a leg where there is room, and counts it at the stream above, which is its own unless another is given.
    fn count_leg(&mut self, link: u32, fields: &Fields) {
        let above = small(self.draft.streams.len()).wrapping_sub(1);
        let _ = self.draft.legs.try_push(Leg {
            stream: fields.stream.unwrap_or(above),
            link,
            offset: fields.offset.unwrap_or(0),
            periods: fields.periods.unwrap_or(0),
        });
        if self.above == Above::Counting {
            if let Some(stream) = self.draft.streams.as_mut_slice().last_mut() {
                stream.record.count = stream.record.count.wrapping_add(1);
            }
        }
    }
}

fn link_fields<'t>(fields: &mut Fields, words: &FirstWords<'_, 't>) -> Result<(), Fault<'t>> {
    fields.read(Record::Link, words, 4)?;
    needs(
        fields.rate,
        "the link has no rate: expected one, as in rate 100M",
    )
}
