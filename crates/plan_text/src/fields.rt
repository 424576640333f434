//! The fields of a record: a name and its value, in any order. A field that a later version adds has a default, so that an older text means what it meant.
use crate::fault::Fault;
use decimal::DecimalError;
use lines::words;
use lines::words::FirstWords;
use units::TimeError;

/// More words than any record has. So many of a line are kept.
const MOST_WORDS: usize = words::KEPT;

/// The records that have fields.
#[derive(Clone, Copy, Debug, PartialEq, Eq)]
pub(crate) enum Record {
    Plan,
    Link,
    Stream,
    Leg,
}

/// What a value is.
#[derive(Clone, Copy, Debug, PartialEq, Eq)]
enum Form {
    Time,
    Rate,
    Number,
}

/// The fields that a line gives.
#[derive(Clone, Copy, Debug, Default, PartialEq, Eq)]
pub(crate) struct Fields {
    pub(crate) revision: Option<u32>,
    pub(crate) precision: Option<u32>,
    pub(crate) rate: Option<u32>,
    pub(crate) propagation: Option<u32>,
    pub(crate) period: Option<u32>,
    pub(crate) deadline: Option<u32>,
    pub(crate) octets: Option<u32>,
    pub(crate) first: Option<u32>,
    pub(crate) legs: Option<u32>,
    pub(crate) offset: Option<u32>,
    pub(crate) periods: Option<u32>,
    pub(crate) stream: Option<u32>,
}

impl Fields {
    /// The field of a name, and what its value is.
    fn field(&mut self, record: Record, name: &[u8]) -> Option<(Form, &mut Option<u32>)> {
        match (record, name) {
            (Record::Plan, b"revision") => Some((Form::Number, &mut self.revision)),
            (Record::Plan, b"precision") => Some((Form::Time, &mut self.precision)),
            (Record::Link, b"rate") => Some((Form::Rate, &mut self.rate)),
            (Record::Link, b"propagation") => Some((Form::Time, &mut self.propagation)),
            (Record::Stream, b"period") => Some((Form::Time, &mut self.period)),
            (Record::Stream, b"deadline") => Some((Form::Time, &mut self.deadline)),
            (Record::Stream, b"octets") => Some((Form::Number, &mut self.octets)),
            (Record::Stream, b"first") => Some((Form::Number, &mut self.first)),
            (Record::Stream, b"legs") => Some((Form::Number, &mut self.legs)),
            (Record::Leg, b"offset") => Some((Form::Time, &mut self.offset)),
            (Record::Leg, b"periods") => Some((Form::Number, &mut self.periods)),
            (Record::Leg, b"stream") => Some((Form::Number, &mut self.stream)),
            _ => None,
        }
    }

    /// Reads the fields of a record from the word of an index on. Those before the first that is wrong are kept.
    // Kept: fields are lent, not returned: those read before a fault are used too, since a record with a fault is added all the same.
    pub(crate) fn read<'t>(
        &mut self,
        record: Record,
        words: &FirstWords<'_, 't>,
        from: usize,
    ) -> Result<(), Fault<'t>> {
        if MOST_WORDS < words.count {
            return Err(Fault::TooManyWords(words.count));
        }
        for pair in words.first.get(from..).unwrap_or(&[]).chunks(2) {
            let [name, value @ ..] = pair else {
                return Ok(());
            };
            let Some((form, field)) = self.field(record, name) else {
                return Err(Fault::Word(name, unknown(record)));
            };
            if field.is_some() {
                return Err(Fault::Word(
                    name,
                    " stands twice in this line: expected each field once",
                ));
            }
            let [value] = value else {
                return Err(Fault::Word(name, " is the last word: expected its value after it"));
            };
            *field = Some(read_value(form, value)?);
        }
        Ok(())
    }
}

/// Refuses a line without a field.
pub(crate) fn needs<'t>(field: Option<u32>, sentence: &'static str) -> Result<(), Fault<'t>> {
    if field.is_none() {
        return Err(Fault::Line(sentence));
    }
    Ok(())
}

fn unknown(record: Record) -> &'static str {
    match record {
        Record::Plan => " is no field of the plan: expected revision or precision",
        Record::Link => " is no field of a link: expected rate or propagation",
        Record::Stream => {
            " is no field of a stream: expected period, deadline, octets, first or legs"
        }
        Record::Leg => " is no field of a leg: expected offset, periods or stream",
    }
}

fn read_value(form: Form, word: &[u8]) -> Result<u32, Fault<'_>> {
    let read = match form {
        Form::Time => units::read_time(word).map_err(no_time),
        Form::Rate => units::read_rate(word).map_err(no_rate),
        Form::Number => decimal::read_decimal(word).map_err(no_number),
    };
    read.map_err(|sentence| Fault::Word(word, sentence))
}

// Kept: TimeError has two sentences, a time's and a rate's, and these errors lie in units and decimal, so no Display of theirs says these.
fn no_number(error: DecimalError) -> &'static str {
    match error {
        DecimalError::Empty | DecimalError::NoDigit(_) => {
            " is no number: expected 0 to 4294967295"
        }
        DecimalError::TooLarge => " is too large: expected 0 to 4294967295",
    }
}

fn no_time(error: TimeError) -> &'static str {
    match error {
        TimeError::NoUnit => {
            " has no unit: expected a number and one of ns, us, ms and s, as in 100us"
        }
        TimeError::NoNumber => {
            " is no time: expected digits, perhaps a point and digits, and one of ns, us, ms and s, as in 12.5us"
        }
        TimeError::TooFine => " is too fine: expected at most nine digits after the point",
        TimeError::NotWhole => " is no whole number of ns: expected one",
        TimeError::TooLarge => " is too long: expected at most 4294967295ns",
    }
}

fn no_rate(error: TimeError) -> &'static str {
    match error {
        TimeError::TooLarge => " is too slow: expected at most 4294967295ns/octet",
        TimeError::NotWhole => " is no whole number of ns for an octet: expected one",
        TimeError::TooFine => " is too fine: expected at most nine digits after the point",
        TimeError::NoUnit | TimeError::NoNumber => {
            " is no rate: expected 10M, 100M, 1G or a time for an octet, as in 8ns/octet"
        }
    }
}
