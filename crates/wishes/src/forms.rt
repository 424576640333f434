//! The forms of a line. They are told apart by the number of words and the words of the form, so that an event may have any word for its name.
use crate::number;
use crate::number::NumberError;
use decimal::DecimalError;
use lines::words::has_control;

/// Internal: what a line of a network says: nothing; the name of an event; a constraint between two; or what is none of these.
// Kept: nobody compares or prints what a line says, and each further derive is one more function to prove.
#[derive(Clone, Copy)]
pub enum Wish<'a> {
    Nothing,
    Event(&'a [u8]),
    Constraint(Between<'a>),
    Wrong,
}

/// The time of the first event minus that of the second is at most a number, or the time of the second minus that of the first. A number that no constraint may have
/// is one past the limit.
// Kept: nobody compares or prints what a line says, and each further derive is one more function to prove.
#[derive(Clone, Copy)]
pub struct Between<'a> {
    pub first: &'a [u8],
    pub second: &'a [u8],
    pub is_turned: bool,
    pub most: i64,
    /// The number as it is in the text.
    pub number: &'a [u8],
}

/// Internal: what a line of a claim says: nothing; the first line of an answer; the time of an event, or one that has more than 64 bits; the line of a constraint; or what
/// is none of these.
// Kept: nobody compares or prints what a line says, and each further derive is one more function to prove.
#[derive(Clone, Copy)]
pub enum Claim<'a> {
    Nothing,
    Head,
    Time(&'a [u8], i64),
    FarTime(&'a [u8]),
    Line(u32),
    Wrong,
}

// One more than a constraint may have.
const PAST_MOST: i64 = 1_000_000_001;

// The number of a constraint or, if it is further from 0, one past the limit.
fn limited(number: i128) -> i64 {
    i64::try_from(number.clamp(i128::from(-PAST_MOST), i128::from(PAST_MOST))).unwrap_or(PAST_MOST)
}

fn constraint<'a>(first: &'a [u8], second: &'a [u8], sign: &'a [u8], number: &'a [u8]) -> Wish<'a> {
    let limit = match number::read(number) {
        Ok(number) => limited(number),
        Err(NumberError::Below) => -PAST_MOST,
        Err(NumberError::Above) => PAST_MOST,
        Err(NumberError::Wrong) => return Wish::Wrong,
    };
    let is_turned = match sign {
        b"<=" => false,
        b">=" => true,
        _ => return Wish::Wrong,
    };
    Wish::Constraint(Between {
        first,
        second,
        is_turned,
        most: if is_turned {
            limit.wrapping_neg()
        } else {
            limit
        },
        number,
    })
}

// The first words of a line: one more than the longest form has, by which a longer line is known.
// Kept: lines::words makes a Vec; this takes six words without memory, and no function may hand out the iterator (no impl Trait as a result).
fn first_words<'a>(line: &'a [u8]) -> [Option<&'a [u8]>; 6] {
    let mut words = line
        .split(|byte| *byte == b' ' || *byte == b'\t')
        .filter(|word| !word.is_empty());
    [
        words.next(),
        words.next(),
        words.next(),
        words.next(),
        words.next(),
        words.next(),
    ]
}

/// Internal: what a line of a network says.
pub fn wish_in<'a>(line: &'a [u8]) -> Wish<'a> {
    if has_control(line) {
        return Wish::Wrong;
    }
    match first_words(line) {
        [None, ..] => Wish::Nothing,
        [Some(b"event"), Some(name), None, ..] => Wish::Event(name),
        [
            Some(first),
            Some(b"-"),
            Some(second),
            Some(sign),
            Some(number),
            None,
        ] => { constraint(first, second, sign, number) }
        _ => Wish::Wrong,
    }
}

fn is_number(word: &[u8]) -> bool {
    number::read(word) != Err(NumberError::Wrong)
}

fn time<'a>(event: &'a [u8], number: &'a [u8]) -> Claim<'a> {
    match number::read(number) {
        Ok(value) => i64::try_from(value).map_or(
            Claim::FarTime(number),
            |time| Claim::Time(event, time),
        ),
        Err(NumberError::Below | NumberError::Above) => Claim::FarTime(number),
        Err(NumberError::Wrong) => Claim::Wrong,
    }
}

// The line of a constraint, by the word that ends in a colon. No text has as many lines as a u32 has values.
fn numbered<'a>(word: &[u8]) -> Claim<'a> {
    let Some(colon) = word.iter().position(|byte| *byte == b':') else {
        return Claim::Wrong;
    };
    match decimal::read_decimal(&word[..colon]) {
        Ok(n) => Claim::Line(n),
        Err(DecimalError::TooLarge) => Claim::Line(u32::MAX),
        Err(DecimalError::Empty | DecimalError::NoDigit(_)) => Claim::Wrong,
    }
}

/// Internal: what a line of a claim says.
pub fn claim_in<'a>(line: &'a [u8]) -> Claim<'a> {
    if has_control(line) {
        return Claim::Wrong;
    }
    // The first line of an answer is times N, or chain L sum S.
    match first_words(line) {
        [None, ..] => Claim::Nothing,
        [Some(b"line"), Some(number), ..] => numbered(number),
        [Some(b"times"), Some(count), None, ..] if is_number(count) => Claim::Head,
        [
            Some(b"chain"),
            Some(length),
            Some(b"sum"),
            Some(sum),
            None,
            ..
        ] if is_number(length) && is_number(sum) => { Claim::Head }
        [Some(b"time"), Some(event), Some(number), None, ..] => time(event, number),
        _ => Claim::Wrong,
    }
}
