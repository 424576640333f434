//! Times and rates as a person types them: digits with a unit. The answers are whole nanoseconds.
#![tactic(auto)]

ghost use Rattle.std.specs.Prelude.{◌≤◌, ◌<◌, ◌^◌, ◌≡◌, IfSome, get_or, length};
ghost use Rattle.units.specs.Rates.{OctetTime};
ghost use Rattle.units.specs.Times.{point_byte, NumberTold, ScaledTold, PlainTold, AfterTold, PointedTold, TimeTold};
ghost use Rattle.units.specs.Units.{ns_of};

use decimal::DecimalError;
use std::fmt;

/// Why a word is no time: no unit at its end; no number before the unit; more than nine digits after the point; no whole number of ns; more than a `u32` holds.
#[derive(Clone, Copy, Debug, PartialEq, Eq)]
pub enum TimeError {
    NoUnit,
    NoNumber,
    TooFine,
    NotWhole,
    TooLarge,
}

#[derive(Clone, Copy, Debug, PartialEq, Eq)]
pub enum Unit {
    Nano,
    Micro,
    Milli,
    Second,
}

impl Unit {
    /// How many ns the unit is.
    pub fn ns(self) -> u32
        ensures exact { result ≡ ns_of self }
        ensures some { 0 < result }
        ensures most { result ≤ 1000000000 }
    {
        match self {
            Unit::Nano => 1,
            Unit::Micro => 1_000,
            Unit::Milli => 1_000_000,
            Unit::Second => 1_000_000_000,
        }
    }
}

impl fmt::Display for Unit {
    fn fmt<W: fmt::Write>(&self, f: &mut fmt::Formatter<W>) -> fmt::Result {
        match self {
            Unit::Nano => write!(f, "ns"),
            Unit::Micro => write!(f, "us"),
            Unit::Milli => write!(f, "ms"),
            Unit::Second => write!(f, "s"),
        }
    }
}

// The most digits after a point.
const MOST_DIGITS: usize = 9;

// A word without the unit at its end, and the unit. Micro may be written u, or by one of the two signs that look the same: C2 B5 and CE BC.
fn split_unit(word: &[u8]) -> Option<(&[u8], Unit)> {
    match word {
        [number @ .., b'n', b's'] => Some((number, Unit::Nano)),
        [number @ .., b'u', b's'] => Some((number, Unit::Micro)),
        [number @ .., 0xC2, 0xB5, b's'] => Some((number, Unit::Micro)),
        [number @ .., 0xCE, 0xBC, b's'] => Some((number, Unit::Micro)),
        [number @ .., b'm', b's'] => Some((number, Unit::Milli)),
        [number @ .., b's'] => Some((number, Unit::Second)),
        _ => None,
    }
}

// What a number before a point and the digits after it are worth: the latter are parts of a unit, so many to a unit as scale says.
fn scaled(a: u32, b: u32, scale: u64, unit: Unit) -> Result<u32, TimeError>
    requires { 0 < scale }
    ensures { ScaledTold a b scale (ns_of unit) result }
{
    let size = unit.ns() as u64;
    let part = (b as u64) * size;
    if part % scale != 0 {
        return Err(TimeError::NotWhole);
    }
    let ns = (a as u64) * size + part / scale;
    if ns > u32::MAX as u64 {
        return Err(TimeError::TooLarge);
    }
    Ok(ns as u32)
}

// The number that digits are.
// Kept: what is said of digits worth more than a `u32` holds differs by where they are, which `From<DecimalError>` would not know.
fn number(digits: &[u8], too_large: TimeError) -> Result<u32, TimeError>
    ensures { NumberTold digits.now result }
{
    decimal::read_decimal(digits).map_err(|error| match error {
        DecimalError::TooLarge => too_large,
        DecimalError::Empty | DecimalError::NoDigit(_) => TimeError::NoNumber,
    })
}

fn plain(digits: &[u8], unit: Unit) -> Result<u32, TimeError>
    ensures { PlainTold digits.now (ns_of unit) result }
{
    let a = number(digits, TimeError::TooLarge)?;
    scaled(a, 0, 1, unit)
}

fn after_point(a: u32, digits: &[u8], unit: Unit) -> Result<u32, TimeError>
    ensures { AfterTold a digits.now (ns_of unit) result }
{
    if digits.len() > MOST_DIGITS {
        return Err(TimeError::TooFine);
    }
    let b = number(digits, TimeError::TooFine)?;
    scaled(a, b, 10u64.pow(digits.len() as u32), unit)
}

fn pointed(before: &[u8], after: &[u8], unit: Unit) -> Result<u32, TimeError>
    ensures { PointedTold before.now after.now (ns_of unit) result }
{
    let a = number(before, TimeError::TooLarge)?;
    after_point(a, after, unit)
}

// Where the first point is.
fn point_of(text: &[u8]) -> Option<usize>
    ensures { IfSome result (λ p. (p < length text.now) × (get_or text.now p 0 ≡ point_byte)) }
{
    text.iter().position(|byte| *byte == b'.')
}

// What a number in a unit is worth.
fn with_unit(number: &[u8], unit: Unit) -> Result<u32, TimeError>
    ensures { TimeTold number.now (ns_of unit) result }
{
    let Some(point) = point_of(number) else {
        return plain(number, unit);
    };
    pointed(&number[..point], &number[point + 1..], unit)
}

/// Internal: reads a time: digits, perhaps a point and at most nine digits, and a unit.
pub fn read_time(word: &[u8]) -> Result<u32, TimeError> {
    let (number, unit) = split_unit(word).ok_or(TimeError::NoUnit)?;
    with_unit(number, unit)
}

/// The rates that have a name: 10, 100 and 1,000 Mb/s.
// Kept: OctetTime (specs/Rates.antt) says how many ns an octet takes at each of them, which three numbers in read_rate would leave unsaid.
#[derive(Clone, Copy, Debug, PartialEq, Eq)]
pub enum Named {
    Ten,
    Hundred,
    Thousand,
}

impl Named {
    // How many ns an octet takes.
    fn octet_ns(self) -> u32
        ensures { OctetTime self result }
    {
        match self {
            Named::Ten => 800,
            Named::Hundred => 80,
            Named::Thousand => 8,
        }
    }
}

/// Internal: reads a rate as ns per octet: 10M, 100M, 1G, or a time with /octet after it.
pub fn read_rate(word: &[u8]) -> Result<u32, TimeError> {
    match word {
        b"1G" => Ok(Named::Thousand.octet_ns()),
        b"100M" => Ok(Named::Hundred.octet_ns()),
        b"10M" => Ok(Named::Ten.octet_ns()),
        _ => read_time(word.strip_suffix(b"/octet").ok_or(TimeError::NoUnit)?),
    }
}

/// A number and the unit in which it is whole.
#[derive(Clone, Copy, Debug, PartialEq, Eq)]
pub struct Whole {
    pub number: u32,
    pub unit: Unit,
}

impl fmt::Display for Whole {
    fn fmt<W: fmt::Write>(&self, f: &mut fmt::Formatter<W>) -> fmt::Result {
        write!(f, "{}{}", self.number, self.unit)
    }
}

/// Internal: a time in the largest unit in which it is whole. Nothing is 0 ns.
pub fn largest(ns: u32) -> Whole {
    for unit in [Unit::Second, Unit::Milli, Unit::Micro] {
        if ns != 0 && ns % unit.ns() == 0 {
            return Whole {
                number: ns / unit.ns(),
                unit,
            };
        }
    }
    Whole {
        number: ns,
        unit: Unit::Nano,
    }
}
