//! Signed numbers as a person types them: a sign or none, and digits.
ghost use Rattle.std.specs.Prelude.{true};
ghost use Rattle.decimal.specs.Decimal.{Typed};
ghost use Rattle.wishes.specs.Number.{WorthTold, ReadsAbove, ReadsDigits, ReadsSigned};

use decimal::DecimalError;

/// Why a word is not read as a number: it is none; or it is below or above all numbers of 64 bits with a sign.
#[derive(Clone, Copy, Debug, PartialEq, Eq)]
pub enum NumberError {
    Wrong,
    Below,
    Above,
}

// The last value after which there is room for one more digit in 64 bits.
const ENOUGH: u64 = 922337203685477580;

// What digits are worth, or None where that is more than any number of 64 bits with a sign.
fn worth_of(digits: &[u8]) -> Option<u64>
    requires { Typed digits.now }
    ensures { WorthTold digits.now result }
{
    let mut value: u64 = 0;
    for byte in digits {
        if ENOUGH < value {
            return None;
        }
        value = value * 10 + (byte - b'0') as u64;
    }
    Some(value)
}

// The number that digits are. Two numbers that are just past 64 bits with a sign are read too.
fn above(digits: &[u8]) -> Result<u64, NumberError>
    ensures { ReadsAbove digits.now result }
{
    match decimal::read_decimal(digits) {
        Ok(value) => Ok(value as u64),
        Err(DecimalError::TooLarge) => worth_of(digits).ok_or(NumberError::Above),
        Err(DecimalError::Empty | DecimalError::NoDigit(_)) => Err(NumberError::Wrong),
    }
}

// The number that digits after a minus are.
fn below(digits: &[u8]) -> Result<i128, NumberError>
    ensures { ReadsDigits digits.now true result }
{
    match above(digits) {
        Ok(size) => Ok(-i128::from(size)),
        Err(NumberError::Above | NumberError::Below) => Err(NumberError::Below),
        Err(NumberError::Wrong) => Err(NumberError::Wrong),
    }
}

/// Internal: reads a number.
pub fn read(word: &[u8]) -> Result<i128, NumberError>
    ensures { ReadsSigned word.now result }
{
    match word {
        [b'-', digits @ ..] => below(digits),
        [b'+', digits @ ..] => Ok(i128::from(above(digits)?)),
        _ => Ok(i128::from(above(word)?)),
    }
}
