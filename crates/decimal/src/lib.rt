//! Numbers as a person types them: decimal digits.
#![tactic(auto)]

ghost use Rattle.std.specs.Prelude.{◌≡◌};
ghost use Rattle.decimal.specs.Decimal.{Typed, ReadsDecimal, OtherTold};

/// Why digits are no number: there are none; the position of the first byte that is no digit; or they are worth more than `u32::MAX`.
#[derive(Clone, Copy, Debug, PartialEq, Eq)]
pub enum DecimalError {
    Empty,
    NoDigit(usize),
    TooLarge,
}

// The first byte that is no digit, if there is one.
fn first_other(text: &[u8]) -> Option<usize>
    ensures { OtherTold text.now result }
{
    text.iter().position(|byte| !byte.is_ascii_digit())
}

// What digits are worth.
fn worth(text: &[u8]) -> Result<u32, DecimalError>
    requires { Typed text.now }
    ensures { ReadsDecimal text.now result }
{
    let mut value: u64 = 0;
    for byte in text {
        value = value * 10 + (byte - b'0') as u64;
        if value > u32::MAX as u64 {
            return Err(DecimalError::TooLarge);
        }
    }
    Ok(value as u32)
}

/// Internal: reads a number from 0 to 4,294,967,295 from its decimal digits. Leading zeros are taken; signs and spaces are not.
pub fn read_decimal(text: &[u8]) -> Result<u32, DecimalError>
    ensures { ReadsDecimal text.now result }
{
    if text.is_empty() {
        return Err(DecimalError::Empty);
    }
    if let Some(i) = first_other(text) {
        return Err(DecimalError::NoDigit(i));
    }
    worth(text)
}
