// The greatest common divisor of odd numbers, by subtraction and halving.
ghost use Rattle.std.specs.Prelude.{◌<◌};
ghost use Rattle.overlap.specs.Divisor.{IsGcd};
ghost use Rattle.overlap.specs.Halving.{Odd, HalvedFrom, PartedFrom};

// A number halved for as long as it is even: what is left, and how often it was halved.
#[derive(Clone, Copy, Debug, PartialEq, Eq)]
pub struct Halved {
    pub odd: u64,
    pub times: u32,
}

// The lesser of two numbers, and their difference.
#[derive(Clone, Copy, Debug, PartialEq, Eq)]
pub struct Parted {
    pub lesser: u64,
    pub difference: u64,
}

pub(crate) fn halve(x: u64) -> Halved
    requires { 0 < x }
    ensures { HalvedFrom x result }
{
    let times = u64::trailing_zeros(x);
    Halved {
        odd: x >> times,
        times,
    }
}

// Both answers in one value: the compiler then needs no jump, which a processor would guess wrong half of the time.
fn part(x: u64, y: u64) -> Parted
    ensures { PartedFrom x y result }
{
    Parted {
        lesser: x.min(y),
        difference: x.abs_diff(y),
    }
}

// The greatest common divisor of two odd numbers: in each step their difference, halved for as long as it is even, takes the place of the greater.
pub(crate) fn gcd_of_odd(a: u64, b: u64) -> u64
    requires odd { Odd a }
    requires odd_2 { Odd b }
    ensures { IsGcd a b result }
{
    let mut x = a;
    let mut y = b;
    // Kept: nothing is counted; the two numbers fall by unequal steps until they are one.
    while x != y {
        let parts = part(x, y);
        let next = halve(parts.difference);
        x = parts.lesser;
        y = next.odd;
    }
    x
}
