//! Signed numbers: sums that fit, and a difference that is compared without being made.
#![tactic(auto)]

ghost use Rattle.std.specs.Prelude.{◌≡◌, ◌+◌, ◌≤◌, nat_abs, ◌+ℤ◌, ◌-ℤ◌};
ghost use Rattle.std.specs.Int.Signed.{le_z};
ghost use Rattle.signed.specs.Signed.{max_signed};

/// Internal: the sum of two numbers whose sizes together fit.
pub fn sum(a: i64, b: i64) -> i64
    requires { nat_abs a + nat_abs b ≤ max_signed }
    ensures { result ≡ a +ℤ b }
{
    a + b
}

/// Internal: whether y minus x is at most c, for any three numbers. The difference may need more than 64 bits.
pub fn within(x: i64, y: i64, c: i64) -> bool
    ensures { result ≡ le_z (y -ℤ x) c }
{
    i128::from(y) - i128::from(x) <= i128::from(c)
}
