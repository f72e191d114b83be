//! The greatest common divisor.
ghost use Rattle.std.specs.Prelude.{◌≡◌};
ghost use Rattle.std.specs.Int.{IsGcd};
ghost use Rattle.mau_formula.specs.Divisor.{gcd_of};

/// A number that divides both, and that each number which divides both divides. By Euclid's algorithm.
fn divisor(a: u128, b: u128) -> u128
    ensures { IsGcd a b result }
{
    if b == 0 { a } else { divisor(b, a % b) }
}

/// The greatest number that divides both; 0 of 0 and 0.
pub fn gcd(a: u128, b: u128) -> u128
    ensures greatest { result ≡ gcd_of a b }
    ensures divisor { IsGcd a b result }
{
    divisor(a, b)
}
