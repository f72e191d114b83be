//! Powers below 2^128.
ghost use Rattle.std.specs.Prelude.{◌≡◌, ◌^◌, ◌<◌};
ghost use Rattle.std.specs.Option.{SomeIff};

/// The power, where it is below 2^128. An exponent of 128 or more leaves no power of 2 or more below it.
pub fn checked_power(a: u128, n: u128) -> Option<u128>
    ensures { SomeIff result (a ^ n < 2 ^ 128) (a ^ n) }
{
    if n == 0 || a == 1 {
        return Some(1);
    }
    if a == 0 {
        return Some(0);
    }
    if n >= 128 {
        return None;
    }
    a.checked_pow(n as u32)
}
