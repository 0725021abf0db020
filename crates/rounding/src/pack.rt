// Leading digits packed into a double, rounded once: the digits that a double keeps, and its place.
ghost use Rattle.std.specs.Prelude.{◌≡◌, false, ◌-◌, ◌*◌, ◌^◌, ◌≤◌, ◌<◌};
ghost use Rattle.std.specs.Float.{binary64};
ghost use Rattle.std.specs.Float.Ieee.{round};
ghost use Rattle.std.specs.Float.Ieee.Nearest.{closest};
ghost use Rattle.rounding.specs.Leading.{Moved};

use std::cmp::Ordering;

// 2^52, the weight of the exponent in a double's bits.
const PLACE: u64 = 4503599627370496;

// How many digits fewer than a u64 a double keeps: 53 of 64.
const FEWER: u64 = 11;

// How far a number can be shifted and still leave so many leading digits of a u64 free.
pub(crate) fn room(x: u64, free: u64) -> u64
    requires { (0 < x) × (free ≤ 63) × (x < 2 ^ (64 - free)) }
    ensures { Moved x free result }
{
    u64::leading_zeros(x) as u64 - free
}

// The double nearest to n · 2^e / 2^1074: the 53 digits that a double keeps, in the place of those that it drops.
pub(crate) fn pack(n: u64, e: u64) -> f64
    requires { (2 ^ 54 ≤ n) × (e ≤ 2000) }
    ensures { result ≡ round binary64 false (n * 2 ^ e) (2 ^ 1074) }
{
    let dropped = FEWER - u64::leading_zeros(n) as u64;
    f64::from_bits(kept(n, dropped) + (dropped + e) * PLACE)
}

// n / 2^k to the nearest whole number, a tie to the even one.
fn kept(n: u64, k: u64) -> u64
    requires { k < 63 }
    ensures { result ≡ closest n (2 ^ k) }
{
    let unit = 1u64 << k;
    let whole = n / unit;
    let twice = n % unit * 2;
    match twice.cmp(&unit) {
        Ordering::Less => whole,
        Ordering::Equal => whole + whole % 2,
        Ordering::Greater => whole + 1,
    }
}
