// w·10^k as the nearest double, ties to the even significand: document 02, K4.
#![tactic(auto)]

mod pack;
mod power;
mod wide;

ghost use Rattle.std.specs.Prelude.{◌≡◌, false, ◌*◌, ◌^◌, ◌≤◌, ◌<◌, MatchOption};
ghost use Rattle.std.specs.Float.{binary64};
ghost use Rattle.std.specs.Float.Ieee.{round};
ghost use Rattle.rounding.specs.Exact.{LARGEST, STEEPEST};

use pack::{pack, room};
use wide::{product, quotient};

// The largest w up to which every whole number is a double, so that one operation rounds once.
const LARGEST: u64 = 9007199254740992;

// The highest k: up to it every power of ten is a double.
const HIGHEST: u64 = 22;

// How many places a product stands above the smallest double, 2^-1074: it has dropped 64, and one digit is more.
const PRODUCT: u64 = 1137;

// How many places a quotient stands above it: it has gained 52, and one digit is more.
const QUOTIENT: u64 = 1021;

// A power of ten that is a double, 10^k.
#[derive(Clone, Copy)]
pub struct Tens {
    pub k: u64,
    pub ghost small: { k ≤ STEEPEST },
}

impl Tens {
    // 10^k; nothing, where it is no double.
    pub fn of(k: u64) -> Option<Tens>
        ensures { MatchOption result (STEEPEST < k) (λ tens. tens.k ≡ k) }
    {
        if k > HIGHEST {
            return None;
        }
        Some(Tens { k })
    }

    // The double nearest to w · 10^k.
    pub fn times(self, w: u64) -> f64
        ensures { result ≡ round binary64 false (w * 10 ^ self.k) 1 }
    {
        if w <= LARGEST {
            return (w as f64) * self.power();
        }
        self.long_times(w)
    }

    // The double nearest to w / 10^k.
    pub fn over(self, w: u64) -> f64
        ensures { result ≡ round binary64 false w (10 ^ self.k) }
    {
        if w <= LARGEST {
            return (w as f64) / self.power();
        }
        self.long_over(w)
    }

    // The double nearest to w · 10^k, for a w that is no double itself.
    fn long_times(self, w: u64) -> f64
        requires { LARGEST < w }
        ensures { result ≡ round binary64 false (w * 10 ^ self.k) 1 }
    {
        let a = room(w, 0);
        let n = self.five();
        let b = room(n, 2);
        pack(product(w << a, n << b), PRODUCT + self.k - a - b)
    }

    // The double nearest to w / 10^k, for a w that is no double itself. Beside `long_times` it stays: the two share their shape, and no
    // operator, constant or sign, so one function for both would be all parameters.
    fn long_over(self, w: u64) -> f64
        requires { LARGEST < w }
        ensures { result ≡ round binary64 false w (10 ^ self.k) }
    {
        let a = room(w, 0);
        let n = self.five();
        let b = room(n, 8);
        pack(quotient(w << a, n << b), QUOTIENT + b - a - self.k)
    }
}
