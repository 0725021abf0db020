// Words as two halves, an upper number · 2^32 + a lower number: sums, places and repeats.
ghost use Rattle.std.specs.Prelude.{◌≡◌, ◌≤◌, length, eqb};
ghost use Rattle.words.specs.Halves.{HALF, sum, found, distinct, all};

use crate::half::{lower, upper};

// The lower numbers summed. There are few enough words that the sum fits.
pub fn sum_lower(ws: &[u64]) -> u64
    requires { length ws.now ≤ HALF }
    ensures { result ≡ sum ws.now }
{
    ws.iter().map(|w| lower(*w)).sum()
}

// The place of the first word with this upper number.
pub fn place_of(ws: &[u64], number: u64) -> Option<usize>
    ensures { result ≡ found number ws.now }
{
    ws.iter().position(|w| upper(*w) == number)
}

// No two words have one upper number.
pub fn all_distinct(ws: &[u64]) -> bool
    ensures { result ≡ distinct ws.now }
{
    for (i, w) in ws.iter().enumerate() {
        if place_of(&ws[i + 1..], upper(*w)).is_some() {
            return false;
        }
    }
    true
}

// Every word is zero.
pub fn all_zero(ws: &[u64]) -> bool
    ensures { result ≡ all (eqb 0) ws.now }
{
    ws.iter().all(|w| *w == 0)
}
