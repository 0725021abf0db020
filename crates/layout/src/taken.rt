// The bytes that strings take: "lengths that do not add up to the string total".
ghost use Rattle.std.specs.Prelude.{◌≡◌, ◌≤◌, ◌/◌, length};
ghost use Rattle.words.specs.Halves.{HALF, upper};
ghost use Rattle.layout.specs.Memory.{bytes_taken};
ghost use Rattle.layout.specs.Damage.{Counted, total_bytes};

use crate::head::{holds_numbers, value_count};
use words::scan::sum_lower;

// The bytes of the statements' strings together. There are few enough values that the sum fits.
pub fn sum_bytes(heads: &[u64], values: &[u64]) -> u64
    requires { Counted heads.now values.now }
    ensures { result ≡ total_bytes heads.now values.now }
{
    let mut total: u64 = 0;
    let mut at = 0;
    for head in heads {
        let end = at + value_count(*head);
        total += bytes_taken(*head, &values[at..end]);
        at = end;
    }
    total
}

// The bytes of one statement's values: numbers take none, strings as many as their lengths add up to.
fn bytes_taken(head: u64, values: &[u64]) -> u64
    requires { length values.now ≤ HALF }
    ensures { result ≡ bytes_taken (upper head / 2) values.now }
{
    if holds_numbers(head) {
        return 0;
    }
    sum_lower(values)
}
