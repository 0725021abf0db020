// What a statement's head says: its kind and operator in the upper number, and its number of values in the lower one.
ghost use Rattle.std.specs.Prelude.{◌≡◌, ◌/◌, eqb};
ghost use Rattle.words.specs.Halves.{upper, lower};

use words::half::{lower, upper};

// The statement's values are numbers, and not strings.
pub fn holds_numbers(head: u64) -> bool
    ensures { result ≡ eqb (upper head / 2) 0 }
{
    upper(head) / 2 == 0
}

// How many values the statement has.
pub fn value_count(head: u64) -> usize
    ensures { result ≡ lower head }
{
    lower(head) as usize
}
