// "A pool is damaged exactly when one of these fails": the conditions in document 01's order, of what is held; and of what is held with the open
// text's statements and values "put after the held ones".
ghost use Rattle.std.specs.Prelude.{◌≡◌, ◌*◌, ◌/◌, ◌≤◌, leb, length};
ghost use Rattle.value.specs.Strings.{STRING};
ghost use Rattle.words.specs.Halves.{HALF, all, upper, lower};
ghost use Rattle.names.specs.Names.{NAMEWORDS};
ghost use Rattle.layout.specs.Limits.{TEXTS_AT};
ghost use Rattle.layout.specs.Memory.{opens};
ghost use Rattle.layout.specs.Damage.{Counted, orderly, orderly_open, sound, small, fits, all_named, all_fit};
ghost use Rattle.layout.specs.Totals.{under, within, sums, names_asked, counts_asked, Countable, Sizes, Behind};

use crate::front::{Totals, totals_merged, totals_of};
use crate::head::{holds_numbers, value_count};
use crate::limits::{
    BYTES, BYTES_AT, BYTES_SO_FAR, BYTEWORDS, HEADS_AT, KEPT_LENGTH, LONGEST_KEPT, MOST_COUNTED,
    NAMES_AT, OPEN_AT, OPEN_BYTES, OPEN_VALUES, STATEMENTS, TEXTS, TEXTS_AT, VALUES, VALUES_AT,
    WORDS,
};
use crate::taken::sum_bytes;
use names::legible::holds_name;
use names::pack::NAMEWORDS;
use octets::fair::all_fair;
use value::strings::STRING;
use words::half::{lower, upper};
use words::read::part_of;
use words::scan::{all_distinct, sum_lower};

// 2^52, above which a double has its exponent's field, 11 bits wide.
const FRACTION: u64 = 4503599627370496;

const FIELD: u64 = 2048;

// The field of 2^200: 1023 + 200.
const LARGE: u64 = 1223;

// The memory is not damaged.
pub fn is_sound(m: &[u64]) -> bool
    ensures { result ≡ sound m.now }
{
    if m.len() != WORDS {
        return false;
    }
    if !is_orderly(m, TEXTS, totals_of(m)) {
        return false;
    }
    if !is_open(m) {
        return true;
    }
    is_open_orderly(m)
}

// One text is open.
pub fn is_open(m: &[u64]) -> bool
    requires { TEXTS_AT ≤ length m.now }
    ensures { result ≡ opens m.now }
{
    m[OPEN_AT] != 0
}

// The open text's statements and values, "put after the held ones", keep the conditions, and its line and byte count are not too long. Counts
// over the limits are refused before they are added, so that no sum wraps.
fn is_open_orderly(m: &[u64]) -> bool
    requires { Behind m.now }
    ensures { result ≡ orderly_open m.now }
{
    if LONGEST_KEPT < m[KEPT_LENGTH] {
        return false;
    }
    if MOST_COUNTED < m[BYTES_SO_FAR] {
        return false;
    }
    if VALUES < m[OPEN_VALUES] {
        return false;
    }
    if BYTES < m[OPEN_BYTES] {
        return false;
    }
    is_orderly(m, TEXTS + 1, totals_merged(m))
}

// Document 01's conditions, in its order, with at most so many texts, of the memory with such totals.
fn is_orderly(m: &[u64], most: u64, totals: Totals) -> bool
    requires { Sizes most m.now }
    ensures { result ≡ orderly most (under totals m.now) }
{
    if !is_limited(most, totals) {
        return false;
    }
    let texts = part_of(m, TEXTS_AT, totals.texts as usize);
    let heads = part_of(m, HEADS_AT, totals.statements as usize);
    let names = part_of(m, NAMES_AT, NAMEWORDS * (totals.statements as usize));
    let values = part_of(m, VALUES_AT, totals.values as usize);
    if !are_named(texts, heads, names) {
        return false;
    }
    are_counted(texts, heads, values, totals)
        && all_fair(part_of(m, BYTES_AT, BYTEWORDS), totals.bytes as usize)
}

// "labels distinct", "names and operators legal"
fn are_named(texts: &[u64], heads: &[u64], names: &[u64]) -> bool
    requires { NAMEWORDS * length heads.now ≤ length names.now }
    ensures { result ≡ names_asked texts.now heads.now names.now }
{
    all_distinct(texts) && all_named(heads, names) && all_operated(heads)
}

// The counts and sums, and that every value fits its statement's kind.
fn are_counted(texts: &[u64], heads: &[u64], values: &[u64], totals: Totals) -> bool
    requires { Countable texts.now heads.now values.now totals }
    ensures { result ≡ counts_asked texts.now heads.now values.now totals }
{
    if !is_summed(heads, totals.values) {
        return false;
    }
    sum_lower(texts) == totals.statements
        && all_fit(heads, values)
        && sum_bytes(heads, values) == totals.bytes
}

// "totals within the limits"
fn is_limited(most: u64, totals: Totals) -> bool
    ensures { result ≡ within most totals }
{
    totals.texts <= most
        && totals.statements <= STATEMENTS
        && totals.values <= VALUES
        && totals.bytes <= BYTES
}

// "every statement's count at least 1 and the counts adding up to the total"
fn is_summed(heads: &[u64], total: u64) -> bool
    requires { length heads.now ≤ HALF }
    ensures { result ≡ sums heads.now total }
{
    all_filled(heads) && sum_lower(heads) == total
}

// Every statement's four words hold a legal name.
fn all_named(heads: &[u64], names: &[u64]) -> bool
    requires { NAMEWORDS * length heads.now ≤ length names.now }
    ensures { result ≡ all_named heads.now names.now }
{
    for i in 0..heads.len() {
        let at = NAMEWORDS * i;
        if !holds_name(&names[at..at + NAMEWORDS]) {
            return false;
        }
    }
    true
}

// Every head's upper number is a kind and an operator: 0 to 3.
fn all_operated(heads: &[u64]) -> bool
    ensures { result ≡ all (λ h. leb (upper h) 3) heads.now }
{
    heads.iter().all(|h| upper(*h) <= 3)
}

// Every statement has a value.
fn all_filled(heads: &[u64]) -> bool
    ensures { result ≡ all (λ h. leb 1 (lower h)) heads.now }
{
    heads.iter().all(|h| 1 <= lower(*h))
}

// Every statement's values fit its kind.
fn all_fit(heads: &[u64], values: &[u64]) -> bool
    requires { Counted heads.now values.now }
    ensures { result ≡ all_fit heads.now values.now }
{
    let mut at = 0;
    for head in heads {
        let end = at + value_count(*head);
        if !values_fit(*head, &values[at..end]) {
            return false;
        }
        at = end;
    }
    true
}

// The values fit the head's kind: numbers are small, and strings short.
fn values_fit(head: u64, values: &[u64]) -> bool
    ensures { result ≡ all (fits (upper head / 2)) values.now }
{
    if holds_numbers(head) {
        return all_small(values);
    }
    all_short(values)
}

// Every value is finite and below 2^200 in size.
fn all_small(values: &[u64]) -> bool
    ensures { result ≡ all small values.now }
{
    values.iter().all(|w| *w / FRACTION % FIELD < LARGE)
}

// Every length is at most that of the longest string.
fn all_short(values: &[u64]) -> bool
    ensures { result ≡ all (λ w. leb w STRING) values.now }
{
    values.iter().all(|w| *w <= STRING as u64)
}
