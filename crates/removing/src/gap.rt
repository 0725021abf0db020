// A text's gap in every area, and how it is closed. The four gaps stay four functions, for each reads other areas; what they share is `gap_among`.
ghost use Rattle.std.specs.Prelude.{◌≡◌, ◌+◌, ◌≤◌, length};
ghost use Rattle.words.specs.Over.{part};
ghost use Rattle.words.specs.Halves.{HALF, sum};
ghost use Rattle.layout.specs.Limits.{STATEMENTS, BYTES, WORDS};
ghost use Rattle.removing.specs.Gaps.{gap_among, text_gap, statement_gap, value_gap, byte_gap, closing, closing_bytes, fourfold, left, whole, closed, taken_out, Spanned, Gapped, Closes};

use layout::area::values_of;
use layout::front::write_front;
use layout::limits::{
    BYTE_COUNT, BYTES_AT, BYTEWORDS, HEADS_AT, NAMES_AT, STATEMENT_COUNT, TEXT_COUNT, TEXTS_AT,
    VALUE_COUNT, VALUES_AT,
};
use layout::taken::sum_bytes;
use names::pack::NAMEWORDS;
use octets::area::shift_bytes_in;
use words::half::lower;
use words::read::part_of;
use words::scan::sum_lower;
use words::write::shift;

// How many elements of an area stand before a gap, in it and after it.
#[derive(Clone, Copy)]
pub struct Gap {
    pub before: usize,
    pub inside: usize,
    pub after: usize,
}

impl Gap {
    // Four words for each element, as names have.
    fn fourfold(self) -> Gap
        requires { whole self ≤ STATEMENTS }
        ensures { result ≡ fourfold self }
    {
        Gap {
            before: NAMEWORDS * self.before,
            inside: NAMEWORDS * self.inside,
            after: NAMEWORDS * self.after,
        }
    }

    // How many are left.
    fn left(self) -> u64
        requires { whole self ≤ BYTES }
        ensures { result ≡ left self }
    {
        (self.before + self.after) as u64
    }
}

// The text at a place goes, with its statements, their values and the bytes of their strings; the front is written last.
pub fn take_out(m: &mut [u64], place: usize)
    requires { Gapped place m.old }
    ensures { m.new ≡ taken_out place m.old }
{
    let texts = text_gap(m, place);
    let statements = statement_gap(m, place);
    let values = value_gap(m, statements);
    let bytes = byte_gap(m, statements);
    close_areas(m, texts, statements, values, bytes);
    write_front(
        m,
        texts.left(),
        statements.left(),
        values.left(),
        bytes.left(),
    );
}

// The gap of the text itself.
fn text_gap(m: &[u64], place: usize) -> Gap
    requires { Gapped place m.now }
    ensures { result ≡ text_gap place m.now }
{
    gap_among(m[TEXT_COUNT], place, 1)
}

// The gap of its statements.
fn statement_gap(m: &[u64], place: usize) -> Gap
    requires { Gapped place m.now }
    ensures { result ≡ statement_gap place m.now }
{
    let before = sum_part(m, TEXTS_AT, place);
    let inside = lower(m[TEXTS_AT + place]) as usize;
    gap_among(m[STATEMENT_COUNT], before, inside)
}

// The gap of their values.
fn value_gap(m: &[u64], statements: Gap) -> Gap
    requires { Spanned statements m.now }
    ensures { result ≡ value_gap statements m.now }
{
    let from = statements.before;
    let many = statements.inside;
    let before = sum_part(m, HEADS_AT, from);
    let inside = sum_part(m, HEADS_AT + from, many);
    gap_among(m[VALUE_COUNT], before, inside)
}

// The gap of the bytes of their strings.
fn byte_gap(m: &[u64], statements: Gap) -> Gap
    requires { Spanned statements m.now }
    ensures { result ≡ byte_gap statements m.now }
{
    let from = statements.before;
    let many = statements.inside;
    let values = values_of(m);
    let skipped = sum_part(m, HEADS_AT, from);
    let before = sum_bytes(part_of(m, HEADS_AT, from), values) as usize;
    let inside = sum_bytes(part_of(m, HEADS_AT + from, many), &values[skipped..]) as usize;
    gap_among(m[BYTE_COUNT], before, inside)
}

// The gap of so many elements behind so many, among all that there are.
fn gap_among(all: u64, before: usize, inside: usize) -> Gap
    requires { before + inside ≤ all }
    ensures { result ≡ gap_among all before inside }
{
    Gap {
        before,
        inside,
        after: all as usize - before - inside,
    }
}

// The lower numbers of n words from a place on, summed.
fn sum_part(m: &[u64], at: usize, n: usize) -> usize
    requires { (at + n ≤ length m.now) × (n ≤ HALF) }
    ensures { result ≡ sum (part at n m.now) }
{
    sum_lower(part_of(m, at, n)) as usize
}

// The gap is closed in every area.
fn close_areas(m: &mut [u64], texts: Gap, statements: Gap, values: Gap, bytes: Gap)
    requires { Closes texts statements values bytes m.old }
    ensures { m.new ≡ closed texts statements values bytes m.old }
{
    close_bytes(m, bytes);
    close_area(m, TEXTS_AT, texts);
    close_area(m, HEADS_AT, statements);
    close_area(m, NAMES_AT, statements.fourfold());
    close_area(m, VALUES_AT, values);
}

// The bytes after the gap move down to where it begins.
fn close_bytes(m: &mut [u64], gap: Gap)
    requires { (length m.old ≡ WORDS) × (whole gap ≤ BYTES) }
    ensures { m.new ≡ closing_bytes gap m.old }
{
    let from = gap.before + gap.inside;
    shift_bytes_in(m, BYTES_AT, BYTEWORDS, gap.before, from, gap.after);
}

// What stands after the gap moves down to where it begins.
fn close_area(m: &mut [u64], at: usize, gap: Gap)
    requires { at + whole gap ≤ length m.old }
    ensures { m.new ≡ closing at gap m.old }
{
    let to = at + gap.before;
    let from = to + gap.inside;
    shift(m, to, from, gap.after);
}
