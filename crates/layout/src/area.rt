// The words in use of each area, and the words of the strings' bytes.
// Each is `part_of` under its own name, for a place and a count in its stead would not say which area it is.
ghost use Rattle.std.specs.Prelude.{◌≡◌};
ghost use Rattle.words.specs.Over.{part};
ghost use Rattle.layout.specs.Limits.{BYTES_AT, BYTEWORDS};
ghost use Rattle.layout.specs.Memory.{text_words, head_words, name_words, value_words};
ghost use Rattle.layout.specs.Damage.{Framed};

use crate::limits::{
    BYTES_AT, BYTEWORDS, HEADS_AT, NAMES_AT, STATEMENT_COUNT, TEXT_COUNT, TEXTS_AT, VALUE_COUNT,
    VALUES_AT,
};
use names::pack::NAMEWORDS;
use words::read::part_of;

// One word a text: its label and its number of statements.
pub fn texts_of(m: &[u64]) -> &[u64]
    requires { Framed m.now }
    ensures { result.now ≡ text_words m.now }
{
    part_of(m, TEXTS_AT, m[TEXT_COUNT] as usize)
}

// One word a statement: its kind and operator, and its number of values.
pub fn heads_of(m: &[u64]) -> &[u64]
    requires { Framed m.now }
    ensures { result.now ≡ head_words m.now }
{
    part_of(m, HEADS_AT, m[STATEMENT_COUNT] as usize)
}

// Four words a statement: its name.
pub fn names_of(m: &[u64]) -> &[u64]
    requires { Framed m.now }
    ensures { result.now ≡ name_words m.now }
{
    part_of(m, NAMES_AT, NAMEWORDS * (m[STATEMENT_COUNT] as usize))
}

// One word a value: a number's bits, or a string's length.
pub fn values_of(m: &[u64]) -> &[u64]
    requires { Framed m.now }
    ensures { result.now ≡ value_words m.now }
{
    part_of(m, VALUES_AT, m[VALUE_COUNT] as usize)
}

// The strings' bytes, eight to a word: all words of the area.
pub fn bytes_of(m: &[u64]) -> &[u64]
    requires { Framed m.now }
    ensures { result.now ≡ part BYTES_AT BYTEWORDS m.now }
{
    part_of(m, BYTES_AT, BYTEWORDS)
}
