// The words in front: the four totals, and whether a text is open.
ghost use Rattle.std.specs.Prelude.{◌≡◌, [], ◌∷◌, ◌≤◌, length};
ghost use Rattle.words.specs.Over.{over};
ghost use Rattle.layout.specs.Limits.{TEXTS_AT};
ghost use Rattle.layout.specs.Memory.{NONE_OPEN};
ghost use Rattle.layout.specs.Totals.{own_totals, merged_totals, Addable};

use crate::limits::{
    BYTE_COUNT, OPEN_AT, OPEN_BYTES, OPEN_VALUES, STATEMENT_COUNT, TEXT_COUNT, TEXTS_AT,
    VALUE_COUNT,
};
use words::half::lower;
use words::write::store;

// The numbers of texts, statements, values and bytes of strings.
#[derive(Clone, Copy)]
pub struct Totals {
    pub texts: u64,
    pub statements: u64,
    pub values: u64,
    pub bytes: u64,
}

// Those that the memory holds.
pub fn totals_of(m: &[u64]) -> Totals
    requires { TEXTS_AT ≤ length m.now }
    ensures { result ≡ own_totals m.now }
{
    Totals {
        texts: m[TEXT_COUNT],
        statements: m[STATEMENT_COUNT],
        values: m[VALUE_COUNT],
        bytes: m[BYTE_COUNT],
    }
}

// Those with the open text's beside them. Its word stands behind the held texts' words.
pub fn totals_merged(m: &[u64]) -> Totals
    requires { Addable m.now }
    ensures { result ≡ merged_totals m.now }
{
    let texts = m[TEXT_COUNT];
    let word = m[TEXTS_AT + (texts as usize)];
    Totals {
        texts: texts + 1,
        statements: m[STATEMENT_COUNT] + lower(word),
        values: m[VALUE_COUNT] + m[OPEN_VALUES],
        bytes: m[BYTE_COUNT] + m[OPEN_BYTES],
    }
}

// The totals, and that no text is open.
pub fn write_front(m: &mut [u64], texts: u64, statements: u64, values: u64, bytes: u64)
    ensures { m.new ≡ over 0 (texts ∷ statements ∷ values ∷ bytes ∷ NONE_OPEN ∷ []) m.old }
{
    store(m, TEXT_COUNT, texts);
    store(m, STATEMENT_COUNT, statements);
    store(m, VALUE_COUNT, values);
    store(m, BYTE_COUNT, bytes);
    store(m, OPEN_AT, 0);
}
