// Load: "A text is accepted exactly when its label is not held, the rules admit it and the undamaged pool has room."
ghost use Rattle.std.specs.Prelude.{◌≡◌, ◌<◌, ◌^◌, Err};
ghost use Rattle.value.specs.Faults.{refusal_of};
ghost use Rattle.text.specs.Columns.{column_of};
ghost use Rattle.layout.specs.State.{Text};
ghost use Rattle.layout.specs.Limits.{room};
ghost use Rattle.layout.specs.Memory.{decode, put};
ghost use Rattle.layout.specs.Damage.{Framed};
ghost use Rattle.pool.specs.Held.{held};
ghost use Rattle.pool.specs.Replies.{refusing_at};
ghost use Rattle.loading.specs.Load.{Loads, Counted, with, text_of, Accepts};

use layout::front::write_front;
use layout::limits::{
    BYTE_COUNT, BYTES, HALF, STATEMENT_COUNT, STATEMENTS, TEXT_COUNT, TEXTS, TEXTS_AT, VALUE_COUNT,
    VALUES, WORDS,
};
use layout::undamaged::Undamaged;
use page::pen::pen_behind;
use pool::held::is_held;
use pool::ready::test_closed;
use pool::reply::Refused;
use refusal::Refusal;
use text::{Counts, TextFault, check};
use words::write::store;
use writing::write::write_text;

// The longest text, in bytes.
const LONGEST_LOAD: usize = 65536;

// The text is put last, under its label; or it is refused, and nothing is written.
pub fn load(pool: &mut [u64], label: u32, text: &[u8]) -> Result<(), Refused>
    ensures { Loads label text.now pool.old result pool.new }
{
    test_closed(pool)?;
    if is_held(pool, label) {
        return Err(Refusal::LabelHeld.into());
    }
    if LONGEST_LOAD < text.len() {
        return Err(Refusal::TextTooLong.into());
    }
    let counts = match check(text) {
        Ok(counts) => counts,
        Err(found) => return Err(refused_at(found)),
    };
    if !has_room(Undamaged { words: pool }, counts) {
        return Err(Refusal::NoRoom.into());
    }
    // An undamaged pool has so many words.
    let Some(words) = pool.as_mut_array() else {
        unreachable!()
    };
    add(words, label, text, counts);
    Ok(())
}

// The refusal that a text's fault is, with its line, and its column, which is counted from 1.
pub fn refused_at(found: TextFault) -> Refused
    requires { column_of found.place < 2 ^ 64 }
    ensures { Err result ≡ refusing_at (refusal_of found.fault) found.line (column_of found.place) }
{
    Refused {
        refusal: found.fault.into(),
        line: found.line,
        column: found.place + 1,
    }
}

// There is room for a text more, of so many statements, values and bytes in strings. No twin of `has_room` in `entering`, which has the sums of
// a text that is open already. Four tests, a line each: in one `&&` the proof of each would nest in that of the one before.
fn has_room(pool: Undamaged, counts: Counts) -> bool
    ensures { (t : Text) → Counted t counts.statements counts.values counts.bytes → result ≡ room (with (decode pool.entry.words.now) t) }
{
    let held = pool.totals();
    if TEXTS <= held.texts {
        return false;
    }
    if STATEMENTS - held.statements < (counts.statements as u64) {
        return false;
    }
    if VALUES - held.values < (counts.values as u64) {
        return false;
    }
    (counts.bytes as u64) <= BYTES - held.bytes
}

// An accepted text of so many statements, values and bytes in strings is written behind what is held, and the front last.
fn add(pool: &mut [u64; WORDS], label: u32, text: &[u8], counts: Counts)
    requires { Accepts label text.now counts.statements counts.values counts.bytes pool.old }
    ensures { pool.new ≡ put (with (decode pool.old) (text_of label text.now)) pool.old }
{
    let texts = pool[TEXT_COUNT];
    let opened = pool[STATEMENT_COUNT];
    let given = pool[VALUE_COUNT];
    let spelled = pool[BYTE_COUNT];
    let pen = pen_behind(opened as usize, given as usize, spelled as usize);
    store(
        pool,
        TEXTS_AT + (texts as usize),
        (label as u64) * HALF + (counts.statements as u64),
    );
    write_text(pool, pen, text);
    write_front(
        pool,
        texts + 1,
        opened + (counts.statements as u64),
        given + (counts.values as u64),
        spelled + (counts.bytes as u64),
    );
}
