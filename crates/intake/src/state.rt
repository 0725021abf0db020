// The open text of a memory: read from its words, and written into them.
ghost use Rattle.std.specs.Prelude.{◌≡◌};
ghost use Rattle.layout.specs.Memory.{open_label, open_body};
ghost use Rattle.layout.specs.Totals.{Behind};
ghost use Rattle.taking.specs.Marked.{open_of};
ghost use Rattle.intake.specs.Opened.{borne_reader, borne, stowed};
ghost use Rattle.intake.specs.State.{Opened, Counts, Finds, Stowable};

use bookmark::mark::{Bookmark, Entered, Standing};
use bookmark::read::read;
use bookmark::settle::settle_reader;
use bookmark::write::write;
use layout::head::{holds_numbers, value_count};
use layout::limits::{
    HALF, HEADS_AT, OPEN_AT, STATEMENT_COUNT, TEXT_COUNT, TEXTS_AT, VALUE_COUNT, VALUES_AT,
};
use statement::values::Reader;
use words::half::{lower, upper};
use words::read::part_of;
use words::write::store;

// How many words keep the open text.
const OPENWORDS: usize = 30;

// Where the open text stands, a reader in a list being believed as far as the statement stored last bears it out.
pub fn open_in(pool: &[u64]) -> Bookmark
    requires { Opened pool.now }
    ensures { Finds pool.now result }
{
    let texts = pool[TEXT_COUNT] as usize;
    let statements = lower(pool[TEXTS_AT + texts]) as usize;
    let b = read(part_of(pool, OPEN_AT, OPENWORDS), statements);
    let settled = borne(pool, b.entered);
    Bookmark {
        entered: settled,
        ..b
    }
}

// The same of what the complete lines came to.
fn borne(pool: &[u64], entered: Entered) -> Entered
    requires { Counts pool.now entered }
    ensures { result ≡ borne (open_body pool.now) entered }
{
    match entered.standing {
        Standing::Storing(reader) => Entered {
            standing: Standing::Storing(borne_reader(pool, entered, reader)),
            ..entered
        },
        Standing::Overflowed(_) => entered,
        Standing::Faulted(_) => entered,
    }
}

// The reader, as far as the last of the statements that are stored bears it out.
fn borne_reader(pool: &[u64], entered: Entered, reader: Reader) -> Reader
    requires { Counts pool.now entered }
    ensures { result ≡ borne_reader (open_body pool.now) reader }
{
    if entered.statements == 0 {
        return settle_reader(false, false, false, reader);
    }
    let heads = HEADS_AT + (pool[STATEMENT_COUNT] as usize) + entered.statements;
    let head = pool[heads - 1];
    if !holds_numbers(head) {
        return settle_reader(true, true, false, reader);
    }
    if value_count(head) != 1 {
        return settle_reader(true, false, false, reader);
    }
    let values = VALUES_AT + (pool[VALUE_COUNT] as usize) + entered.values;
    settle_reader(true, false, pool[values - 1] == 0, reader)
}

// The label of the open text.
pub fn label_in(pool: &[u64]) -> u64
    requires { Behind pool.now }
    ensures { result ≡ open_label pool.now }
{
    let texts = pool[TEXT_COUNT] as usize;
    upper(pool[TEXTS_AT + texts])
}

// Its word behind those of the held texts, and the words that keep where it stands, are written.
pub fn stow(pool: &mut [u64], label: u64, b: Bookmark)
    requires { Stowable pool.old label b }
    ensures { pool.new ≡ stowed label (open_of pool.old b) }
{
    let texts = pool[TEXT_COUNT] as usize;
    store(
        pool,
        TEXTS_AT + texts,
        label * HALF + (b.entered.statements as u64),
    );
    write(pool, OPEN_AT, b);
}
