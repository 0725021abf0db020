// Close the open text: 15, 8; then 2, the first faulty line, 7, as one load of its bytes would be answered. Closed, its statements so far and those of
// its last line are held; refused by any but 15 and 8, it is open no more, and nothing else changes.
ghost use Rattle.std.specs.Prelude.{◌≡◌, ◌≤◌};
ghost use Rattle.layout.specs.Memory.{decode, open_label, put};
ghost use Rattle.feeding.specs.Kept.{ROOM};
ghost use Rattle.opening.specs.Closing.{by_room, at_end, end_reply, close_answer, closed_pool};
ghost use Rattle.intake.specs.Opened.{state_in};
ghost use Rattle.intake.specs.Calls.{Closes};
ghost use Rattle.closing.specs.Ended.{Found, Lasts, Short, Holds, Stores, Sealable, sealed};

use bookmark::mark::{Bookmark, Entered, Standing};
use entering::line::{complete_line, foresee};
use intake::state::{label_in, open_in};
use layout::front::write_front;
use layout::limits::{
    BYTE_COUNT, HALF, OPEN_AT, STATEMENT_COUNT, TEXT_COUNT, TEXTS, TEXTS_AT, VALUE_COUNT,
};
use loading::load::refused_at;
use pool::ready::test_open;
use pool::reply::Refused;
use refusal::Refusal;
use statement::values::Reader;
use taking::counts::{MOST, more};
use text::TextFault;
use value::faults::Fault;
use words::write::store;

// What the text's lines came to at its end: how many they are, and how long the last one is.
#[derive(Clone, Copy)]
pub struct Ended {
    pub entered: Entered,
    pub number: usize,
    pub long: usize,
}

pub fn close_text(pool: &mut [u64]) -> Result<(), Refused>
    ensures { Closes pool.old result pool.new }
{
    test_open(pool)?;
    let b = open_in(pool);
    conclude(pool, b)
}

// By the answer the text is held, or open no more.
fn conclude(pool: &mut [u64], b: Bookmark) -> Result<(), Refused>
    requires { Found pool.old b }
    ensures { Closes pool.old result pool.new }
{
    match answer_of(pool, b) {
        Ok(()) => {
            hold(pool, b);
            Ok(())
        }
        Err(refused) => {
            store(pool, OPEN_AT, 0);
            Err(refused)
        }
    }
}

// The answer, for which nothing is written.
fn answer_of(pool: &[u64], b: Bookmark) -> Result<(), Refused>
    requires { Found pool.now b }
    ensures { result ≡ close_answer (decode pool.now) (state_in pool.now) }
{
    if MOST < b.total {
        return Err(Refusal::TextTooLong.into());
    }
    end_reply(pool, reach_end(pool, b))
}

// The text with its last line, which needs no LF, and after a final LF there is none.
fn reach_end(pool: &[u64], b: Bookmark) -> Ended
    requires { Found pool.now b }
    ensures { Lasts pool.now result }
{
    let last = b.kept.settle(b.pending);
    if last.used == 0 {
        return Ended {
            entered: b.entered,
            number: b.number,
            long: b.long,
        };
    }
    let number = more(b.number);
    let after = foresee(pool, b.entered, number, last.line());
    Ended {
        entered: after,
        number,
        long: last.used,
    }
}

// By how the text stands at its end.
fn end_reply(pool: &[u64], end: Ended) -> Result<(), Refused>
    requires { Short pool.now end }
    ensures { result ≡ end_reply (decode pool.now) end.entered.standing end.number end.long }
{
    match end.entered.standing {
        Standing::Storing(reader) => {
            at_end(reader, end.number, end.long, pool[TEXT_COUNT] < TEXTS)
        }
        Standing::Overflowed(reader) => at_end(reader, end.number, end.long, false),
        Standing::Faulted(found) => Err(refused_at(found)),
    }
}

// By how the reader stands, and whether there is room.
fn at_end(reader: Reader, number: usize, long: usize, fits: bool) -> Result<(), Refused>
    requires { long ≤ ROOM }
    ensures { result ≡ at_end reader number long fits }
{
    match reader {
        Reader::List(_) => Err(refused_at(TextFault {
            fault: Fault::OpenList,
            line: number,
            place: long,
        })),
        _ => by_room(fits),
    }
}

// Done, where there is room.
fn by_room(fits: bool) -> Result<(), Refused>
    ensures { result ≡ by_room fits }
{
    if fits {
        return Ok(());
    }
    Err(Refusal::NoRoom.into())
}

// The last line is stored, and the text is held.
fn hold(pool: &mut [u64], b: Bookmark)
    requires { Holds pool.old b }
    ensures { pool.new ≡ put (closed_pool (decode pool.old) (open_label pool.old) (state_in pool.old)) pool.old }
{
    let label = label_in(pool);
    let entered = store_last(pool, b);
    seal(pool, label, entered);
}

// The text's word counts all its statements, and the front all that is held.
fn seal(pool: &mut [u64], label: u64, entered: Entered)
    requires { Sealable pool.old label entered }
    ensures { pool.new ≡ sealed label entered pool.old }
{
    let texts = pool[TEXT_COUNT];
    let statements = pool[STATEMENT_COUNT] + (entered.statements as u64);
    let values = pool[VALUE_COUNT] + (entered.values as u64);
    let bytes = pool[BYTE_COUNT] + (entered.bytes as u64);
    store(
        pool,
        TEXTS_AT + (texts as usize),
        label * HALF + (entered.statements as u64),
    );
    write_front(pool, texts + 1, statements, values, bytes);
}

// The last line, if there is one, is stored.
fn store_last(pool: &mut [u64], b: Bookmark) -> Entered
    requires { Found pool.old b }
    ensures { Stores pool.old pool.new result }
{
    let last = b.kept.settle(b.pending);
    if last.used == 0 {
        return b.entered;
    }
    complete_line(pool, b.entered, more(b.number), last.line())
}
