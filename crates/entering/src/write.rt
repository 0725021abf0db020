// What a line adds to an open text, written behind what the pool holds and what it has of the text.
ghost use Rattle.std.specs.Prelude.{◌≡◌};
ghost use Rattle.page.specs.Pens.{Stretches, Tells};
ghost use Rattle.page.specs.Writing.{page};
ghost use Rattle.entering.specs.Pens.{last_head, pen_at, Penned, HeadRead, place_on};
ghost use Rattle.entering.specs.Lines.{Adds, Lays};

use crate::counts::places;
use bookmark::mark::Entered;
use layout::limits::{BYTE_COUNT, STATEMENT_COUNT, VALUE_COUNT, WORDS};
use page::pen::{Pen, pen_behind, tell};
use page::store::store_number;
use statement::values::{Kind, Reader};
use writing::write::write_line;

// A line that adds something, and fits; it gives so many values. A list that it opens without a value gets a place for one.
pub fn write_added(pool: &mut [u64], entered: Entered, reader: Reader, line: &[u8], given: usize)
    requires { Adds pool.old entered reader line.now given }
    ensures { Lays pool.old entered reader line.now pool.new }
{
    let pen = pen_at(pool, entered, reader);
    // What it has room in has so many words.
    let Some(words) = pool.as_mut_array::<WORDS>() else {
        unreachable!()
    };
    let turn = write_line(words, pen, reader, line);
    if given == 0 {
        hold_place(pool, turn.pen);
    }
}

// The pen behind the text's own statements, at the place that is held in a list without a value.
fn pen_at(pool: &[u64], entered: Entered, reader: Reader) -> Pen
    requires { Penned pool.now entered reader }
    ensures { result ≡ pen_at pool.now entered reader }
{
    let statements = pool[STATEMENT_COUNT] as usize + entered.statements;
    let values = pool[VALUE_COUNT] as usize + (entered.values - places(reader));
    let bytes = pool[BYTE_COUNT] as usize + entered.bytes;
    let mut pen = pen_behind(statements, values, bytes);
    pen.head = last_head(pool, pen.heads, reader);
    pen
}

// The head of a list that goes on, with the values that it has.
fn last_head(pool: &[u64], heads: usize, reader: Reader) -> u64
    requires { HeadRead pool.now heads reader }
    ensures { result ≡ last_head pool.now heads reader }
{
    match reader {
        Reader::List(_) => pool[heads - 1] - (places(reader) as u64),
        _ => 0,
    }
}

// A number +0 holds a list's place.
fn hold_place(pool: &mut [u64], pen: Pen)
    requires { (Stretches pen) × (Tells pen 1) }
    ensures { pool.new ≡ (place_on (page pool.old pen)).memory }
{
    let stored = store_number(pool, pen, 0.0);
    tell(pool, stored, Kind::Numbers, 1);
}
