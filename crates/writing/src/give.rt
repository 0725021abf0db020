// The values that a line gives to the statement opened last: document 01, "Then a number, or `(` with at least one number and `)`";
// document 02, K2, "A list is all numbers or all strings".
ghost use Rattle.std.specs.Prelude.{◌≡◌};
ghost use Rattle.value.specs.Value.{value_of};
ghost use Rattle.statement.specs.Values.{listed, given_at};
ghost use Rattle.page.specs.Writing.{page, stored_on};
ghost use Rattle.page.specs.Pens.{Stretches};
ghost use Rattle.writing.specs.Pens.{Ready, Storable, Found, Stores, stopped, after_list, Gives};

use layout::limits::WORDS;
use page::pen::{Pen, tell};
use page::store::{store_number, store_string};
use statement::values::{Counted, Item, Kind, Reader, kind_of, next_item};
use value::faults::LineFault;
use value::{Word, classes, read_value};

// The pen and the reader after a line.
#[derive(Clone, Copy)]
pub struct Turn {
    pub pen: Pen,
    pub reader: Reader,
}

// The pen after a list's values in a line are stored, and these counted.
#[derive(Clone, Copy)]
pub struct Stored {
    pub pen: Pen,
    pub counted: Counted,
}

// The values that start at a place, after the operator: a list, a number or a string.
pub fn give_values(m: &mut [u64; WORDS], pen: Pen, line: &[u8], at: usize) -> Turn
    requires { Ready pen line.now }
    ensures { Gives (given_at line.now at) (page m.old pen) m.new result }
{
    if classes::stands(b'(', line, at) {
        return give_list(m, pen, Kind::Empty, line, at + 1);
    }
    let Ok(word) = read_value(line, at) else {
        return Turn {
            pen,
            reader: Reader::Data,
        };
    };
    let stored = store_word(m, pen, line, word);
    Turn {
        pen: tell(m, stored, kind_of(word), 1),
        reader: Reader::Data,
    }
}

// A value that is found in a line is stored.
fn store_word(m: &mut [u64; WORDS], pen: Pen, line: &[u8], word: Word) -> Pen
    requires { (Stretches pen) × (Found line.now word) }
    ensures { page m.new result ≡ stored_on (value_of line.now word) (page m.old pen) }
{
    match word {
        Word::Number(x, _) => store_number(m, pen, x),
        Word::String(start, long, _) => store_string(m, pen, line, start, long),
    }
}

// The values of a list that is open at a place, `kind` telling what it has on earlier lines.
pub fn give_list(m: &mut [u64; WORDS], pen: Pen, kind: Kind, line: &[u8], at: usize) -> Turn
    requires { Ready pen line.now }
    ensures { Gives (listed kind line.now at) (page m.old pen) m.new result }
{
    let stored = store_items(m, pen, kind, line, at);
    let counted = stored.counted;
    Turn {
        pen: tell(m, stored.pen, counted.kind, counted.given),
        reader: after_list(counted.kind, counted.stop),
    }
}

// The reader after the values that a list has in a line.
fn after_list(kind: Kind, stop: Result<Option<usize>, LineFault>) -> Reader
    ensures { result ≡ after_list kind stop }
{
    match stop {
        Ok(None) => Reader::List(kind),
        Ok(Some(_)) => Reader::Data,
        Err(_) => Reader::Data,
    }
}

// A list's values from a place on are stored, and counted: no more of them than the line has bytes. (`count_items` has this loop without the
// memory; one for both, over a closure that carries memory and pen, is no plainer.)
fn store_items(m: &mut [u64; WORDS], pen: Pen, kind: Kind, line: &[u8], from: usize) -> Stored
    requires { Storable pen line.now }
    ensures { Stores kind line.now from (page m.old pen) result m.new }
{
    let mut last = pen;
    let mut kind = kind;
    let mut i = from;
    let mut bytes = 0;
    for given in 0..line.len() {
        let word = match next_item(kind, line, i) {
            Ok(Item::Value(word)) => word,
            Ok(Item::End) => return stopped(last, kind, given, bytes, Ok(None)),
            Ok(Item::Close(k)) => return stopped(last, kind, given, bytes, Ok(Some(k))),
            Err(fault) => return stopped(last, kind, given, bytes, Err(fault)),
        };
        last = store_word(m, last, line, word);
        kind = kind_of(word);
        i = word.end();
        bytes += word.long();
    }
    stopped(last, kind, line.len(), bytes, Ok(None))
}

// What is told at the end of a list's values in a line.
fn stopped(
    pen: Pen,
    kind: Kind,
    given: usize,
    bytes: usize,
    stop: Result<Option<usize>, LineFault>,
) -> Stored
    ensures { result ≡ stopped pen kind given bytes stop }
{
    Stored {
        pen,
        counted: Counted {
            kind,
            given,
            bytes,
            stop,
        },
    }
}
