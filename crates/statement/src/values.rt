// The values of a statement: document 01, "Then a number, or `(` with at least one number and `)`"; document 02, K2, "A list is all
// numbers or all strings".
ghost use Rattle.std.specs.Prelude.{◌≡◌, List, length};
ghost use Rattle.value.specs.Value.{Value};
ghost use Rattle.statement.specs.Values.{bytes_in_all, admits, kind_of, list_value, item, items, tally, rest, listed, given_at, taken};

use value::classes::Class;
use value::faults::{Fault, LineFault};
use value::{Word, classes, read_value};

// What a list has so far: no value, numbers, or strings.
#[derive(Clone, Copy)]
pub enum Kind {
    Empty,
    Numbers,
    Strings,
}

// How the reader stands between two lines: in a text section, in a data section, or there in a list that has such values so far.
#[derive(Clone, Copy)]
pub enum Reader {
    Text,
    Data,
    List(Kind),
}

// What a list has next: the line's end, its `)`, or a value.
#[derive(Clone, Copy)]
pub enum Item {
    End,
    Close(usize),
    Value(Word),
}

// What a list has after its values in a line, how many these are, how many bytes their strings have, and what ends them: the line's end,
// the `)` at a place, or a fault.
#[derive(Clone, Copy)]
pub struct Counted {
    pub kind: Kind,
    pub given: usize,
    pub bytes: usize,
    pub stop: Result<Option<usize>, LineFault>,
}

// The reader after a statement's values, how many they are and how many bytes their strings have.
#[derive(Clone, Copy)]
pub struct Values {
    pub reader: Reader,
    pub given: usize,
    pub bytes: usize,
}

// A list takes a value, which a quote opens or not.
fn admits(kind: Kind, quote: bool) -> bool
    ensures { result ≡ admits kind quote }
{
    match kind {
        Kind::Empty => true,
        Kind::Numbers => !quote,
        Kind::Strings => quote,
    }
}

// The kind of a list that has such a value.
pub fn kind_of(word: Word) -> Kind
    ensures { result ≡ kind_of word }
{
    match word {
        Word::Number(_, _) => Kind::Numbers,
        Word::String(_, _, _) => Kind::Strings,
    }
}

// The value at a place of a list.
fn list_value(kind: Kind, line: &[u8], at: usize) -> Result<Word, LineFault>
    ensures { result ≡ list_value kind line.now at }
{
    if admits(kind, classes::stands(b'\'', line, at)) {
        return read_value(line, at);
    }
    Err(Fault::BadValue.at(at))
}

// What a list has next, after separators.
pub fn next_item(kind: Kind, line: &[u8], at: usize) -> Result<Item, LineFault>
    ensures { result ≡ item kind line.now at }
{
    let k = classes::past(Class::Separator, line, at);
    if line.len() <= k {
        return Ok(Item::End);
    }
    if classes::stands(b')', line, k) {
        return Ok(Item::Close(k));
    }
    Ok(Item::Value(list_value(kind, line, k)?))
}

// A list's values from a place on, counted: no more of them than the line has bytes.
pub fn count_items(kind: Kind, line: &[u8], at: usize) -> Counted
    ensures { result ≡ tally (items kind line.now at) }
{
    let mut kind = kind;
    let mut i = at;
    let mut bytes = 0;
    for given in 0..line.len() {
        let word = match next_item(kind, line, i) {
            Ok(Item::Value(word)) => word,
            Ok(Item::End) => return stopped(kind, given, bytes, Ok(None)),
            Ok(Item::Close(k)) => return stopped(kind, given, bytes, Ok(Some(k))),
            Err(fault) => return stopped(kind, given, bytes, Err(fault)),
        };
        kind = kind_of(word);
        i = word.end();
        bytes += word.long();
    }
    stopped(kind, line.len(), bytes, Ok(None))
}

// The values so far, and what ends them.
fn stopped(
    kind: Kind,
    given: usize,
    bytes: usize,
    stop: Result<Option<usize>, LineFault>,
) -> Counted
    ensures { result ≡ record { kind = kind; given = given; bytes = bytes; stop = stop } }
{
    Counted {
        kind,
        given,
        bytes,
        stop,
    }
}

// The values of a list that is open at a place, `kind` telling what it has on earlier lines.
pub fn list(kind: Kind, line: &[u8], at: usize) -> Result<Values, LineFault>
    ensures { result ≡ taken (listed kind line.now at) }
{
    let counted = count_items(kind, line, at);
    let given = counted.given;
    let bytes = counted.bytes;
    let Some(k) = counted.stop? else {
        return Ok(Values {
            reader: Reader::List(counted.kind),
            given,
            bytes,
        });
    };
    match counted.kind {
        Kind::Empty => Err(Fault::OpenList.at(k)),
        Kind::Numbers => rest(given, bytes, line, k + 1),
        Kind::Strings => rest(given, bytes, line, k + 1),
    }
}

// The values that start at a place, after the operator.
pub fn value(line: &[u8], at: usize) -> Result<Values, LineFault>
    ensures { result ≡ taken (given_at line.now at) }
{
    if classes::stands(b'(', line, at) {
        return list(Kind::Empty, line, at + 1);
    }
    let word = read_value(line, at)?;
    rest(1, word.long(), line, word.end())
}

// So many values with so many bytes, if only blanks follow them.
pub fn rest(given: usize, bytes: usize, line: &[u8], at: usize) -> Result<Values, LineFault>
    ensures { (vs : List Value) → length vs ≡ given → bytes_in_all vs ≡ bytes → result ≡ taken (rest vs line.now at) }
{
    let k = classes::past(Class::Blank, line, at);
    if k < line.len() {
        return Err(Fault::RestOfLine.at(k));
    }
    Ok(Values {
        reader: Reader::Data,
        given,
        bytes,
    })
}
