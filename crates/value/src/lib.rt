// One value at a place of a line: document 01, "A value is a maximal run without blank, comma or bracket"; document 02, K2, "strings in
// single quotes".
#![tactic(auto)]

pub mod classes;
pub mod faults;
pub mod strings;

ghost use Rattle.std.specs.Prelude.{◌≡◌};
ghost use Rattle.value.specs.Value.{end_of, long_of, number_at, value_at};

use crate::classes::Class;
use crate::faults::{Fault, LineFault};
use decimal::Reading;

// A value: the number and the place after it; or where the string starts, its length and the place after it.
#[derive(Clone, Copy)]
pub enum Word {
    Number(f64, usize),
    String(usize, usize, usize),
}

impl Word {
    // The place after the value.
    pub fn end(self) -> usize
        ensures { result ≡ end_of self }
    {
        match self {
            Word::Number(_, end) => end,
            Word::String(_, _, end) => end,
        }
    }

    // How many bytes the value has as a string: a number has none.
    pub fn long(self) -> usize
        ensures { result ≡ long_of self }
    {
        match self {
            Word::Number(_, _) => 0,
            Word::String(_, long, _) => long,
        }
    }
}

// The value at a place, or a fault where it starts.
pub fn read_value(line: &[u8], at: usize) -> Result<Word, LineFault>
    ensures { result ≡ value_at line.now at }
{
    if classes::stands(b'\'', line, at) {
        return strings::read_string(line, at);
    }
    read_number(line, at)
}

// The number at a place.
fn read_number(line: &[u8], at: usize) -> Result<Word, LineFault>
    ensures { result ≡ number_at line.now at }
{
    let bytes = classes::run(Class::Value, line, at);
    match decimal::read(bytes) {
        Reading::Number(x) => Ok(Word::Number(x, at + bytes.len())),
        Reading::BadForm(_) => Err(Fault::BadValue.at(at)),
        Reading::OutsideClass(_) => Err(Fault::OutsideClass.at(at)),
    }
}
