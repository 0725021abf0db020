// Strings in quotes: document 02, K2, "strings in single quotes, a quote inside written twice".
ghost use Rattle.std.specs.Prelude.{◌≡◌, ◌<◌, length, drop};
ghost use Rattle.value.specs.Strings.{scanned, closing, followed, fitting, string_at};

use crate::classes::Class;
use crate::faults::{Fault, LineFault};
use crate::{Word, classes};

// The longest string.
pub const STRING: usize = 60;

// How long a string is, two quotes being one, and the place after its closing quote.
#[derive(Clone, Copy)]
pub struct Closed {
    pub long: usize,
    pub end: usize,
}

// The string whose opening quote is at `at`.
pub fn read_string(line: &[u8], at: usize) -> Result<Word, LineFault>
    requires { at < length line.now }
    ensures { result ≡ string_at line.now at }
{
    match find_closing(line, at + 1) {
        Some(closed) => fitting(line, at, closed),
        None => Err(Fault::BadValue.at(at)),
    }
}

// Where a string closes, whose bytes start at `at`, if a quote closes it. A `while`, for a place goes on by one byte or by two.
fn find_closing(line: &[u8], at: usize) -> Option<Closed>
    ensures { result ≡ closing 0 at (scanned (drop at line.now)) }
{
    let mut i = at;
    let mut long = 0;
    while i < line.len() {
        if line[i] == b'\'' {
            if classes::stands(b'\'', line, i + 1) {
                i += 2;
                long += 1;
            } else {
                return Some(Closed { long, end: i + 1 });
            }
        } else {
            i += 1;
            long += 1;
        }
    }
    None
}

// A string that may be too long or wrongly followed.
fn fitting(line: &[u8], at: usize, closed: Closed) -> Result<Word, LineFault>
    ensures { result ≡ fitting line.now at closed.long closed.end }
{
    if closed.long <= STRING {
        if is_followed(line, closed.end) {
            return Ok(Word::String(at, closed.long, closed.end));
        }
    }
    Err(Fault::BadValue.at(at))
}

// A blank, a comma, a bracket or the line's end is at a place.
fn is_followed(line: &[u8], at: usize) -> bool
    ensures { result ≡ followed line.now at }
{
    if at < line.len() {
        return !classes::in_class(Class::Value, line[at]);
    }
    true
}
