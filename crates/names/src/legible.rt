// "names .. legal": words that hold a name's bytes from the most significant down, and zeros after it.
ghost use Rattle.std.specs.Prelude.{◌≡◌, ◌<◌, eqb};
ghost use Rattle.plain.specs.Runs.{skip};
ghost use Rattle.value.specs.Classes.{name_byte};
ghost use Rattle.words.specs.Halves.{all};
ghost use Rattle.octets.specs.Octets.{bytes_of, octets};
ghost use Rattle.names.specs.Names.{holds_name};

use crate::whole::{filled, is_whole};
use value::classes::{Class, in_class};
use words::scan::all_zero;

// The place of a word's highest byte, 2^56.
const HIGHEST: u64 = 72057594037927936;

const BYTE: u64 = 256;

// The words hold a legal name, and zeros after it.
// Words that taper hold one where the first is not zero.
pub fn holds_name(ws: &[u64]) -> bool
    ensures { result ≡ holds_name ws.now }
{
    !ws.is_empty() && ws[0] != 0 && all_taper(ws)
}

// The words hold name bytes, and zeros after them: from a word on whose last byte is zero, every word is.
fn all_taper(ws: &[u64]) -> bool
    ensures { result ≡ all (eqb 0) (skip name_byte (octets ws.now)) }
{
    for (i, w) in ws.iter().enumerate() {
        if *w % BYTE == 0 {
            return tapers(filled(*w)) && all_zero(&ws[i + 1..]);
        }
        if !tapers(*w) {
            return false;
        }
    }
    true
}

// The word holds name bytes, and zeros after them. A word of name bytes only is told at once.
fn tapers(w: u64) -> bool
    ensures { result ≡ all (eqb 0) (skip name_byte (bytes_of w)) }
{
    is_whole(w) || bytes_taper(w)
}

// The same, byte by byte: the word is shifted up while a name byte is highest, and no index is counted.
fn bytes_taper(w: u64) -> bool
    ensures { result ≡ all (eqb 0) (skip name_byte (bytes_of w)) }
{
    let mut rest = w;
    while is_name_byte(rest / HIGHEST) {
        rest = rest % HIGHEST * BYTE;
    }
    rest == 0
}

// A letter, digit or underscore.
fn is_name_byte(b: u64) -> bool
    requires { b < 256 }
    ensures { result ≡ name_byte b }
{
    in_class(Class::Name, b as u8)
}
