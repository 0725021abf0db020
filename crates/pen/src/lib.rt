// Bytes, numbers and lines, written at a place of a lent buffer. Each function answers the place after what it wrote.
// No struct holds the buffer and the place: its two states would name in each contract the same four values that `Writes` names here.
#![tactic(auto)]

pub mod digits;
pub mod quoted;

ghost use Rattle.std.specs.Prelude.{[], ◌∷◌, ◌++◌};
ghost use Rattle.plain.specs.Bytes.{LF};
ghost use Rattle.words.specs.Placed.{Room, Writes};
ghost use Rattle.pen.specs.Figures.{decimal, bits};
ghost use Rattle.pen.specs.Pen.{phrase, entry};

use words::bytes::append;

// A word and a number on a line.
pub fn write_entry(out: &mut [u8], at: usize, word: &[u8], n: u64) -> usize
    requires { Room at (entry word.now n) out.old }
    ensures { Writes at (entry word.now n) out.old result out.new }
{
    let end = write_phrase(out, at, word, n);
    write_byte(out, end, b'\n')
}

// A word's sixteen digits on a line.
pub fn write_line(out: &mut [u8], at: usize, w: u64) -> usize
    requires { Room at (bits w ++ (LF ∷ [])) out.old }
    ensures { Writes at (bits w ++ (LF ∷ [])) out.old result out.new }
{
    let end = write_bits(out, at, w);
    write_byte(out, end, b'\n')
}

// A word, a space and a number.
pub fn write_phrase(out: &mut [u8], at: usize, word: &[u8], n: u64) -> usize
    requires { Room at (phrase word.now n) out.old }
    ensures { Writes at (phrase word.now n) out.old result out.new }
{
    let spaced = append(word, out, at);
    let number = write_byte(out, spaced, b' ');
    write_decimal(out, number, n)
}

// One byte.
pub fn write_byte(out: &mut [u8], at: usize, byte: u8) -> usize
    requires { Room at (byte ∷ []) out.old }
    ensures { Writes at (byte ∷ []) out.old result out.new }
{
    out[at] = byte;
    at + 1
}

// A number in decimal: the figures before the last, then the last.
fn write_decimal(out: &mut [u8], at: usize, n: u64) -> usize
    requires { Room at (decimal n) out.old }
    ensures { Writes at (decimal n) out.old result out.new }
{
    if n < 10 {
        return write_byte(out, at, b'0' + n as u8);
    }
    let last = write_decimal(out, at, n / 10);
    write_byte(out, last, b'0' + (n % 10) as u8)
}

// A word's sixteen digits.
fn write_bits(out: &mut [u8], at: usize, w: u64) -> usize
    requires { Room at (bits w) out.old }
    ensures { Writes at (bits w) out.old result out.new }
{
    let mut figures = [0u8; 16];
    digits::spell(w, &mut figures);
    append(&figures, out, at)
}
