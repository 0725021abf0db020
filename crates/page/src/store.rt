// One value stored behind what is held: a number's bits, or a string's length and its bytes.
ghost use Rattle.std.specs.Prelude.{◌≡◌, not, ◌≤◌, drop, T};
ghost use Rattle.std.specs.Float.Ieee.{is_nan};
ghost use Rattle.value.specs.Strings.{undoubled};
ghost use Rattle.value.specs.Value.{number, string};
ghost use Rattle.words.specs.Halves.{HALF};
ghost use Rattle.octets.specs.Octets.{inked_in};
ghost use Rattle.layout.specs.Limits.{BYTES_AT, BYTEWORDS};
ghost use Rattle.page.specs.Writing.{page, stored_on};
ghost use Rattle.page.specs.Pens.{Stretches, Quoted};

use crate::pen::Pen;
use layout::limits::{BYTES_AT, BYTEWORDS, WORDS};
use octets::area::set_byte_in;
use words::write::store;

// A number that is read is no NaN, so that its bits are its own.
pub fn store_number(m: &mut [u64], pen: Pen, x: f64) -> Pen
    requires { (Stretches pen) × (T (not (is_nan x))) }
    ensures { page m.new result ≡ stored_on (number x) (page m.old pen) }
{
    store(m, pen.values, f64::to_bits(x));
    Pen {
        values: pen.values + 1,
        ..pen
    }
}

// The string whose opening quote is at `from`, of n bytes.
pub fn store_string(m: &mut [u64; WORDS], pen: Pen, line: &[u8], from: usize, n: usize) -> Pen
    requires { (Stretches pen) × (Quoted line.now from n) }
    ensures { page m.new result ≡ stored_on (string (undoubled (drop from line.now))) (page m.old pen) }
{
    write_string(m, pen.bytes, line, from, n);
    store(m, pen.values, n as u64);
    Pen {
        values: pen.values + 1,
        bytes: pen.bytes + n,
        ..pen
    }
}

// Its bytes, two quotes being one, are written from byte `at` on. The place in the line goes on by a byte, and at a quote by two, so that no
// iterator over the line has it.
fn write_string(m: &mut [u64; WORDS], at: usize, line: &[u8], from: usize, n: usize)
    requires { (at ≤ HALF) × (Quoted line.now from n) }
    ensures { m.new ≡ inked_in BYTES_AT BYTEWORDS at (undoubled (drop from line.now)) m.old }
{
    let mut k = from + 1;
    for j in 0..n {
        let b = line[k];
        set_byte_in(m, BYTES_AT, BYTEWORDS, at + j, b);
        k += 1;
        if b == b'\'' {
            k += 1;
        }
    }
}
