// A string in quotes, from bytes that are packed into words.
ghost use Rattle.std.specs.Prelude.{[], ◌∷◌, ◌++◌};
ghost use Rattle.plain.specs.Bytes.{LF};
ghost use Rattle.value.specs.Strings.{doubled, quoted};
ghost use Rattle.words.specs.Over.{part};
ghost use Rattle.words.specs.Placed.{Room, Writes};
ghost use Rattle.octets.specs.Octets.{octets};
ghost use Rattle.pen.specs.Quoted.{Quoting, Doubling};

use crate::write_byte;
use octets::read::byte_at;

const QUOTE: u8 = b'\'';

// The n bytes from place `from` on, in quotes on a line.
pub fn write_quoted(out: &mut [u8], at: usize, words: &[u64], from: usize, n: usize) -> usize
    requires { Quoting at words.now from n out.old }
    ensures { Writes at (quoted (part from n (octets words.now)) ++ (LF ∷ [])) out.old result out.new }
{
    let inside = write_byte(out, at, QUOTE);
    let close = write_doubled(out, inside, words, from, n);
    let end = write_byte(out, close, QUOTE);
    write_byte(out, end, b'\n')
}

// They alone, each quote twice.
fn write_doubled(out: &mut [u8], at: usize, words: &[u64], from: usize, n: usize) -> usize
    requires { Doubling at words.now from n out.old }
    ensures { Writes at (doubled (part from n (octets words.now))) out.old result out.new }
{
    let mut end = at;
    for i in 0..n {
        end = write_inside(out, end, byte_at(words, from + i));
    }
    end
}

// One byte inside quotes: a quote is written twice.
fn write_inside(out: &mut [u8], at: usize, byte: u8) -> usize
    requires { Room at (doubled (byte ∷ [])) out.old }
    ensures { Writes at (doubled (byte ∷ [])) out.old result out.new }
{
    if byte != QUOTE {
        return write_byte(out, at, byte);
    }
    let second = write_byte(out, at, QUOTE);
    write_byte(out, second, QUOTE)
}
