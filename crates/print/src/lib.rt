// How the programs print what they tell in digits: words, doubles by their bits, and bytes.
#![tactic(auto)]

ghost use Rattle.std.specs.Prelude.{◌≡◌, Some};
ghost use Rattle.pen.specs.Digits.{digits};
ghost use Rattle.print.specs.Printed.{bits_or_nan};

use pen::digits::spell;
use std::{fmt, io, str};

// A word in 16 hexadecimal digits of upper case.
#[derive(Clone, Copy)]
pub struct Word(pub u64);

impl fmt::Display for Word {
    ghost output = { λ w. Some (digits 16 w.0) };

    fn fmt<W: fmt::Write>(&self, f: &mut fmt::Formatter<W>) -> fmt::Result {
        let mut room = [0u8; 16];
        f.write_str(spelled(self.0, &mut room))
    }
}

// The digits of a word, as the text that they are.
fn spelled(w: u64, room: &mut [u8; 16]) -> &str
    ensures { result.now ≡ digits 16 w }
{
    spell(w, room);
    str::from_utf8(room).unwrap()
}

// A double by its bits, as a word; of a NaN no bits are told.
#[derive(Clone, Copy)]
pub struct Bits(pub f64);

impl fmt::Display for Bits {
    ghost output = { λ b. Some (bits_or_nan b.0) };

    fn fmt<W: fmt::Write>(&self, f: &mut fmt::Formatter<W>) -> fmt::Result {
        let x = self.0;
        if x.is_nan() {
            return f.write_str("NAN");
        }
        f.write(Word(x.to_bits()))
    }
}

// Bytes in two hexadecimal digits of upper case each.
#[derive(Clone, Copy)]
pub struct Hex<'a>(pub &'a [u8]);

impl<'a> fmt::Display for Hex<'a> {
    fn fmt<W: fmt::Write>(&self, f: &mut fmt::Formatter<W>) -> fmt::Result {
        for byte in self.0 {
            write!(f, "{byte:02X}")?;
        }
        Ok(())
    }
}
