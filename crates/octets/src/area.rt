// Bytes in an area of a memory: some words of it, from a place on.
ghost use Rattle.std.specs.Prelude.{◌≡◌, [], ◌∷◌, ◌+◌, ◌≤◌, length};
ghost use Rattle.words.specs.Over.{part};
ghost use Rattle.octets.specs.Octets.{octets, inked_in};
ghost use Rattle.octets.specs.Places.{LowersIn};

use crate::write::{set_byte, shift_bytes};

// One byte is written into the n words from place `area` on; past their end nothing is.
pub fn set_byte_in(m: &mut [u64], area: usize, n: usize, i: usize, b: u8)
    requires { area + n ≤ length m.old }
    ensures { m.new ≡ inked_in area n i (b ∷ []) m.old }
{
    let end = area + n;
    set_byte(&mut m[area..end], i, b);
}

// Among the bytes of the n words from place `area` on, some from place `from` on are moved down to place `to`.
pub fn shift_bytes_in(m: &mut [u64], area: usize, n: usize, to: usize, from: usize, count: usize)
    requires { LowersIn area n to from count m.old }
    ensures { m.new ≡ inked_in area n to (part from count (octets (part area n m.old))) m.old }
{
    let end = area + n;
    shift_bytes(&mut m[area..end], to, from, count);
}
