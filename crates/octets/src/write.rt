// Bytes of words, written.
ghost use Rattle.std.specs.Prelude.{◌≡◌, [], ◌∷◌, ◌≤◌};
ghost use Rattle.words.specs.Over.{part};
ghost use Rattle.octets.specs.Octets.{octets, inked};
ghost use Rattle.octets.specs.Places.{Lowers, MovesSome};

use crate::read::{byte_at, eight_at};
use crate::word::with_byte;

// One byte is written; past the end nothing is.
pub fn set_byte(ws: &mut [u64], i: usize, b: u8)
    ensures { ws.new ≡ inked i (b ∷ []) ws.old }
{
    let k = i / 8;
    if k < ws.len() {
        ws[k] = with_byte(ws[k], i % 8, b);
    }
}

// The n bytes from place `from` on are moved down to place `to`. A `while`, for a turn moves eight bytes or one.
pub fn shift_bytes(ws: &mut [u64], to: usize, from: usize, n: usize)
    requires { Lowers to from n ws.old }
    ensures { ws.new ≡ inked to (part from n (octets ws.old)) ws.old }
{
    let mut j = 0;
    while j < n {
        j += move_some(ws, to + j, from + j, n - j);
    }
}

// The first eight of n bytes are moved down where they fill a word, and else the first one; the answer is how many.
fn move_some(ws: &mut [u64], to: usize, from: usize, n: usize) -> usize
    requires { Lowers to from n ws.old × (1 ≤ n) }
    ensures { MovesSome to from n ws.old result ws.new }
{
    if to % 8 == 0 && 8 <= n {
        let w = eight_at(ws, from);
        ws[to / 8] = w;
        return 8;
    }
    let b = byte_at(ws, from);
    set_byte(ws, to, b);
    1
}
