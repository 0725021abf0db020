// "Data lines hold bytes 32 to 126 and tabs only": words whose bytes may stand there.
ghost use Rattle.std.specs.Prelude.{◌≡◌, true, ◌*◌, ◌<◌, length, take};
ghost use Rattle.plain.specs.Bytes.{fair};
ghost use Rattle.words.specs.Over.{part};
ghost use Rattle.words.specs.Halves.{all};
ghost use Rattle.octets.specs.Octets.{bytes_of, octets};
ghost use Rattle.octets.specs.Places.{Has};

use crate::read::byte_at;

// Eight bytes in one word: the highest bit of each, 1 in each, and what makes 128 of 32 in each.
const TOPS: u64 = 0x8080808080808080;

const ONES: u64 = 0x0101010101010101;

const LIFTS: u64 = 0x6060606060606060;

// The first n bytes may all stand on a data line.
pub fn all_fair(ws: &[u64], n: usize) -> bool
    requires { Has 0 n ws.now }
    ensures { result ≡ all fair (take n (octets ws.now)) }
{
    let whole = n / 8;
    for k in 0..whole {
        if !word_fair(ws, k) {
            return false;
        }
    }
    bytes_fair(ws, 8 * whole, n - 8 * whole)
}

// The bytes of the word at place k may.
fn word_fair(ws: &[u64], k: usize) -> bool
    requires { k < length ws.now }
    ensures { result ≡ all fair (part (8 * k) 8 (octets ws.now)) }
{
    is_plain(ws[k]) || bytes_fair(ws, 8 * k, 8)
}

// Where this holds, every byte of the word is 32 to 126.
fn is_plain(w: u64) -> bool
    ensures { result ≡ true → all fair (bytes_of w) ≡ true }
{
    w & TOPS == 0 && (w + ONES) & TOPS == 0 && (w + LIFTS) & TOPS == TOPS
}

// The n bytes from place `from` on may.
fn bytes_fair(ws: &[u64], from: usize, n: usize) -> bool
    requires { Has from n ws.now }
    ensures { result ≡ all fair (part from n (octets ws.now)) }
{
    for i in 0..n {
        if !is_fair(byte_at(ws, from + i)) {
            return false;
        }
    }
    true
}

// The byte is 32 to 126, or a tab.
fn is_fair(b: u8) -> bool
    ensures { result ≡ fair b }
{
    (32..=126).contains(&b) || b == b'\t'
}
