// A full line and a run after it, of which there is room for what may still tell a section's delimiter: blanks in front go, and then only the last
// byte that is no blank matters.
ghost use Rattle.std.specs.Prelude.{◌≡◌, false, ◌++◌, ◌+◌, ◌≤◌, ◌<◌, length, get_or};
ghost use Rattle.value.specs.Classes.{blank};
ghost use Rattle.feeding.specs.Kept.{ROOM, keep_all};
ghost use Rattle.feeding.specs.Slid.{Slides, slid};

use crate::kept::ROOM;
use value::classes;
use value::classes::Class;

// The line with the run squeezed in.
pub fn squeeze(full: [u8; 133], run: &[u8]) -> [u8; 133]
    ensures { result ≡ keep_all full run.now }
{
    let gone = blanks_gone(&full, run);
    let front = slide(&full, run, gone);
    put_last(front, &run[gone..])
}

// How many blanks in front of a full line go: one for each byte of the run, up to a byte that is no blank.
fn blanks_gone(full: &[u8], run: &[u8]) -> usize
    requires { length full.now ≡ ROOM }
    ensures { Slides full.now run.now result }
{
    for gone in 0..run.len() {
        if !classes::in_class(Class::Blank, byte_at(full, run, gone)) {
            return gone;
        }
    }
    run.len()
}

// The byte at a place of a full line and the run after it.
fn byte_at(full: &[u8], run: &[u8], i: usize) -> u8
    requires { i < length full.now + length run.now }
    ensures { result ≡ get_or (full.now ++ run.now) i 0 }
{
    if i < full.len() {
        return full[i];
    }
    run[i - full.len()]
}

// The bytes that are kept, after so many in front are gone.
fn slide(full: &[u8], run: &[u8], gone: usize) -> [u8; 133]
    requires { (length full.now ≡ ROOM) × (gone ≤ length run.now) }
    ensures { result ≡ slid full.now run.now gone }
{
    let mut moved = [0u8; 133];
    for (i, place) in moved.iter_mut().enumerate() {
        *place = byte_at(full, run, gone + i);
    }
    moved
}

// After a byte in front that is no blank, the last such byte of the run takes the last place.
fn put_last(full: [u8; 133], run: &[u8]) -> [u8; 133]
    requires { 0 < length run.now → blank (get_or full 0 0) ≡ false }
    ensures { result ≡ keep_all full run.now }
{
    for i in (0..run.len()).rev() {
        let b = run[i];
        if !classes::in_class(Class::Blank, b) {
            let mut last = full;
            last[ROOM - 1] = b;
            return last;
        }
    }
    full
}
