// Bytes written over others.
ghost use Rattle.words.specs.Placed.{Room, Writes};

use crate::write::put;

// The bytes are written from a place on; the answer is the place after them.
pub fn append(bytes: &[u8], out: &mut [u8], at: usize) -> usize
    requires { Room at bytes.now out.old }
    ensures { Writes at bytes.now out.old result out.new }
{
    put(out, at, bytes);
    at + bytes.len()
}
