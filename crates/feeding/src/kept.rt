// The line that goes on, at the start of an array: document 02, K5, a "kept line" of at most 133 bytes.
ghost use Rattle.std.specs.Prelude.{◌≡◌, ◌++◌, ◌+◌, ◌≤◌, length, take};
ghost use Rattle.feeding.specs.Kept.{ROOM};

use crate::full::squeeze;

// The most bytes that are kept of a line.
pub const ROOM: usize = 133;

// An array and how much of it is in use, and no list that grows: fixed memory is a rule of the project.
#[derive(Clone, Copy)]
pub struct Kept {
    pub bytes: [u8; 133],
    pub used: usize,
    pub ghost within: { used ≤ ROOM },
}

impl Kept {
    ghost use Rattle.feeding.specs.Stored.{line, Keeps, Settles};

    // What is kept so far.
    pub fn line(&self) -> &[u8]
        ensures { result.now ≡ line self.now }
    {
        &self.bytes[..self.used]
    }

    // Some bytes more of the line.
    pub fn keep_run(self, run: &[u8]) -> Kept
        ensures { Keeps self run.now result }
    {
        let free = ROOM - self.used;
        if run.len() <= free {
            return Kept {
                bytes: store(self.bytes, self.used, run),
                used: self.used + run.len(),
            };
        }
        let full = store(self.bytes, self.used, &run[..free]);
        Kept {
            bytes: squeeze(full, &run[free..]),
            used: ROOM,
        }
    }

    // A CR that came is the line's.
    pub fn settle(self, pending: bool) -> Kept
        ensures { Settles self pending result }
    {
        if pending {
            return self.keep_run(b"\r");
        }
        self
    }
}

// The run written behind the bytes in use.
fn store(bytes: [u8; 133], used: usize, run: &[u8]) -> [u8; 133]
    requires { used + length run.now ≤ ROOM }
    ensures { take (used + length run.now) result ≡ take used bytes ++ run.now }
{
    let mut stored = bytes;
    stored[used..used + run.len()].copy_from_slice(run);
    stored
}
