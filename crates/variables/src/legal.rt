// A legal name, lent.
ghost use Rattle.std.specs.Prelude.{◌≡◌, true, false, MatchOption};
ghost use Rattle.names.specs.Names.{legal};

use crate::name::is_legal;

// Whoever holds one has bytes that a statement's name may be.
#[derive(Clone, Copy)]
pub struct Legal<'a> {
    pub bytes: &'a [u8],
    pub ghost ruled: { legal bytes.now ≡ true },
}

impl<'a> Legal<'a> {
    // The bytes, if they are a legal name. (No twin of `Undamaged::of`, which has another test and another fact.)
    pub fn of(bytes: &'a [u8]) -> Option<Legal<'a>>
        ensures { MatchOption result (legal bytes.now ≡ false) (λ name. name.bytes.now ≡ bytes.now) }
    {
        if is_legal(bytes) {
            Some(Legal { bytes })
        } else {
            None
        }
    }
}
