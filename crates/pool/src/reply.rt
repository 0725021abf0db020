// What the calls on a pool answer.
ghost use Rattle.std.specs.Prelude.{◌≡◌};
ghost use Rattle.pool.specs.Refusing.{plain};

use refusal::Refusal;

// Why a call that changes the pool is refused. The line and the column are those of a fault in a text, and 0 otherwise.
#[derive(Clone, Copy)]
pub struct Refused {
    pub refusal: Refusal,
    pub line: usize,
    pub column: usize,
}

impl From<Refusal> for Refused {
    ghost from_gives = { λ refusal r. r ≡ plain refusal };

    fn from(refusal: Refusal) -> Refused {
        Refused {
            refusal: refusal,
            line: 0,
            column: 0,
        }
    }
}

// The totals held.
#[derive(Clone, Copy)]
pub struct Counts {
    pub texts: usize,
    pub statements: usize,
    pub values: usize,
}
