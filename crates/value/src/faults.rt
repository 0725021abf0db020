// What may be wrong with a line, and the refusal that it is: document 01, "Refusal numbers", and document 02, K3.
ghost use Rattle.std.specs.Prelude.{◌≡◌};
ghost use Rattle.value.specs.Faults.{faulty, refusal_of};

use refusal::Refusal;

// What is wrong with a line.
#[derive(Clone, Copy)]
pub enum Fault {
    TooLong,
    BadByte,
    BadName,
    NoOperator,
    BadValue,
    OpenList,
    RestOfLine,
    OutsideClass,
}

// What is wrong with a line, and its place there, counted in bytes from 0.
#[derive(Clone, Copy)]
pub struct LineFault {
    pub fault: Fault,
    pub place: usize,
}

impl Fault {
    // The fault at a place of a line.
    pub fn at(self, place: usize) -> LineFault
        ensures { result ≡ faulty self place }
    {
        LineFault { fault: self, place }
    }
}

// The refusal that a fault is.
impl From<Fault> for Refusal {
    ghost from_gives = { λ fault r. r ≡ refusal_of fault };

    fn from(fault: Fault) -> Refusal {
        match fault {
            Fault::TooLong => Refusal::LineTooLong,
            Fault::BadByte => Refusal::BadByte,
            Fault::BadName => Refusal::BadName,
            Fault::NoOperator => Refusal::NoOperator,
            Fault::BadValue => Refusal::BadValue,
            Fault::OpenList => Refusal::OpenList,
            Fault::RestOfLine => Refusal::RestOfLine,
            Fault::OutsideClass => Refusal::Number,
        }
    }
}
