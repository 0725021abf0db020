// The refusals of document 01, "Refusal numbers", and those that document 02 adds.
#![tactic(auto)]

ghost use Rattle.std.specs.Prelude.{◌≡◌};
ghost use Rattle.refusal.specs.Numbers.{number_of};

// Why a call refuses, by the number that the table gives it. 5 is not given any more.
#[derive(Clone, Copy)]
pub enum Refusal {
    LabelHeld = 1,
    TextTooLong = 2,
    LineTooLong = 3,
    BadByte = 4,
    Number = 6,
    NoRoom = 7,
    NotHeld = 8,
    Epoch = 9,
    UnknownBody = 10,
    Incomplete = 11,
    WrongCount = 12,
    NoVariable = 13,
    ShortBuffer = 14,
    DamagedPool = 15,
    MixedKind = 16,
    BadName = 17,
    NoOperator = 18,
    BadValue = 19,
    OpenList = 20,
    RestOfLine = 21,
    TextOpen = 22,
    BadDegree = 23,
    BadRadius = 24,
    BadRing = 25,
    BadPosition = 26,
}

// The number that the table gives a refusal.
pub fn number(refusal: Refusal) -> u32
    ensures { result ≡ number_of refusal }
{
    refusal as u32
}
