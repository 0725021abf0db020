// How an open text stands, as numbers. Every number is read as something, so that none of these words can damage a pool.
ghost use Rattle.std.specs.Prelude.{◌≡◌};
ghost use Rattle.bookmark.specs.Numbers.{reader_number, reader_of, fault_number, fault_of, standing_words, standing_of};

use crate::limits::{COUNTS, PLACES};
use crate::mark::Standing;
use statement::values::{Kind, Reader};
use text::TextFault;
use value::faults::Fault;

const STORING: u64 = 0;

const OVERFLOWED: u64 = 1;

const FAULTED: u64 = 2;

// Each reader at its number.
const READERS: [Reader; 5] = [
    Reader::Text,
    Reader::Data,
    Reader::List(Kind::Empty),
    Reader::List(Kind::Numbers),
    Reader::List(Kind::Strings),
];

// Each fault at its number, in the order in which the type has them.
const FAULTS: [Fault; 8] = [
    Fault::TooLong,
    Fault::BadByte,
    Fault::BadName,
    Fault::NoOperator,
    Fault::BadValue,
    Fault::OpenList,
    Fault::RestOfLine,
    Fault::OutsideClass,
];

// Its way, reader, fault, and the fault's line and place.
#[tactic(auto, unfolding(crate::specs::Numbers::standing_words))]
pub fn standing_words(standing: Standing) -> [u64; 5]
    ensures { result ≡ standing_words standing }
{
    match standing {
        Standing::Storing(reader) => [STORING, reader_number(reader), 0, 0, 0],
        Standing::Overflowed(reader) => [OVERFLOWED, reader_number(reader), 0, 0, 0],
        Standing::Faulted(found) => [
            FAULTED,
            0,
            fault_number(found.fault),
            found.line as u64,
            found.place as u64,
        ],
    }
}

// What any five words say.
#[tactic(auto, unfolding(crate::specs::Numbers::standing_of))]
pub fn standing_of(way: u64, reader: u64, fault: u64, line: u64, place: u64) -> Standing
    ensures { result ≡ standing_of way reader fault line place }
{
    match way % 3 {
        STORING => Standing::Storing(reader_of(reader)),
        OVERFLOWED => Standing::Overflowed(reader_of(reader)),
        _ => Standing::Faulted(TextFault {
            fault: fault_of(fault),
            line: (line % COUNTS) as usize,
            place: (place % PLACES) as usize,
        }),
    }
}

// The reader as a number.
fn reader_number(reader: Reader) -> u64
    ensures { result ≡ reader_number reader }
{
    match reader {
        Reader::Text => 0,
        Reader::Data => 1,
        Reader::List(Kind::Empty) => 2,
        Reader::List(Kind::Numbers) => 3,
        Reader::List(Kind::Strings) => 4,
    }
}

// What any number says of the reader.
fn reader_of(n: u64) -> Reader
    ensures { result ≡ reader_of n }
{
    READERS[(n % 5) as usize]
}

// The fault as a number: its place in the type.
fn fault_number(fault: Fault) -> u64
    ensures { result ≡ fault_number fault }
{
    fault as u64
}

// What any number says of the fault.
fn fault_of(n: u64) -> Fault
    ensures { result ≡ fault_of n }
{
    FAULTS[(n % 8) as usize]
}
