// How much of an open text is stored.
ghost use Rattle.std.specs.Prelude.{◌≡◌};
ghost use Rattle.text.specs.Text.{in_line};
ghost use Rattle.layout.specs.Damage.{Framed};
ghost use Rattle.bookmark.specs.declared.mark.Standing.TheVariants as S;
ghost use Rattle.entering.specs.Counts.{places, emptied, grown, room_for, read_on, Few, Countable};

use bookmark::mark::{Entered, Standing};
use layout::limits::{BYTE_COUNT, BYTES, STATEMENT_COUNT, STATEMENTS, VALUE_COUNT, VALUES};
use statement::values::{Kind, Reader};
use text::TextFault;
use text::line::Step;
use value::faults::LineFault;

// Nothing of the text is stored.
pub fn emptied(standing: Standing) -> Entered
    ensures { result ≡ emptied standing }
{
    Entered {
        standing,
        statements: 0,
        values: 0,
        bytes: 0,
    }
}

// A line's fault ends what is stored of the text.
pub fn stopped(number: usize, found: LineFault) -> Entered
    ensures { result ≡ emptied (S.Faulted (in_line number found)) }
{
    emptied(Standing::Faulted(TextFault {
        fault: found.fault,
        line: number,
        place: found.place,
    }))
}

// A text of which there is no room is read on, because a faulty line is told before 7.
pub fn read_on(entered: Entered, number: usize, answer: Result<Step, LineFault>) -> Entered
    ensures { result ≡ read_on entered number answer }
{
    match answer {
        Ok(step) => Entered {
            standing: Standing::Overflowed(step.reader),
            ..entered
        },
        Err(found) => stopped(number, found),
    }
}

// The first values of a list take the place that is held for them; a list without a value holds one.
pub fn grown(entered: Entered, before: Reader, step: Step) -> Entered
    requires { Countable entered before step.opened step.given step.bytes }
    ensures { result ≡ grown entered before step.reader step.opened step.given step.bytes }
{
    Entered {
        standing: Standing::Storing(step.reader),
        statements: entered.statements + step.opened,
        values: entered.values - places(before) + step.given + places(step.reader),
        bytes: entered.bytes + step.bytes,
    }
}

// The places held in a list that has no value yet.
pub fn places(reader: Reader) -> usize
    ensures { result ≡ places reader }
{
    match reader {
        Reader::List(Kind::Empty) => 1,
        _ => 0,
    }
}

// The pool has room for so much beside what it holds. No twin of `has_room` in `loading`, which asks for a text more.
pub fn has_room(pool: &[u64], sums: Entered) -> bool
    requires { (Framed pool.now) × (Few sums) }
    ensures { result ≡ room_for pool.now sums }
{
    pool[STATEMENT_COUNT] + (sums.statements as u64) <= STATEMENTS
        && pool[VALUE_COUNT] + (sums.values as u64) <= VALUES
        && pool[BYTE_COUNT] + (sums.bytes as u64) <= BYTES
}
