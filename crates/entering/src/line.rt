// A line of an open text is complete: document 02, K5, "any fault is told at closing only". It is read at once; where it has no fault and fits, what
// it adds is stored behind what the pool holds.
ghost use Rattle.std.specs.Prelude.{◌≡◌, ℕ};
ghost use Rattle.bookmark.specs.declared.mark.Standing.TheVariants as S;
ghost use Rattle.entering.specs.Entries.{entry, complete_on};
ghost use Rattle.entering.specs.Lines.{Ready, Completes, Looks, Steps};

use crate::counts::{emptied, grown, has_room, read_on, stopped};
use crate::write::write_added;
use bookmark::mark::{Entered, Standing};
use statement::values::Reader;
use text::line::{Step, line_step};

// What a line makes of an open text: nothing is written for it, or what it adds is to be, of so many values, to a list that stands so.
#[derive(Clone, Copy)]
pub enum Seen {
    Unwritten(Entered),
    Written(Entered, Reader, usize),
}

// Line `number`. A text that is faulty stays so.
pub fn complete_line(pool: &mut [u64], entered: Entered, number: usize, line: &[u8]) -> Entered
    requires { Ready pool.old entered }
    ensures { Completes pool.old entered number line.now pool.new result }
{
    match look(pool, entered, number, line) {
        Seen::Unwritten(after) => after,
        Seen::Written(after, reader, given) => {
            write_added(pool, entered, reader, line, given);
            after
        }
    }
}

// How the text would stand after the line, of which nothing is written.
pub fn foresee(pool: &[u64], entered: Entered, number: usize, line: &[u8]) -> Entered
    requires { Ready pool.now entered }
    ensures { result ≡ (complete_on (entry pool.now entered) number line.now).entered }
{
    match look(pool, entered, number, line) {
        Seen::Unwritten(after) => after,
        Seen::Written(after, _, _) => after,
    }
}

// The line is read.
fn look(pool: &[u64], entered: Entered, number: usize, line: &[u8]) -> Seen
    requires { Ready pool.now entered }
    ensures { Looks pool.now entered number line.now result }
{
    match entered.standing {
        Standing::Storing(reader) => look_on(pool, entered, reader, number, line),
        Standing::Overflowed(reader) => {
            Seen::Unwritten(read_on(entered, number, line_step(reader, line)))
        }
        Standing::Faulted(_) => Seen::Unwritten(entered),
    }
}

// A line of a text that is stored so far.
fn look_on(pool: &[u64], entered: Entered, reader: Reader, number: usize, line: &[u8]) -> Seen
    requires { (Ready pool.now entered) × (entered.standing ≡ S.Storing reader) }
    ensures { Looks pool.now entered number line.now result }
{
    match line_step(reader, line) {
        Ok(step) => sum_up(pool, entered, reader, line, step),
        Err(found) => Seen::Unwritten(stopped(number, found)),
    }
}

// A line without a fault: what it adds is stored, or, where the pool has no room for it, nothing of the text is any more.
fn sum_up(pool: &[u64], entered: Entered, reader: Reader, line: &[u8], step: Step) -> Seen
    requires { (Ready pool.now entered) × (entered.standing ≡ S.Storing reader)
        × (Steps reader line.now step.reader step.opened step.given step.bytes) }
    ensures { (number : ℕ) → Looks pool.now entered number line.now result }
{
    let sums = grown(entered, reader, step);
    if !has_room(pool, sums) {
        return Seen::Unwritten(emptied(Standing::Overflowed(step.reader)));
    }
    if step.opened == 0 && step.given == 0 {
        return Seen::Unwritten(sums);
    }
    Seen::Written(sums, reader, step.given)
}
