// A statement up to its values: document 01, "Name", "Then, blanks optional, `=` (direct) or `+=` (append)".
ghost use Rattle.std.specs.Prelude.{◌≡◌};
ghost use Rattle.plain.specs.Runs.{past};
ghost use Rattle.value.specs.Classes.{name_byte};
ghost use Rattle.statement.specs.Head.{head, head_named, head_operated};

use value::classes;
use value::classes::Class;
use value::faults::{Fault, LineFault};

// The longest name.
pub const NAME: usize = 32;

#[derive(Clone, Copy)]
pub enum Operator {
    Direct,
    Append,
}

// A statement up to its values: where its name starts and ends, its operator, and where its values start.
#[derive(Clone, Copy)]
pub struct Named {
    pub start: usize,
    pub end: usize,
    pub operator: Operator,
    pub at: usize,
}

// The statement that a data line opens, up to its values; nothing, if the line is all blanks.
pub fn read_head(line: &[u8]) -> Result<Option<Named>, LineFault>
    ensures { result ≡ head line.now }
{
    let start = classes::past(Class::Blank, line, 0);
    if start < line.len() {
        return Ok(Some(read_name(line, start)?));
    }
    Ok(None)
}

// A name that starts at a place, and what follows it.
fn read_name(line: &[u8], start: usize) -> Result<Named, LineFault>
    ensures { result ≡ head_named line.now start (past name_byte line.now start) }
{
    let end = classes::past(Class::Name, line, start);
    let long = end - start;
    if long < 1 {
        return Err(Fault::BadName.at(start));
    }
    if NAME < long {
        return Err(Fault::BadName.at(start));
    }
    read_operator(line, start, end, classes::past(Class::Blank, line, end))
}

// The operator at a place, after the name from `start` to `end`.
fn read_operator(line: &[u8], start: usize, end: usize, at: usize) -> Result<Named, LineFault>
    ensures { result ≡ head_operated line.now start end at }
{
    if classes::stands(b'=', line, at) {
        return Ok(Named {
            start,
            end,
            operator: Operator::Direct,
            at: classes::past(Class::Blank, line, at + 1),
        });
    }
    if classes::stands(b'+', line, at) {
        if classes::stands(b'=', line, at + 1) {
            return Ok(Named {
                start,
                end,
                operator: Operator::Append,
                at: classes::past(Class::Blank, line, at + 2),
            });
        }
    }
    Err(Fault::NoOperator.at(at))
}
