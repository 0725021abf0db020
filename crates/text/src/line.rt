// The answer to one line: document 01, "in it 3, then 4, then whichever of 5 and 6 starts at the earlier byte", 17 to 21 standing where 5
// stood (document 02, K3).
ghost use Rattle.std.specs.Prelude.{◌≡◌, []};
ghost use Rattle.statement.specs.Values.{listed};
ghost use Rattle.text.specs.Line.{answered, counted, marked, section, plain, fairly, adding, leaving, stepped};

use crate::delimiters::Mark;
use crate::lengths::LONGEST_LINE;
use crate::{delimiters, lengths};
use statement::values::{Kind, Reader, Values};
use statement::{head, values};
use value::classes;
use value::classes::Class;
use value::faults::{Fault, LineFault};

// The reader after a line, how many statements the line opens, how many values it gives and how many bytes their strings have.
#[derive(Clone, Copy)]
pub struct Step {
    pub reader: Reader,
    pub opened: usize,
    pub given: usize,
    pub bytes: usize,
}

// What a line does to the reader, or its first fault.
pub fn line_step(reader: Reader, line: &[u8]) -> Result<Step, LineFault>
    ensures { result ≡ counted (answered reader line.now) }
{
    let mark = delimiters::read_mark(line);
    if lengths::is_too_long(mark, reader, line.len()) {
        return Err(Fault::TooLong.at(LONGEST_LINE));
    }
    marked(mark, reader, line)
}

// A line that is not too long, by the section that it opens, if any.
fn marked(mark: Mark, reader: Reader, line: &[u8]) -> Result<Step, LineFault>
    ensures { result ≡ counted (marked mark reader line.now) }
{
    match mark {
        Mark::Data => open_section(reader, Reader::Data),
        Mark::Text => open_section(reader, Reader::Text),
        Mark::Plain => plain(reader, line),
    }
}

// A delimiter line.
fn open_section(reader: Reader, opened: Reader) -> Result<Step, LineFault>
    ensures { result ≡ counted (section reader opened) }
{
    match reader {
        Reader::Text => Ok(leaving(opened)),
        Reader::Data => Ok(leaving(opened)),
        Reader::List(_) => Err(Fault::OpenList.at(0)),
    }
}

// A line that is no delimiter.
fn plain(reader: Reader, line: &[u8]) -> Result<Step, LineFault>
    ensures { result ≡ counted (plain reader line.now) }
{
    match reader {
        Reader::Text => Ok(leaving(Reader::Text)),
        Reader::Data => statement(line),
        Reader::List(kind) => list_on(kind, line),
    }
}

// A line of a data section outside a list: a statement, or blanks.
fn statement(line: &[u8]) -> Result<Step, LineFault>
    ensures { result ≡ counted (plain Reader.Data line.now) }
{
    let k = classes::past(Class::Fair, line, 0);
    if k < line.len() {
        return Err(Fault::BadByte.at(k));
    }
    let Some(head) = head::read_head(line)? else {
        return Ok(leaving(Reader::Data));
    };
    Ok(stepped(1, values::value(line, head.at)?))
}

// A line of a data section inside a list.
fn list_on(kind: Kind, line: &[u8]) -> Result<Step, LineFault>
    ensures { result ≡ counted (fairly line.now (adding [] (listed kind line.now 0))) }
{
    let k = classes::past(Class::Fair, line, 0);
    if k < line.len() {
        return Err(Fault::BadByte.at(k));
    }
    Ok(stepped(0, values::list(kind, line, 0)?))
}

// A line that adds nothing, with the reader after it.
fn leaving(reader: Reader) -> Step
    ensures { result ≡ leaving reader }
{
    Step {
        reader,
        opened: 0,
        given: 0,
        bytes: 0,
    }
}

// A line that opens so many statements and then takes values.
fn stepped(opened: usize, taken: Values) -> Step
    ensures { result ≡ stepped opened taken }
{
    Step {
        reader: taken.reader,
        opened,
        given: taken.given,
        bytes: taken.bytes,
    }
}
