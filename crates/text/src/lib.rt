// A text read line by line, up to its first faulty line: document 01, "Text rules".
#![tactic(auto)]

pub mod delimiters;
pub mod lengths;
pub mod line;
pub mod lines;

ghost use Rattle.std.specs.Prelude.{◌≡◌, Err};
ghost use Rattle.value.specs.declared.faults.LineFault.{LineFault};
ghost use Rattle.text.specs.Text.{read_text, tallied, in_line};

use crate::line::Step;
use statement::values::Reader;
use value::faults::{Fault, LineFault};

// How many statements and values a text has, and how many bytes in strings.
#[derive(Clone, Copy)]
pub struct Counts {
    pub statements: usize,
    pub values: usize,
    pub bytes: usize,
}

// A text's first fault, its line, counted from 1, and its place there, counted from 0.
#[derive(Clone, Copy)]
pub struct TextFault {
    pub fault: Fault,
    pub line: usize,
    pub place: usize,
}

// The text admitted with its counts, or refused at its first faulty line. `let .. else` takes a line's answer apart: a form that document
// 01 names. The loop is a `while`, for its place goes on by a line.
pub fn check(text: &[u8]) -> Result<Counts, TextFault>
    ensures { result ≡ tallied (read_text text.now) }
{
    let mut reader = Reader::Text;
    let mut at = 0;
    let mut number = 0;
    let mut long = 0;
    let mut statements = 0;
    let mut values = 0;
    let mut bytes = 0;
    while at < text.len() {
        let cut = lines::cut_line(text, at);
        let end = cut.end;
        let answer = line::line_step(reader, &text[at..end]);
        let Ok(step) = answer else {
            return refused(answer, number + 1);
        };
        reader = step.reader;
        long = end - at;
        at = cut.next;
        number += 1;
        statements += step.opened;
        values += step.given;
        bytes += step.bytes;
    }
    if let Reader::List(_) = reader {
        return Err(TextFault {
            fault: Fault::OpenList,
            line: number,
            place: long,
        });
    }
    Ok(Counts {
        statements,
        values,
        bytes,
    })
}

// The refusal of a line's fault, with the line's number. (An answer without fault is never asked about.)
fn refused(answer: Result<Step, LineFault>, number: usize) -> Result<Counts, TextFault>
    ensures { (f : LineFault) → answer ≡ Err f → result ≡ Err (in_line number f) }
{
    match answer {
        Ok(step) => Ok(Counts {
            statements: step.opened,
            values: step.given,
            bytes: step.bytes,
        }),
        Err(found) => Err(TextFault {
            fault: found.fault,
            line: number,
            place: found.place,
        }),
    }
}
