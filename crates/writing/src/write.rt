// The second pass of a load: a text that was admitted is read again by the same scanner, and written behind what is held.
ghost use Rattle.std.specs.Prelude.{◌≡◌};
ghost use Rattle.statement.specs.Head.{head};
ghost use Rattle.text.specs.Line.{stated, plain, answered};
ghost use Rattle.text.specs.Text.{read_text, added};
ghost use Rattle.page.specs.Writing.{page, written_on};
ghost use Rattle.writing.specs.Pens.{Admits, Roomy, Writes};

use crate::give::{Turn, give_list, give_values};
use layout::limits::WORDS;
use page::pen::{Pen, open_statement};
use statement::head::read_head;
use statement::values::Reader;
use text::delimiters::{Mark, read_mark};
use text::lines::cut_line;

// All lines of an admitted text. A `while`, for its place goes on by a line.
pub fn write_text(m: &mut [u64; WORDS], pen: Pen, text: &[u8]) -> Pen
    requires { Admits text.now pen }
    ensures { page m.new result ≡ written_on (added (read_text text.now)) (page m.old pen) }
{
    let mut at = 0;
    let mut last = pen;
    let mut reader = Reader::Text;
    while at < text.len() {
        let cut = cut_line(text, at);
        let turn = write_line(m, last, reader, &text[at..cut.end]);
        last = turn.pen;
        reader = turn.reader;
        at = cut.next;
    }
    last
}

// A line of an admitted text, or of an open one whose outcome is known.
pub fn write_line(m: &mut [u64; WORDS], pen: Pen, reader: Reader, line: &[u8]) -> Turn
    requires { Roomy pen line.now }
    ensures { Writes (answered reader line.now) (page m.old pen) m.new result }
{
    let mark = read_mark(line);
    match mark {
        Mark::Data => Turn {
            pen,
            reader: Reader::Data,
        },
        Mark::Text => Turn {
            pen,
            reader: Reader::Text,
        },
        Mark::Plain => write_plain(m, pen, reader, line),
    }
}

// A line that is no delimiter.
fn write_plain(m: &mut [u64; WORDS], pen: Pen, reader: Reader, line: &[u8]) -> Turn
    requires { Roomy pen line.now }
    ensures { Writes (plain reader line.now) (page m.old pen) m.new result }
{
    match reader {
        Reader::Text => Turn {
            pen,
            reader: Reader::Text,
        },
        Reader::Data => write_statement(m, pen, line),
        Reader::List(kind) => give_list(m, pen, kind, line, 0),
    }
}

// A data line outside a list: a statement, or blanks.
fn write_statement(m: &mut [u64; WORDS], pen: Pen, line: &[u8]) -> Turn
    requires { Roomy pen line.now }
    ensures { Writes (stated line.now (head line.now)) (page m.old pen) m.new result }
{
    match read_head(line) {
        Ok(Some(head)) => {
            let opened = open_statement(m, pen, &line[head.start..head.end], head.operator);
            give_values(m, opened, line, head.at)
        }
        Ok(None) => Turn {
            pen,
            reader: Reader::Data,
        },
        Err(_) => Turn {
            pen,
            reader: Reader::Data,
        },
    }
}
