// Delimiter lines: document 01, "a line that, without outer blanks, is exactly `\begindata` or `\begintext`".
ghost use Rattle.std.specs.Prelude.{◌≡◌};
ghost use Rattle.text.specs.Delimiters.{word, mark_of};

use value::classes;
use value::classes::Class;

// What a line is: one that opens a section, or any other.
#[derive(Clone, Copy)]
pub enum Mark {
    Data,
    Text,
    Plain,
}

// The section that the line opens, if any.
pub fn read_mark(line: &[u8]) -> Mark
    ensures { result ≡ mark_of line.now }
{
    let at = classes::past(Class::Blank, line, 0);
    let rest = &line[at..];
    if is_word(b"\\begindata", rest) {
        return Mark::Data;
    }
    if is_word(b"\\begintext", rest) {
        return Mark::Text;
    }
    Mark::Plain
}

// The bytes are the word, and then blanks only.
fn is_word(expected: &[u8], bytes: &[u8]) -> bool
    ensures { result ≡ word expected.now bytes.now }
{
    match bytes.strip_prefix(expected) {
        Some(after) => after.len() <= classes::past(Class::Blank, after, 0),
        None => false,
    }
}
