// Where a text is written, behind what is held: a statement is opened, and values are told to its head.
ghost use Rattle.std.specs.Prelude.{◌≡◌, ◌+◌, ◌≤◌};
ghost use Rattle.words.specs.Over.{over};
ghost use Rattle.words.specs.Halves.{upper};
ghost use Rattle.names.specs.Names.{packed};
ghost use Rattle.layout.specs.Limits.{WORDS, STATEMENTS, VALUES, LONGEST_LOAD};
ghost use Rattle.page.specs.Writing.{pen_behind, bare_head, page, opened_on, counting, told_on};
ghost use Rattle.page.specs.Pens.{Opens, Tells, is_strings};

use layout::limits::{HEADS_AT, NAMES_AT, VALUES_AT};
use names::pack::{NAMEWORDS, pack};
use statement::head::Operator;
use statement::values::Kind;
use words::half::{HALF, upper};
use words::write::store;

// The next free place of each area, the next free byte of the strings, and the head of the statement opened last.
#[derive(Clone, Copy)]
pub struct Pen {
    pub heads: usize,
    pub names: usize,
    pub values: usize,
    pub bytes: usize,
    pub head: u64,
}

// The pen behind so many statements, values and bytes.
pub fn pen_behind(statements: usize, values: usize, bytes: usize) -> Pen
    requires { (statements ≤ STATEMENTS) × (values ≤ VALUES) }
    ensures { result ≡ pen_behind statements values bytes }
{
    Pen {
        heads: HEADS_AT + statements,
        names: NAMES_AT + NAMEWORDS * statements,
        values: VALUES_AT + values,
        bytes,
        head: 0,
    }
}

// A statement is opened: its name, and a head that counts no values yet.
pub fn open_statement(m: &mut [u64], pen: Pen, name: &[u8], operator: Operator) -> Pen
    requires { Opens pen }
    ensures { page m.new result ≡ opened_on name.now operator (page m.old pen) }
{
    let head = bare_head(operator);
    write_name(m, pen.names, name);
    store(m, pen.heads, head);
    Pen {
        heads: pen.heads + 1,
        names: pen.names + NAMEWORDS,
        head,
        ..pen
    }
}

// So many values more, of such a kind, are told to the head of the statement opened last.
pub fn tell(m: &mut [u64], pen: Pen, kind: Kind, count: usize) -> Pen
    requires { Tells pen count }
    ensures { page m.new result ≡ told_on (is_strings kind) count (page m.old pen) }
{
    if count == 0 {
        return pen;
    }
    let head = count_on(pen.head, kind, count);
    store(m, pen.heads - 1, head);
    Pen { head, ..pen }
}

// The head that counts so many values more; the first strings add 2 to its upper number.
fn count_on(head: u64, kind: Kind, count: usize) -> u64
    requires { (upper head ≤ 3) × (count ≤ LONGEST_LOAD) }
    ensures { result ≡ counting (is_strings kind) count head }
{
    let more = head + (count as u64);
    match kind {
        Kind::Strings if upper(head) < 2 => more + 2 * HALF,
        _ => more,
    }
}

// The head of a statement that has no values yet.
fn bare_head(operator: Operator) -> u64
    ensures { result ≡ bare_head operator }
{
    match operator {
        Operator::Direct => 0,
        Operator::Append => HALF,
    }
}

// The four words of a name. Each is stored by itself, since what has no room is left out.
fn write_name(m: &mut [u64], at: usize, name: &[u8])
    requires { at ≤ WORDS }
    ensures { m.new ≡ over at (packed name.now) m.old }
{
    let words = pack(name);
    store(m, at, words[0]);
    store(m, at + 1, words[1]);
    store(m, at + 2, words[2]);
    store(m, at + 3, words[3]);
}
