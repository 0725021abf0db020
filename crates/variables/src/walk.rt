// "a variable there is the values of the last direct assignment among those texts": where it begins.
ghost use Rattle.std.specs.Prelude.{◌≡◌, ◌/◌, eqb, if◌then◌else◌};
ghost use Rattle.words.specs.Halves.{upper};
ghost use Rattle.variables.specs.Walk.{Begins};

use crate::legal::Legal;
use crate::name::is_named;
use layout::head::{holds_numbers, value_count};
use layout::undamaged::Undamaged;
use names::pack::pack;
use words::half::{lower, upper};

// A head's upper number is kind · 2 + operator: the operator's number of a direct assignment.
const DIRECT: u64 = 0;

// A variable's first statement, the first of that statement's values, how many values the variable has, and how many of them are strings.
#[derive(Clone, Copy)]
pub struct Start {
    pub statement: usize,
    pub value: usize,
    pub count: usize,
    pub strings: usize,
}

// Walks backward over the texts and their statements, and leaves at the last direct assignment to the name.
pub fn walk(pool: Undamaged, name: Legal) -> Start
    ensures { Begins name.entry.bytes.now pool.entry.words.now result.statement result.value result.count result.strings }
{
    let words = pack(name.bytes);
    let texts = pool.texts();
    let heads = pool.heads();
    let names = pool.names();
    let mut statement = heads.len();
    let mut value = pool.totals().values as usize;
    let mut count = 0;
    let mut strings = 0;
    // document 01 names this loop: backward over the texts and their statements, and left from inside
    'texts: for text in texts.iter().rev() {
        let first = statement - lower(*text) as usize;
        for s in (first..statement).rev() {
            let head = heads[s];
            let n = value_count(head);
            statement = s;
            value -= n;
            if is_named(names, s, &words) {
                count += n;
                strings += strings_in(head, n);
                if upper(head) % 2 == DIRECT {
                    break 'texts;
                }
            }
        }
    }
    Start {
        statement,
        value,
        count,
        strings,
    }
}

// Of a statement's n values all are strings, or none is.
fn strings_in(head: u64, n: usize) -> usize
    ensures { result ≡ (if eqb (upper head / 2) 0 then 0 else n) }
{
    if holds_numbers(head) { 0 } else { n }
}
