// The calls of a script. A call is known by its first letter, and by its third where two have the same first.
ghost use Rattle.std.specs.Prelude.{◌≤◌, length};
ghost use Rattle.std.specs.Iterator.{at_most};

use script::numbers;

// A call on the pool; or what a line says of the memory: a word that is put into it from outside, or how many of its words calls get.
// A line that is none of these does nothing.
#[derive(Clone, Copy)]
pub enum Call<'a> {
    Empty,
    Load {
        label: u32,
        text: &'a [u8],
    },
    Remove {
        label: u32,
    },
    Clear,
    Open {
        label: u32,
    },
    Feed {
        count: usize,
        part: &'a [u8],
    },
    Close,
    Drop,
    Fetch {
        room: usize,
        name: &'a [u8],
    },
    Quoted {
        room: usize,
        place: usize,
        name: &'a [u8],
    },
    Totals,
    Put {
        at: usize,
        word: u64,
    },
    Size {
        words: usize,
    },
    Unknown,
}

// The calls of a script, in order.
#[derive(Clone, Copy)]
pub struct Calls<'a> {
    pub rest: &'a [u8],
}

impl<'a> Iterator for Calls<'a> {
    type Item = Call<'a>;

    ghost remaining = { λ s. at_most (length s.rest.now) };

    fn next(&mut self) -> Option<Call<'a>> {
        let script = self.rest;
        if script.is_empty() {
            return None;
        }
        let line = script::before(script, b'\n');
        let text = script::after(script, b'\n');
        let (call, rest) = read(line, text);
        self.rest = rest;
        Some(call)
    }
}

// The call of a line, and what stands after it: after its counted bytes, if it has any.
fn read<'a>(line: &'a [u8], text: &'a [u8]) -> (Call<'a>, &'a [u8])
    ensures { length result.1.now ≤ length text.now }
{
    let fields = script::after(line, b' ');
    match line {
        [b'l', ..] => {
            let label = label_of(script::before(fields, b' '));
            let count = number(script::after(fields, b' '));
            let part = script::first(text, count);
            let call = Call::Load { label, text: part };
            (call, script::after_counted(text, count))
        }
        [b'f', _, b'e', ..] => {
            let count = number(fields);
            let part = script::first(text, count);
            let call = Call::Feed { count, part };
            (call, script::after_counted(text, count))
        }
        _ => (of_line(line, fields), text),
    }
}

// A call that is a line alone.
fn of_line<'a>(line: &[u8], fields: &'a [u8]) -> Call<'a> {
    match line {
        [b'e', ..] => Call::Empty,
        [b'r', ..] => Call::Remove {
            label: label_of(fields),
        },
        [b'c', _, b'o', ..] => Call::Close,
        [b'c', ..] => Call::Clear,
        [b'o', ..] => Call::Open {
            label: label_of(fields),
        },
        [b'd', ..] => Call::Drop,
        [b'f', ..] => fetch(fields),
        [b'q', ..] => quoted(fields),
        [b't', ..] => Call::Totals,
        [b'w', ..] => put(fields),
        [b's', ..] => Call::Size {
            words: number(fields),
        },
        _ => Call::Unknown,
    }
}

// The buffer's length stands before the name.
fn fetch(fields: &[u8]) -> Call<'_> {
    Call::Fetch {
        room: number(script::before(fields, b' ')),
        name: script::after(fields, b' '),
    }
}

// The buffer's length stands first, then the place, then the name.
fn quoted(fields: &[u8]) -> Call<'_> {
    let rest = script::after(fields, b' ');
    Call::Quoted {
        room: number(script::before(fields, b' ')),
        place: number(script::before(rest, b' ')),
        name: script::after(rest, b' '),
    }
}

// The word's place, then its 16 digits.
fn put<'a>(fields: &[u8]) -> Call<'a> {
    let Some(word) = numbers::hexadecimal(script::after(fields, b' ')) else {
        return Call::Unknown;
    };
    Call::Put {
        at: number(script::before(fields, b' ')),
        word,
    }
}

// The label that a field gives; 0, if it is none.
fn label_of(field: &[u8]) -> u32 {
    u32::try_from(numbers::natural(field)).unwrap_or(0)
}

// The number that a field gives; 0, if it is none.
fn number(field: &[u8]) -> usize {
    numbers::natural(field) as usize
}
