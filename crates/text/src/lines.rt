// Where lines end: document 01, "Lines end at LF; one CR just before it is dropped".
ghost use Rattle.std.specs.Prelude.{◌<◌, length};
ghost use Rattle.text.specs.Lines.{Cuts};

use value::classes;
use value::classes::Class;

// Where a line's bytes end, and where the next line starts.
#[derive(Clone, Copy)]
pub struct Cut {
    pub end: usize,
    pub next: usize,
}

// The line that starts at `at`.
pub fn cut_line(text: &[u8], at: usize) -> Cut
    requires { at < length text.now }
    ensures { Cuts text.now at result }
{
    let end = classes::past(Class::Line, text, at);
    let next = end + 1;
    if end < text.len() {
        if at < end {
            if text[end - 1] == b'\r' {
                return Cut {
                    end: end - 1,
                    next: next,
                };
            }
        }
    }
    Cut {
        end: end,
        next: next,
    }
}
