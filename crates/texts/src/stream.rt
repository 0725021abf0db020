// The texts of a stream, up to the end or a broken one.
ghost use Rattle.std.specs.Prelude.{length};
ghost use Rattle.std.specs.Iterator.{at_most};

use script::numbers;

#[derive(Clone, Copy)]
pub struct Texts<'a> {
    pub rest: &'a [u8],
}

impl<'a> Iterator for Texts<'a> {
    type Item = &'a [u8];

    ghost remaining = { λ s. at_most (length s.rest.now) };

    fn next(&mut self) -> Option<&'a [u8]> {
        let stream = self.rest;
        if stream.is_empty() {
            return None;
        }
        let count = numbers::decimal(script::before(stream, b'\n'))? as usize;
        let rest = script::after(stream, b'\n');
        if !script::counted(rest, count) {
            return None;
        }
        self.rest = script::after_counted(rest, count);
        Some(script::first(rest, count))
    }
}
