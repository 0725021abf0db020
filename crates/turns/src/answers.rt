// A line for each answer: the question, 0 and what is answered, or the refusal's number. A move is told as a double, which has a sign.
use drive::answer::Motion;
use drive::calls;
use globe::source::Source;
use print::Bits;
use std::io;

pub fn position(rt: &impl Print, code: u32, epoch: f64, ring: u32) -> io::Result<()> {
    print!(rt; "position {code} {} {ring}", Bits(epoch))?;
    match calls::position(Source::Builtin, &[], code, epoch, ring) {
        Ok(n) => println!(rt; " 0 {n}"),
        Err(r) => println!(rt; " {}", refusal::number(r)),
    }
}

pub fn step(rt: &impl Print, code: u32, epoch: f64, ring: u32, present: u32) -> io::Result<()> {
    print!(rt; "move {code} {} {ring} {present}", Bits(epoch))?;
    match calls::step(Source::Builtin, &[], code, epoch, ring, present) {
        Ok(Motion { target, way }) => println!(rt; " 0 {target} {}", Bits(f64::from(way))),
        Err(r) => println!(rt; " {}", refusal::number(r)),
    }
}
