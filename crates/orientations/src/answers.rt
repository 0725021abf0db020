// A line for each answer: the question, 0 and the doubles answered, or the refusal's number.
use print::Bits;
use rotation::builtin;
use rotation::matrix::Orientation;
use std::io;

pub fn orientation(rt: &impl Print, code: u32, epoch: f64) -> io::Result<()> {
    print!(rt; "orientation {code} {}", Bits(epoch))?;
    match builtin::orientation(code, epoch) {
        Ok(o) => given(rt, o),
        Err(refusal) => println!(rt; " {}", refusal::number(refusal)),
    }
}

fn given(rt: &impl Print, o: Orientation) -> io::Result<()> {
    print!(rt; " 0")?;
    triple(rt, o.ra, o.dec, o.w)?;
    triple(rt, o.m11, o.m12, o.m13)?;
    triple(rt, o.m21, o.m22, o.m23)?;
    triple(rt, o.m31, o.m32, o.m33)?;
    println!(rt; "")
}

pub fn radii(rt: &impl Print, code: u32) -> io::Result<()> {
    print!(rt; "radii {code}")?;
    match builtin::radii(code) {
        Ok(axes) => {
            print!(rt; " 0")?;
            triple(rt, axes.a, axes.b, axes.c)?;
            println!(rt; "")
        }
        Err(refusal) => println!(rt; " {}", refusal::number(refusal)),
    }
}

fn triple(rt: &impl Print, a: f64, b: f64, c: f64) -> io::Result<()> {
    print!(rt; " {} {} {}", Bits(a), Bits(b), Bits(c))
}
