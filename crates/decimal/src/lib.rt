// A value's bytes read to a double: document 01, "Text rules", the two points on a value.
#![tactic(auto)]

mod class;
mod digits;
mod exponent;
mod sign;
mod whole;

ghost use Rattle.std.specs.Prelude.{◌≡◌};
ghost use Rattle.decimal.specs.Class.{reading};

use class::scale;
use exponent::read_exponent;
use refusal::Refusal;
use sign::read_sign;
use whole::read_whole;

// What a run of bytes is: a number of the class; no value; a value outside the class. What is no number tells its refusal. A form that
// document 01 names.
#[derive(Clone, Copy)]
pub enum Reading {
    Number(f64),
    BadForm(Refusal),
    OutsideClass(Refusal),
}

// What bytes are that have no number's form.
const BROKEN: Reading = Reading::BadForm(Refusal::BadValue);

// What a value's bytes are.
pub fn read(value: &[u8]) -> Reading
    ensures { result ≡ reading value.now }
{
    let sign = read_sign(value, 0);
    let Some(whole) = read_whole(value, sign.end) else {
        return BROKEN;
    };
    let Some(exponent) = read_exponent(value, whole.end, whole.places) else {
        return BROKEN;
    };
    scale(sign.minus, whole.w, exponent.up, exponent.down)
}
