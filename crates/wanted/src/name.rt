// "With n the code, the variables are BODYn_POLE_RA ..": the name of a variable, spelled into bytes.
ghost use Rattle.std.specs.Prelude.{◌≡◌, ◌+◌, ◌≤◌, length};
ghost use Rattle.statement.specs.Head.{NAME};
ghost use Rattle.wanted.specs.Names.{FIGURES, SUFFIX, numeral, suffix, figure, name_of};
ghost use Rattle.words.specs.Placed.{Writes};

use super::code::Code;
use words::bytes::append;

// The variables that a body's answers are made of.
#[derive(Clone, Copy)]
pub enum Wanted {
    PoleRa,
    PoleDec,
    Pm,
    NutPrecRa,
    NutPrecDec,
    NutPrecPm,
    NutPrecAngles,
    MaxPhaseDegree,
    Radii,
}

// The name is written from the start; the answer is its length.
pub fn spell(code: Code, wanted: Wanted, out: &mut [u8]) -> usize
    requires { NAME ≤ length out.old }
    ensures { Writes 0 (name_of code.number wanted) out.old result out.new }
{
    let after_body = append(b"BODY", out, 0);
    let after_code = append_code(code, out, after_body);
    append_suffix(wanted, out, after_code)
}

// The code in figures, without leading zeros.
fn append_code(code: Code, out: &mut [u8], at: usize) -> usize
    requires { at + FIGURES ≤ length out.old }
    ensures { Writes at (numeral code.number) out.old result out.new }
{
    let n = code.number;
    if n < 10 {
        return append(&[figure_of(n)], out, at);
    }
    if n < 100 {
        return append(&[figure_of(n / 10), figure_of(n % 10)], out, at);
    }
    append(
        &[
            figure_of(n / 100),
            figure_of(n / 10 % 10),
            figure_of(n % 10),
        ],
        out,
        at,
    )
}

fn figure_of(digit: u32) -> u8
    requires { digit ≤ 9 }
    ensures { result ≡ figure digit }
{
    b'0' + digit as u8
}

fn append_suffix(wanted: Wanted, out: &mut [u8], at: usize) -> usize
    requires { at + SUFFIX ≤ length out.old }
    ensures { Writes at (suffix wanted) out.old result out.new }
{
    match wanted {
        Wanted::PoleRa => append(b"_POLE_RA", out, at),
        Wanted::PoleDec => append(b"_POLE_DEC", out, at),
        Wanted::Pm => append(b"_PM", out, at),
        Wanted::NutPrecRa => append(b"_NUT_PREC_RA", out, at),
        Wanted::NutPrecDec => append(b"_NUT_PREC_DEC", out, at),
        Wanted::NutPrecPm => append(b"_NUT_PREC_PM", out, at),
        Wanted::NutPrecAngles => append(b"_NUT_PREC_ANGLES", out, at),
        Wanted::MaxPhaseDegree => append(b"_MAX_PHASE_DEGREE", out, at),
        Wanted::Radii => append(b"_RADII", out, at),
    }
}
