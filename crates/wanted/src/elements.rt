// "Elements wanted": the variables of a body in an undamaged pool, and the polynomials of pole and meridian.
ghost use Rattle.std.specs.Prelude.{◌≡◌, ◌+◌};
ghost use Rattle.layout.specs.Memory.{decode};
ghost use Rattle.wanted.specs.Elements.{there, numeric, list};
ghost use Rattle.wanted.specs.Steps.{LooksFor, values_of, presence, base_of};

use super::code::Code;
use super::name;
use super::name::Wanted;
use super::outcome::{is_mixed, is_there};
use layout::undamaged::Undamaged;
use rotation::elements::{Elements, Polynomial};
use statement::head::NAME;
use variables::variable::{FindError, variable};

// A body's variable is written into the buffer's start, if it is there and has room.
pub fn find(
    pool: Undamaged,
    code: Code,
    wanted: Wanted,
    out: &mut [f64],
) -> Result<usize, FindError>
    ensures { LooksFor pool.entry.words.now code.number wanted out.old result out.new }
{
    let mut name = [0u8; NAME];
    let n = name::spell(code, wanted, &mut name);
    variable(pool, &name[..n], out)
}

// A body's polynomial, of "1 to 3 values": those that are missing are 0, and of another number it is one of too many.
pub fn polynomial_of(pool: Undamaged, code: Code, wanted: Wanted) -> Result<Polynomial, FindError>
    ensures { result ≡ values_of (there (decode pool.entry.words.now) code.number wanted) (numeric (decode pool.entry.words.now) code.number wanted)
        (list (decode pool.entry.words.now) code.number wanted) }
{
    let mut xs = [0.0; 3];
    let n = find(pool, code, wanted, &mut xs)?;
    if n == 0 {
        return Err(FindError::TooMany);
    }
    Ok(Polynomial {
        c0: xs[0],
        c1: xs[1],
        c2: xs[2],
    })
}

// How many of the three are there.
pub fn count_held(
    ra: Result<Polynomial, FindError>,
    dec: Result<Polynomial, FindError>,
    pm: Result<Polynomial, FindError>,
) -> usize
    ensures { result ≡ presence ra + presence dec + presence pm }
{
    [ra, dec, pm]
        .iter()
        .filter(|found| is_there(**found))
        .count()
}

// The three polynomials together: a string in one of them is told before any miscount.
pub fn assemble(
    ra: Result<Polynomial, FindError>,
    dec: Result<Polynomial, FindError>,
    pm: Result<Polynomial, FindError>,
) -> Result<Elements, FindError>
    ensures { result ≡ base_of ra dec pm }
{
    if is_mixed(ra) || is_mixed(dec) || is_mixed(pm) {
        return Err(FindError::Mixed);
    }
    Ok(Elements {
        ra: ra?,
        dec: dec?,
        pm: pm?,
    })
}
