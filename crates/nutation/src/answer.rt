// The answer for a body whose pole and meridian are there: 11, 23, 16 or 12, or document 01's evaluation.
ghost use Rattle.std.specs.Prelude.{◌≡◌, take};
ghost use Rattle.rotation.specs.Evaluation.{evaluated};
ghost use Rattle.layout.specs.Memory.{decode};
ghost use Rattle.nutation.specs.Answer.{Fronts, by_nutation};

use crate::found::{Found, find_angles};
use crate::terms;
use crate::terms::{ANGLES, COEFFICIENTS, Lengths};
use layout::undamaged::Undamaged;
use refusal::Refusal;
use rotation::elements::Elements;
use rotation::evaluation;
use rotation::matrix::Orientation;
use rotation::nutation::Nutation;
use variables::variable::FindError;
use wanted::code::Body;
use wanted::elements;
use wanted::name::Wanted;
use wanted::outcome::is_mixed;

// `base` is what pole and meridian came to: a string in one of the three, or a miscount, is told in its turn.
pub fn by_nutation(
    pool: Undamaged,
    body: Body,
    epoch: f64,
    base: Result<Elements, FindError>,
) -> Result<Orientation, Refusal>
    ensures { result ≡ by_nutation (decode pool.entry.words.now) body.code.number body.system.number epoch base }
{
    let mut ra = [0.0; COEFFICIENTS];
    let mut dec = [0.0; COEFFICIENTS];
    let mut pm = [0.0; COEFFICIENTS];
    let mut angles = [0.0; ANGLES];
    let r = elements::find(pool, body.code, Wanted::NutPrecRa, &mut ra);
    let d = elements::find(pool, body.code, Wanted::NutPrecDec, &mut dec);
    let p = elements::find(pool, body.code, Wanted::NutPrecPm, &mut pm);
    let found = Found {
        ra: r,
        dec: d,
        pm: p,
    };
    let wanted = found.any_there();
    let a = find_angles(pool, body.system, wanted, &mut angles);
    let degree = degree::find(pool, body.system, wanted);
    let lengths = terms::judge(degree, is_mixed(base), a, found)?;
    let Ok(e) = base else {
        return Err(Refusal::WrongCount);
    };
    Ok(evaluate(e, epoch, lengths, &angles, &ra, &dec, &pm))
}

// The evaluation by the fronts of the buffers.
fn evaluate(
    e: Elements,
    epoch: f64,
    n: Lengths,
    angles: &[f64],
    ra: &[f64],
    dec: &[f64],
    pm: &[f64],
) -> Orientation
    requires { Fronts n angles.now ra.now dec.now pm.now }
    ensures { result ≡ evaluated e epoch n.degree (take n.angles angles.now) (take n.ra ra.now)
        (take n.dec dec.now) (take n.pm pm.now) }
{
    let nutation = Nutation {
        degree: n.degree,
        angles: &angles[..n.angles],
        ra: &ra[..n.ra],
        dec: &dec[..n.dec],
        pm: &pm[..n.pm],
    };
    evaluation::evaluate(e, epoch, nutation)
}
