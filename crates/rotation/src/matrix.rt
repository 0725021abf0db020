// "Matrix, inertial to body": the record of pole, meridian and matrix.
ghost use Rattle.std.specs.Prelude.{◌≡◌};
ghost use Rattle.rotation.specs.Matrix.{rows, oriented};

use angle::sine::SineCosine;
use angle::{sine, wrap};

// Pole and meridian in degrees, and the matrix by rows.
#[derive(Clone, Copy)]
pub struct Orientation {
    pub ra: f64,
    pub dec: f64,
    pub w: f64,
    pub m11: f64,
    pub m12: f64,
    pub m13: f64,
    pub m21: f64,
    pub m22: f64,
    pub m23: f64,
    pub m31: f64,
    pub m32: f64,
    pub m33: f64,
}

// The record of a right ascension, a declination and a meridian; the first and the last are wrapped.
#[tactic(auto, unfolding(crate::specs::Matrix::oriented))]
pub fn orient(ra: f64, dec: f64, w: f64) -> Orientation
    ensures { result ≡ oriented ra dec w }
{
    let pole = wrap::wrap(ra);
    let meridian = wrap::wrap(w);
    let a = sine::sine_cosine(pole);
    let d = sine::sine_cosine(dec);
    let m = sine::sine_cosine(meridian);
    record(pole, dec, meridian, a, d, m)
}

// The record by the sines and cosines of right ascension, declination and meridian.
fn record(ra: f64, dec: f64, w: f64, a: SineCosine, d: SineCosine, m: SineCosine) -> Orientation
    ensures { result ≡ rows ra dec w a.0 a.1 d.0 d.1 m.0 m.1 }
{
    let SineCosine(sa, ca) = a;
    let SineCosine(sd, cd) = d;
    let SineCosine(sw, cw) = m;
    Orientation {
        ra,
        dec,
        w,
        m11: -(cw * sa) - (sw * sd) * ca,
        m12: cw * ca - (sw * sd) * sa,
        m13: sw * cd,
        m21: sw * sa - (cw * sd) * ca,
        m22: -(sw * ca) - (cw * sd) * sa,
        m23: cw * cd,
        m31: cd * ca,
        m32: cd * sa,
        m33: sd,
    }
}
