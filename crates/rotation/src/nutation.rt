// "In rising i, add coefficient times sine to RA and W, times cosine to DEC." Angle i is group i of the system's, nested in T.
ghost use Rattle.std.specs.Prelude.{◌≡◌, ◌+◌, ◌<◌, length};
ghost use Rattle.rotation.specs.Elements.{Enough, nested, nutated_all};
ghost use Rattle.rotation.specs.Terms.{Adds, AddsAll};

use super::epoch::Centuries;
use angle::sine;
use angle::sine::SineCosine;

// The degree of an angle a + T·b, and the highest there is.
pub const LINEAR: usize = 1;

pub const CUBIC: usize = 3;

// A system's angles of a degree and the coefficients of a body's RA, DEC and PM, of which each has its angle.
#[derive(Clone, Copy)]
pub struct Nutation<'a> {
    pub degree: usize,
    pub angles: &'a [f64],
    pub ra: &'a [f64],
    pub dec: &'a [f64],
    pub pm: &'a [f64],
    pub ghost enough: { Enough degree angles.now ra.now dec.now pm.now },
}

// Right ascension, declination and meridian, while terms are added.
#[derive(Clone, Copy)]
pub struct Sums {
    pub ra: f64,
    pub dec: f64,
    pub w: f64,
}

impl Nutation<'_> {
    // The start, with each coefficient times the sine or the cosine of its angle added. An angle's sine and cosine are taken once.
    pub fn nutate(self, t: Centuries, start: Sums) -> Sums
        ensures { result ≡ nutated_all t self.entry.degree self.entry.angles.now self.entry.ra.now
            self.entry.dec.now self.entry.pm.now start }
    {
        let terms = self.ra.len().max(self.dec.len()).max(self.pm.len());
        let mut sums = start;
        for i in 0..terms {
            let pair = sine::sine_cosine(nest(t, self.angles, (self.degree + 1) * i, self.degree));
            sums = self.add_terms(sums, pair, i);
        }
        sums
    }

    // The sums with term i.
    fn add_terms(self, sums: Sums, pair: SineCosine, i: usize) -> Sums
        ensures { AddsAll sums pair i self.entry.ra.now self.entry.dec.now self.entry.pm.now result }
    {
        Sums {
            ra: add_term(sums.ra, self.ra, i, pair.0),
            dec: add_term(sums.dec, self.dec, i, pair.1),
            w: add_term(sums.w, self.pm, i, pair.0),
        }
    }
}

// The value at a place and so many more after it, nested from the highest inward.
fn nest(t: Centuries, xs: &[f64], at: usize, more: usize) -> f64
    requires { at + more < length xs.now }
    ensures { result ≡ nested t xs.now at more }
{
    let mut sum = xs[at + more];
    for i in (0..more).rev() {
        sum = xs[at + i] + t.0 * sum;
    }
    sum
}

// The sum with coefficient i times x, where there is such a coefficient.
fn add_term(sum: f64, coefficients: &[f64], i: usize, x: f64) -> f64
    ensures { Adds sum coefficients.now i x result }
{
    match coefficients.get(i) {
        Some(coefficient) => sum + *coefficient * x,
        None => sum,
    }
}
