// Rotational elements: three polynomials, of which the first two are in centuries and the third is in days.
ghost use Rattle.std.specs.Prelude.{◌≡◌};
ghost use Rattle.rotation.specs.Elements.{value_at};

use super::epoch::Elapsed;

// c0 + x * (c1 + x * c2).
#[derive(Clone, Copy)]
pub struct Polynomial {
    pub c0: f64,
    pub c1: f64,
    pub c2: f64,
}

// Right ascension and declination of the pole, and the prime meridian.
#[derive(Clone, Copy)]
pub struct Elements {
    pub ra: Polynomial,
    pub dec: Polynomial,
    pub pm: Polynomial,
}

impl Polynomial {
    // The value after a span of time, in the unit that the rates are for.
    pub fn at<T: Elapsed>(self, span: T) -> f64
        ensures { result ≡ value_at self (T.amount span) }
    {
        let x = span.amount();
        self.c0 + x * (self.c1 + x * self.c2)
    }
}
