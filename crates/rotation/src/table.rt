// The built-in table of the Sun and the planets.
ghost use Rattle.std.specs.Prelude.{◌≡◌};
ghost use Rattle.rotation.specs.Table.{straight, row, row_of, axes, size_of};

use super::elements::{Elements, Polynomial};

// Three radii in km.
#[derive(Clone, Copy)]
pub struct Axes {
    pub a: f64,
    pub b: f64,
    pub c: f64,
}

// The elements of a body, if the table has a row for it.
pub fn row_of(code: u32) -> Option<Elements>
    ensures { result ≡ row_of code }
{
    match code {
        10 => Some(row(286.13, 0.0, 63.87, 0.0, 84.10, 14.1844)),
        199 => Some(row(281.01, -0.033, 61.45, -0.005, 329.548, 6.1385025)),
        299 => Some(row(272.76, 0.0, 67.16, 0.0, 160.20, -1.4813688)),
        399 => Some(row(0.0, -0.641, 90.0, -0.557, 190.147, 360.9856235)),
        499 => Some(row(317.68143, -0.1061, 52.88650, -0.0609, 176.630, 350.89198226)),
        599 => Some(row(268.05, -0.009, 64.49, 0.003, 284.95, 870.536642)),
        699 => Some(row(40.589, -0.036, 83.537, -0.004, 38.90, 810.7939024)),
        799 => Some(row(257.311, 0.0, -15.175, 0.0, 203.81, -501.1600928)),
        899 => Some(row(299.36, 0.0, 43.46, 0.0, 253.18, 536.3128492)),
        999 => Some(row(313.02, 0.0, 9.09, 0.0, 236.77, -56.3623195)),
        _ => None,
    }
}

// The radii of a body, if the table has them.
pub fn size_of(code: u32) -> Option<Axes>
    ensures { result ≡ size_of code }
{
    match code {
        199 => Some(sized(2439.7, 2439.7)),
        299 => Some(sized(6051.8, 6051.8)),
        399 => Some(sized(6378.14, 6356.75)),
        499 => Some(sized(3397.0, 3375.0)),
        599 => Some(sized(71492.0, 66854.0)),
        699 => Some(sized(60268.0, 54364.0)),
        799 => Some(sized(25559.0, 24973.0)),
        899 => Some(sized(24764.0, 24341.0)),
        999 => Some(sized(1195.0, 1195.0)),
        _ => None,
    }
}

// A row of two values to each polynomial; the third is 0.
fn row(ra0: f64, ra1: f64, dec0: f64, dec1: f64, pm0: f64, pm1: f64) -> Elements
    ensures { result ≡ row ra0 ra1 dec0 dec1 pm0 pm1 }
{
    Elements {
        ra: straight(ra0, ra1),
        dec: straight(dec0, dec1),
        pm: straight(pm0, pm1),
    }
}

fn straight(c0: f64, c1: f64) -> Polynomial
    ensures { result ≡ straight c0 c1 }
{
    Polynomial { c0, c1, c2: 0.0 }
}

// Two equal radii and the third.
fn sized(a: f64, c: f64) -> Axes
    ensures { result ≡ axes a c }
{
    Axes { a, b: a, c }
}
