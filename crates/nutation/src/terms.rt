// The counts of a body's coefficients and of its system's angles, or what is wrong with them: 11, 23, 16 and 12 in their order.
ghost use Rattle.std.specs.Prelude.{◌≡◌, ◌≤◌};
ghost use Rattle.rotation.specs.Elements.{CUBIC};
ghost use Rattle.wanted.specs.Elements.{enough_groups};
ghost use Rattle.degree.specs.Degree.{Low};
ghost use Rattle.nutation.specs.Terms.{count_of, counted_of, terms_of};

use crate::found::Found;
use refusal::Refusal;
use variables::variable::FindError;
use wanted::outcome::is_there;

// The most angles of a system, so the most coefficients, and the most values of so many angles: four each at the highest degree.
pub const COEFFICIENTS: usize = 32;

pub const ANGLES: usize = 128;

// The degree of the angles, and how many values they and the three variables have.
#[derive(Clone, Copy)]
pub struct Lengths {
    pub degree: usize,
    pub angles: usize,
    pub ra: usize,
    pub dec: usize,
    pub pm: usize,
}

// Angles that are wanted and absent come before a bad degree, this before a string, of which `mixed` tells where pole or meridian has one,
// and this before the counts. (`mixed` is a flag, for of pole and meridian no more than that is asked here.)
pub fn judge(
    degree: Option<usize>,
    mixed: bool,
    angles: Result<usize, FindError>,
    found: Found,
) -> Result<Lengths, Refusal>
    requires { Low degree }
    ensures { result ≡ terms_of degree mixed angles found.ra found.dec found.pm }
{
    if !is_there(angles) {
        return Err(Refusal::Incomplete);
    }
    let Some(d) = degree else {
        return Err(Refusal::BadDegree);
    };
    if mixed || found.any_mixed(angles) {
        return Err(Refusal::MixedKind);
    }
    count(d, angles, found)
}

// More angles than the buffer holds are more than there may be of any degree.
fn count(degree: usize, angles: Result<usize, FindError>, found: Found) -> Result<Lengths, Refusal>
    requires { degree ≤ CUBIC }
    ensures { result ≡ counted_of degree angles found.ra found.dec found.pm }
{
    let Ok(values) = angles else {
        return Err(Refusal::WrongCount);
    };
    let lengths = Lengths {
        degree,
        angles: values,
        ra: count_of(found.ra),
        dec: count_of(found.dec),
        pm: count_of(found.pm),
    };
    if is_enough(lengths) {
        Ok(lengths)
    } else {
        Err(Refusal::WrongCount)
    }
}

// Counts of coefficients. More than a buffer holds are more than any angles can serve: one more says so.
fn count_of(found: Result<usize, FindError>) -> usize
    ensures { result ≡ count_of found }
{
    match found {
        Ok(n) => n,
        Err(FindError::TooMany) => COEFFICIENTS + 1,
        Err(FindError::Mixed | FindError::Absent) => 0,
    }
}

// Whole groups of degree plus one values, no more than there may be, and one for every coefficient.
fn is_enough(n: Lengths) -> bool
    requires { n.degree ≤ CUBIC }
    ensures { result ≡ enough_groups n.degree n.angles n.ra n.dec n.pm }
{
    let size = n.degree + 1;
    let groups = n.angles / size;
    n.angles % size == 0 && groups <= COEFFICIENTS && n.ra.max(n.dec.max(n.pm)) <= groups
}
