// "BODYn_NUT_PREC_RA, _DEC and _PM may be absent. If any is there, BODYs_NUT_PREC_ANGLES must be ..": what was found of them.
ghost use Rattle.std.specs.Prelude.{◌≡◌};
ghost use Rattle.nutation.specs.Found.{LooksForAngles, any_there, any_mixed};

use layout::undamaged::Undamaged;
use variables::variable::FindError;
use wanted::code::Code;
use wanted::elements;
use wanted::name::Wanted;
use wanted::outcome::{is_mixed, is_there};

// The angles of a system are written into the buffer's start, if they are wanted.
pub fn find_angles(
    pool: Undamaged,
    system: Code,
    wanted: bool,
    out: &mut [f64],
) -> Result<usize, FindError>
    ensures { LooksForAngles pool.entry.words.now system.number wanted out.old result out.new }
{
    // a flag, for tested here it gives the caller one fact for both ways: `LooksForAngles`
    if wanted {
        elements::find(pool, system, Wanted::NutPrecAngles, out)
    } else {
        Ok(0)
    }
}

// What was found of a body's three variables of coefficients.
#[derive(Clone, Copy)]
pub struct Found {
    pub ra: Result<usize, FindError>,
    pub dec: Result<usize, FindError>,
    pub pm: Result<usize, FindError>,
}

impl Found {
    // "If any is there"
    pub fn any_there(self) -> bool
        ensures { result ≡ any_there self.ra self.dec self.pm }
    {
        is_there(self.ra) || is_there(self.dec) || is_there(self.pm)
    }

    // A string is in one of the three, or in the angles.
    pub fn any_mixed(self, angles: Result<usize, FindError>) -> bool
        ensures { result ≡ any_mixed angles self.ra self.dec self.pm }
    {
        is_mixed(angles) || is_mixed(self.ra) || is_mixed(self.dec) || is_mixed(self.pm)
    }
}
