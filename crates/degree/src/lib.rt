// "The degree in BODYs_MAX_PHASE_DEGREE. Read it: absent means 1; otherwise one value, 1, 2 or 3."
#![tactic(auto)]

ghost use Rattle.std.specs.Prelude.{◌≡◌};
ghost use Rattle.rotation.specs.Elements.{CUBIC};
ghost use Rattle.layout.specs.Memory.{decode};
ghost use Rattle.degree.specs.Degree.{announced, system_degree, degree_where};

use layout::undamaged::Undamaged;
use rotation::nutation::{CUBIC, LINEAR};
use variables::variable::FindError;
use wanted::code::Code;
use wanted::elements;
use wanted::name::Wanted;

// The degree of a system's angles; it is not looked at, if it is not wanted.
pub fn find(pool: Undamaged, system: Code, wanted: bool) -> Option<usize>
    ensures { result ≡ degree_where wanted (decode pool.entry.words.now) system.number }
{
    // a flag, for tested here it gives the caller one fact for both ways: `degree_where`
    if wanted {
        read(pool, system)
    } else {
        Some(LINEAR)
    }
}

// None where what is announced is no degree: another value or count, or a string.
fn read(pool: Undamaged, system: Code) -> Option<usize>
    ensures { result ≡ system_degree (decode pool.entry.words.now) system.number }
{
    let mut xs = [0.0; 1];
    let found = elements::find(pool, system, Wanted::MaxPhaseDegree, &mut xs);
    match found {
        Ok(1) => announce(xs[0]),
        Err(FindError::Absent) => Some(LINEAR),
        _ => None,
    }
}

// The degree that a value is, from the highest down.
fn announce(x: f64) -> Option<usize>
    ensures { result ≡ announced CUBIC x }
{
    for d in (1..=CUBIC).rev() {
        if x == d as f64 {
            return Some(d);
        }
    }
    None
}
