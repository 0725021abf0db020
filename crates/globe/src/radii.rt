// Radii from a pool: 15, 10, 16, 12, 24, or three values.
ghost use Rattle.std.specs.Prelude.{◌≡◌};
ghost use Rattle.layout.specs.Memory.{decode};
ghost use Rattle.globe.specs.declared.source.Source.TheVariants as Source;
ghost use Rattle.globe.specs.Radii.{radii_reply, radii_from, radii_of, admitted};

use layout::undamaged::Undamaged;
use refusal::Refusal;
use rotation::table::Axes;
use variables::variable::FindError;
use wanted::code::{Body, Code};
use wanted::elements;
use wanted::name::Wanted;

// 15 first.
#[tactic(auto, unfolding(crate::specs::Radii::radii_reply))]
pub fn from_pool(pool: &[u64], code: u32) -> Result<Axes, Refusal>
    ensures { result ≡ radii_reply Source.Pool pool.now code }
{
    let pool = Undamaged::of(pool).ok_or(Refusal::DamagedPool)?;
    by_code(pool, code)
}

// 10 for a code of no system.
#[tactic(auto, unfolding(crate::specs::Radii::radii_from))]
fn by_code(pool: Undamaged, code: u32) -> Result<Axes, Refusal>
    ensures { result ≡ radii_from (decode pool.entry.words.now) code }
{
    let body = Body::of(code).ok_or(Refusal::UnknownBody)?;
    of_body(pool, body.code)
}

// "BODYn_RADII absent: 10; not three values: 12.", and 16 for a string just before 12.
fn of_body(pool: Undamaged, code: Code) -> Result<Axes, Refusal>
    ensures { result ≡ radii_of (decode pool.entry.words.now) code.number }
{
    let mut xs = [0.0; 3];
    let found = elements::find(pool, code, Wanted::Radii, &mut xs);
    match found {
        Ok(3) => admit(Axes {
            a: xs[0],
            b: xs[1],
            c: xs[2],
        }),
        Ok(_) => Err(Refusal::WrongCount),
        Err(FindError::TooMany) => Err(Refusal::WrongCount),
        Err(FindError::Mixed) => Err(Refusal::MixedKind),
        Err(FindError::Absent) => Err(Refusal::UnknownBody),
    }
}

// "must each be greater than 0 as doubles": else 24.
fn admit(axes: Axes) -> Result<Axes, Refusal>
    ensures { result ≡ admitted axes }
{
    if axes.a > 0.0 && axes.b > 0.0 && axes.c > 0.0 {
        Ok(axes)
    } else {
        Err(Refusal::BadRadius)
    }
}
