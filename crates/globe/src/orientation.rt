// An orientation from a pool: 15, 9, 10, 11, 23, 16, 12, or document 01's evaluation.
ghost use Rattle.std.specs.Prelude.{◌≡◌, Some};
ghost use Rattle.layout.specs.Memory.{decode};
ghost use Rattle.globe.specs.Orientation.{orientation_reply, orientation_from, by_elements};
ghost use Rattle.globe.specs.declared.source.Source.TheVariants as Source;

use layout::undamaged::Undamaged;
use nutation::answer::by_nutation;
use refusal::Refusal;
use rotation::epoch;
use rotation::matrix::Orientation;
use wanted::code::Body;
use wanted::elements;
use wanted::name::Wanted;

// 15 first.
#[tactic(auto, unfolding(crate::specs::Orientation::orientation_reply))]
pub fn from_pool(pool: &[u64], code: u32, epoch: f64) -> Result<Orientation, Refusal>
    ensures { result ≡ orientation_reply Source.Pool pool.now code epoch }
{
    let pool = Undamaged::of(pool).ok_or(Refusal::DamagedPool)?;
    at_epoch(pool, code, epoch)
}

// 9, then 10 for a code of no system.
#[tactic(auto, unfolding(crate::specs::Orientation::orientation_from))]
fn at_epoch(pool: Undamaged, code: u32, epoch: f64) -> Result<Orientation, Refusal>
    ensures { result ≡ orientation_from (decode pool.entry.words.now) code epoch }
{
    if !epoch::in_reach(epoch) {
        return Err(Refusal::Epoch);
    }
    let body = Body::of(code).ok_or(Refusal::UnknownBody)?;
    by_elements(pool, body, epoch)
}

// "None of the three present: 10; some missing: 11." The rest is by nutation.
fn by_elements(pool: Undamaged, body: Body, epoch: f64) -> Result<Orientation, Refusal>
    ensures { result ≡ by_elements (decode pool.entry.words.now) body.code.number epoch (Some body.system.number) }
{
    let ra = elements::polynomial_of(pool, body.code, Wanted::PoleRa);
    let dec = elements::polynomial_of(pool, body.code, Wanted::PoleDec);
    let pm = elements::polynomial_of(pool, body.code, Wanted::Pm);
    let held = elements::count_held(ra, dec, pm);
    if held == 0 {
        return Err(Refusal::UnknownBody);
    }
    if held < 3 {
        return Err(Refusal::Incomplete);
    }
    let base = elements::assemble(ra, dec, pm);
    by_nutation(pool, body, epoch, base)
}
