// The C face: the calls of include/globe.h, each a call of `globe` or `drive` with its answer as a C structure.
#![tactic(auto)]

mod face;
mod motor;

ghost use Rattle.std.specs.Prelude.{◌≡◌, [], length};
ghost use Rattle.layout.specs.Limits.{WORDS};
ghost use Rattle.pool.specs.Empty.{empty_reply, clear_reply, emptied};
ghost use Rattle.loading.specs.Load.{load_reply, load_memory};
ghost use Rattle.intake.specs.Calls.{open_reply, open_memory, feed_reply, feed_memory, close_reply, close_memory, drop_memory};
ghost use Rattle.pool.specs.Remove.{remove_reply, remove_memory};
ghost use Rattle.pool.specs.Fetch.{fetch_reply, fetch_buffer};
ghost use Rattle.pool.specs.FetchString.{string_reply, string_buffer};
ghost use Rattle.pool.specs.Totals.{totals_reply};
ghost use Rattle.globe.specs.Orientation.{orientation_reply};
ghost use Rattle.globe.specs.Radii.{radii_reply};
ghost use Rattle.globe.specs.declared.source.Source.TheVariants.{Pool, Builtin};
ghost use Rattle.globe_c.specs.Faces.{Changes, Fetches, counts_face, oriented_face, axes_face};
ghost use Rattle.globe_c.specs.Motor.{ShowsPosition, ShowsMotion};

use drive::calls::{position, step};
pub use face::{GlobeAxes, GlobeCounts, GlobeFetched, GlobeOriented, GlobeReply};
use globe::source::Source;
use layout::limits::WORDS;
pub use motor::{GlobeMotion, GlobePosition};

#[unsafe(no_mangle)]
pub extern "C" fn globe_pool_words() -> usize
    ensures { result ≡ WORDS }
{
    WORDS
}

#[unsafe(no_mangle)]
pub extern "C" fn globe_make_empty(pool: &mut [u64]) -> GlobeReply
    ensures { Changes (empty_reply pool.old) (emptied (empty_reply pool.old) pool.old) result pool.new }
{
    face::reply_face(calls::make_empty(pool))
}

#[unsafe(no_mangle)]
pub extern "C" fn globe_load(pool: &mut [u64], label: u32, text: &[u8]) -> GlobeReply
    ensures { Changes (load_reply label text.now pool.old) (load_memory label text.now pool.old) result pool.new }
{
    face::reply_face(calls::load(pool, label, text))
}

#[unsafe(no_mangle)]
pub extern "C" fn globe_open(pool: &mut [u64], label: u32) -> GlobeReply
    ensures { Changes (open_reply label pool.old) (open_memory label pool.old) result pool.new }
{
    face::reply_face(calls::open_text(pool, label))
}

#[unsafe(no_mangle)]
pub extern "C" fn globe_feed(pool: &mut [u64], part: &[u8]) -> GlobeReply
    ensures { Changes (feed_reply pool.old) (feed_memory part.now pool.old) result pool.new }
{
    face::reply_face(calls::feed_text(pool, part))
}

#[unsafe(no_mangle)]
pub extern "C" fn globe_close(pool: &mut [u64]) -> GlobeReply
    ensures { Changes (close_reply pool.old) (close_memory pool.old) result pool.new }
{
    face::reply_face(calls::close_text(pool))
}

#[unsafe(no_mangle)]
pub extern "C" fn globe_drop(pool: &mut [u64]) -> GlobeReply
    ensures { Changes (feed_reply pool.old) (drop_memory pool.old) result pool.new }
{
    face::reply_face(calls::drop_text(pool))
}

#[unsafe(no_mangle)]
pub extern "C" fn globe_remove(pool: &mut [u64], label: u32) -> GlobeReply
    ensures { Changes (remove_reply label pool.old) (remove_memory label pool.old) result pool.new }
{
    face::reply_face(calls::remove(pool, label))
}

#[unsafe(no_mangle)]
pub extern "C" fn globe_clear(pool: &mut [u64]) -> GlobeReply
    ensures { Changes (clear_reply pool.old) (emptied (clear_reply pool.old) pool.old) result pool.new }
{
    face::reply_face(calls::clear(pool))
}

#[unsafe(no_mangle)]
pub extern "C" fn globe_fetch(pool: &[u64], name: &[u8], buffer: &mut [f64]) -> GlobeFetched
    ensures { Fetches (fetch_reply name.now (length buffer.old) pool.now) (fetch_buffer name.now pool.now buffer.old) result buffer.new }
{
    face::fetched_face(calls::fetch(pool, name, buffer))
}

#[unsafe(no_mangle)]
pub extern "C" fn globe_fetch_string(
    pool: &[u64],
    name: &[u8],
    place: usize,
    buffer: &mut [u8],
) -> GlobeFetched
    ensures { Fetches (string_reply name.now place (length buffer.old) pool.now) (string_buffer name.now place pool.now buffer.old) result buffer.new }
{
    face::fetched_face(calls::fetch_string(pool, name, place, buffer))
}

#[unsafe(no_mangle)]
pub extern "C" fn globe_totals(pool: &[u64]) -> GlobeCounts
    ensures { result ≡ counts_face (totals_reply pool.now) }
{
    face::counts_face(calls::totals(pool))
}

#[unsafe(no_mangle)]
pub extern "C" fn globe_orientation(pool: &[u64], body: u32, epoch: f64) -> GlobeOriented
    ensures { result ≡ oriented_face (orientation_reply Pool pool.now body epoch) }
{
    face::oriented_face(calls::orientation(Source::Pool, pool, body, epoch))
}

#[unsafe(no_mangle)]
pub extern "C" fn globe_builtin_orientation(body: u32, epoch: f64) -> GlobeOriented
    ensures { result ≡ oriented_face (orientation_reply Builtin [] body epoch) }
{
    let none: [u64; 0] = [];
    face::oriented_face(calls::orientation(Source::Builtin, &none, body, epoch))
}

#[unsafe(no_mangle)]
pub extern "C" fn globe_radii(pool: &[u64], body: u32) -> GlobeAxes
    ensures { result ≡ axes_face (radii_reply Pool pool.now body) }
{
    face::axes_face(calls::radii(Source::Pool, pool, body))
}

#[unsafe(no_mangle)]
pub extern "C" fn globe_builtin_radii(body: u32) -> GlobeAxes
    ensures { result ≡ axes_face (radii_reply Builtin [] body) }
{
    let none: [u64; 0] = [];
    face::axes_face(calls::radii(Source::Builtin, &none, body))
}

#[unsafe(no_mangle)]
pub extern "C" fn globe_drive_position(
    pool: &[u64],
    body: u32,
    epoch: f64,
    ring: u32,
) -> GlobePosition
    ensures { ShowsPosition Pool pool.now body epoch ring result }
{
    motor::position_face(position(Source::Pool, pool, body, epoch, ring))
}

#[unsafe(no_mangle)]
pub extern "C" fn globe_drive_builtin_position(body: u32, epoch: f64, ring: u32) -> GlobePosition
    ensures { ShowsPosition Builtin [] body epoch ring result }
{
    let none: [u64; 0] = [];
    motor::position_face(position(Source::Builtin, &none, body, epoch, ring))
}

#[unsafe(no_mangle)]
pub extern "C" fn globe_drive_move(
    pool: &[u64],
    body: u32,
    epoch: f64,
    ring: u32,
    present: u32,
) -> GlobeMotion
    ensures { ShowsMotion Pool pool.now body epoch ring present result }
{
    motor::motion_face(step(Source::Pool, pool, body, epoch, ring, present))
}

#[unsafe(no_mangle)]
pub extern "C" fn globe_drive_builtin_move(
    body: u32,
    epoch: f64,
    ring: u32,
    present: u32,
) -> GlobeMotion
    ensures { ShowsMotion Builtin [] body epoch ring present result }
{
    let none: [u64; 0] = [];
    motor::motion_face(step(Source::Builtin, &none, body, epoch, ring, present))
}
