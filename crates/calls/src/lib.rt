// The public face: the calls of documents 01 and 02, each with its whole contract: a record of what it answers and of the memory that it leaves.
#![tactic(auto)]

ghost use Rattle.pool.specs.Empty.{Empties, Clears};
ghost use Rattle.pool.specs.Fetch.{Fetches};
ghost use Rattle.pool.specs.FetchString.{FetchesString};
ghost use Rattle.loading.specs.Load.{Loads};
ghost use Rattle.pool.specs.Remove.{Removes};
ghost use Rattle.pool.specs.Totals.{Totals};
ghost use Rattle.intake.specs.Calls.{Opens, Feeds, Closes, Drops};
ghost use Rattle.globe.specs.Orientation.{Orients};
ghost use Rattle.globe.specs.Radii.{Measures};

use closing::ending;
use globe::calls;
use globe::source::Source;
use intake::{begin, parts};
use loading::load;
use pool::reply::{Counts, Refused};
use pool::{empty, fetch, fetch_string, remove, totals};
use refusal::Refusal;
use rotation::matrix::Orientation;
use rotation::table::Axes;

// A memory of the fixed size is made an empty pool, whatever it held.
pub fn make_empty(pool: &mut [u64]) -> Result<(), Refused>
    ensures { Empties pool.old result pool.new }
{
    empty::make_empty(pool)
}

// A text is put last, under its label; or it is refused, and nothing is written.
pub fn load(pool: &mut [u64], label: u32, text: &[u8]) -> Result<(), Refused>
    ensures { Loads label text.now pool.old result pool.new }
{
    load::load(pool, label, text)
}

// A text is opened under a label, to come in parts; what is held stays as it was.
pub fn open_text(pool: &mut [u64], label: u32) -> Result<(), Refused>
    ensures { Opens label pool.old result pool.new }
{
    begin::open_text(pool, label)
}

// A part more of the open text, of any length.
pub fn feed_text(pool: &mut [u64], part: &[u8]) -> Result<(), Refused>
    ensures { Feeds part.now pool.old result pool.new }
{
    parts::feed_text(pool, part)
}

// The open text is put last, as if its parts had been loaded at once; or it is refused, and open no more.
pub fn close_text(pool: &mut [u64]) -> Result<(), Refused>
    ensures { Closes pool.old result pool.new }
{
    ending::close_text(pool)
}

// The open text counts as never loaded.
pub fn drop_text(pool: &mut [u64]) -> Result<(), Refused>
    ensures { Drops pool.old result pool.new }
{
    parts::drop_text(pool)
}

// The text under a label is taken out.
pub fn remove(pool: &mut [u64], label: u32) -> Result<(), Refused>
    ensures { Removes label pool.old result pool.new }
{
    remove::remove(pool, label)
}

// All texts are taken out.
pub fn clear(pool: &mut [u64]) -> Result<(), Refused>
    ensures { Clears pool.old result pool.new }
{
    empty::clear(pool)
}

// How many texts, statements and values are held.
pub fn totals(pool: &[u64]) -> Result<Counts, Refusal>
    ensures { Totals pool.now result }
{
    totals::totals(pool)
}

// The values of a variable, written from the buffer's start.
pub fn fetch(pool: &[u64], name: &[u8], buffer: &mut [f64]) -> Result<usize, Refusal>
    ensures { Fetches name.now pool.now buffer.old result buffer.new }
{
    fetch::fetch(pool, name, buffer)
}

// The string at a place of a variable, counted from 1, written from the buffer's start.
pub fn fetch_string(
    pool: &[u64],
    name: &[u8],
    place: usize,
    buffer: &mut [u8],
) -> Result<usize, Refusal>
    ensures { FetchesString name.now place pool.now buffer.old result buffer.new }
{
    fetch_string::fetch_string(pool, name, place, buffer)
}

// The orientation of a body at an epoch, in TDB seconds past J2000. The pool is looked at only where it is the source.
pub fn orientation(
    source: Source,
    pool: &[u64],
    code: u32,
    epoch: f64,
) -> Result<Orientation, Refusal>
    ensures { Orients source pool.now code epoch result }
{
    calls::orientation(source, pool, code, epoch)
}

// The radii of a body in km. The pool is looked at only where it is the source.
pub fn radii(source: Source, pool: &[u64], code: u32) -> Result<Axes, Refusal>
    ensures { Measures source pool.now code result }
{
    calls::radii(source, pool, code)
}
