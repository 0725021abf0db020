// "the variables in byte order of names, each with its count, then how many values these variables have together and the bits of
// each, in the same order": of an undamaged pool.
#![tactic(auto)]

mod values;

ghost use Rattle.std.specs.Prelude.{◌≡◌, length};
ghost use Rattle.words.specs.Placed.{Writes};
ghost use Rattle.names.specs.Names.{unpacked};
ghost use Rattle.layout.specs.Limits.{STATEMENTS};
ghost use Rattle.layout.specs.Memory.{decode};
ghost use Rattle.shown.specs.Shown.{shown};
ghost use Rattle.shown.specs.Shows.{Adding, Adds, listed, Counting, Counts, Showing};

use layout::undamaged::Undamaged;
use order::in_words::{name_at, spread};
use order::order;
use pen::write_entry;
use value::classes::{Class, run};
use values::show_values;
use variables::legal::Legal;
use variables::walk::walk;

// Where the next byte of the output goes, and how many values were counted.
#[derive(Clone, Copy)]
pub struct Ends {
    pub at: usize,
    pub total: usize,
}

pub fn show(pool: &[u64], out: &mut [u8]) -> usize
    requires { Showing pool.now out.old }
    ensures { Writes 0 (shown (decode pool.now)) out.old result out.new }
{
    let pool = Undamaged { words: pool };
    let mut places = no_places();
    let count = order(pool.names(), &mut places);
    let lines = write_entry(out, 0, b"variables", count as u64);
    let ordered = &places[..count];
    let ends = show_counts(pool, ordered, out, lines);
    let values = write_entry(out, ends.at, b"values", ends.total as u64);
    show_values(pool, ordered, out, values)
}

// Room for the place of every statement's name.
fn no_places() -> [usize; 512]
    ensures { STATEMENTS ≡ length result }
{
    [0; 512]
}

// The variables at these places, each with its count; the counts are added up.
fn show_counts(pool: Undamaged, places: &[usize], out: &mut [u8], at: usize) -> Ends
    requires { Counting pool.words.now (length places.now) places.now at out.old }
    ensures { Counts pool.entry.words.now (listed pool.entry.words.now (length places.now) places.now) at out.old result out.new }
{
    let names = pool.names();
    let mut ends = Ends { at, total: 0 };
    for place in places {
        let words = name_at(names, *place);
        ends = show_count(pool, words, out, ends);
    }
    ends
}

// One variable with its count.
fn show_count(pool: Undamaged, words: &[u64], out: &mut [u8], ends: Ends) -> Ends
    requires { Adding pool.words.now words.now ends out.old }
    ensures { Adds pool.entry.words.now (unpacked words.now) ends out.old result out.new }
{
    let mut room = [0u8; 32];
    spread(words, &mut room);
    let name = Legal {
        bytes: run(Class::Name, &room, 0),
    };
    let count = walk(pool, name).count;
    let at = write_entry(out, ends.at, name.bytes, count as u64);
    Ends {
        at,
        total: ends.total + count,
    }
}
