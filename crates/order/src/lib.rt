// "the variables in byte order of names": the places of a pool's names, in the order of the names, each name once.
#![tactic(auto)]

pub mod in_words;

ghost use Rattle.std.specs.Prelude.{◌≡◌, ◌≤◌, ◌<◌, length};
ghost use Rattle.names.specs.Names.{NAMEWORDS};
ghost use Rattle.order.specs.Places.{Inserting, Inserts, Spotting, Ordering, Orders, name_at, names_at, spot, raised};

use in_words::name_at;
use names::pack::NAMEWORDS;
use std::cmp;

// The names are put in order, from the last one to the first; how many there are.
pub fn order(names: &[u64], places: &mut [usize]) -> usize
    requires { Ordering names.now places.old }
    ensures { Orders names.now places.old result places.new }
{
    let mut held = 0;
    for place in (0..names.len() / NAMEWORDS).rev() {
        held = insert(names, places, held, place);
    }
    held
}

// The name at a place is put among the names held, unless it is one of them. `held` stays beside `places`, for the place behind those held is
// written.
fn insert(names: &[u64], places: &mut [usize], held: usize, place: usize) -> usize
    requires { Inserting names.now held place places.old }
    ensures { Inserts names.now held place places.old result places.new }
{
    let Some(at) = spot_of(names, &places[..held], place) else {
        return held;
    };
    raise(places, at, held, place);
    held + 1
}

// Where the name at a place belongs among the names held, in order, if it is not held yet.
fn spot_of(names: &[u64], held: &[usize], place: usize) -> Option<usize>
    requires { Spotting names.now place held.now }
    ensures { result ≡ spot (name_at names.now place) (names_at names.now (length held.now) held.now) }
{
    let name = name_at(names, place);
    for (at, other) in held.iter().enumerate() {
        match name.cmp(name_at(names, *other)) {
            cmp::Ordering::Less => return Some(at),
            cmp::Ordering::Equal => return None,
            cmp::Ordering::Greater => {}
        }
    }
    Some(held.len())
}

// The place is stored, and those from there on move up by one.
fn raise(places: &mut [usize], at: usize, held: usize, place: usize)
    requires { (at ≤ held) × (held < length places.old) }
    ensures { places.new ≡ raised at held place places.old }
{
    places.copy_within(at..held, at + 1);
    places[at] = place;
}
