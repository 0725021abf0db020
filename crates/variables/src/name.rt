// The name that is asked for: any bytes, and the names that statements have.
ghost use Rattle.std.specs.Prelude.{◌≡◌, ◌+◌, ◌*◌, ◌≤◌, length};
ghost use Rattle.plain.specs.Lists.{equal};
ghost use Rattle.words.specs.Over.{part};
ghost use Rattle.names.specs.Names.{NAMEWORDS, legal};

use names::pack::NAMEWORDS;
use statement::head::NAME;
use value::classes::{Class, past};
use words::compare::same;
use words::read::part_of;

// "the longest run of letters, digits or underscores, 1 to 32 of them"
pub fn is_legal(name: &[u8]) -> bool
    ensures { result ≡ legal name.now }
{
    (1..=NAME).contains(&name.len()) && past(Class::Name, name, 0) == name.len()
}

// Statement s has the name of these four words.
pub fn is_named(names: &[u64], s: usize, words: &[u64; 4]) -> bool
    requires { NAMEWORDS * s + NAMEWORDS ≤ length names.now }
    ensures { result ≡ equal (part (NAMEWORDS * s) NAMEWORDS names.now) words.now }
{
    same(part_of(names, NAMEWORDS * s, NAMEWORDS), words)
}
