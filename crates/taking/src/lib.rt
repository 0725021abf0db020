// Parts of a text taken in, one after the other: document 02, K5, "fed with parts of any length, also of none".
#![tactic(auto)]

pub mod counts;
pub mod line;
pub mod part;

ghost use Rattle.taking.specs.Taking.{Fine, Takes};

use crate::part::take_part;
use bookmark::mark::Bookmark;

// One part, the open text's bookmark being changed where it lies: document 01, "one thin feeding call changes it through &mut".
pub fn feed_part(pool: &mut [u64], b: &mut Bookmark, part: &[u8])
    requires { Fine pool.old b.old }
    ensures { Takes pool.old b.old part.now pool.new b.new }
{
    *b = take_part(pool, *b, part);
}

// The same by value: callers of this one need no walk by hand.
pub fn via(pool: &mut [u64], b: Bookmark, part: &[u8]) -> Bookmark
    requires { Fine pool.old b }
    ensures { Takes pool.old b part.now pool.new result }
{
    let mut s = b;
    feed_part(pool, &mut s, part);
    s
}
