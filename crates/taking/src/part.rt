// A part of a text, from its bytes to complete lines.
ghost use Rattle.std.specs.Prelude.{◌≡◌, false, ◌+◌, ◌≤◌, length, drop};
ghost use Rattle.feeding.specs.Parts.{MOST};
ghost use Rattle.entering.specs.Lines.{Ready};
ghost use Rattle.taking.specs.Taking.{Fine, Takes, Unbroken, Reaches};

use crate::counts::{MOST, capped, more};
use crate::line::{end_line, hold, without_cr};
use bookmark::mark::{Bookmark, Entered};
use entering::line::complete_line;
use value::classes;
use value::classes::Class;

// After the whole lines of a part: how many lines are complete, how long the last of them is, and where in the part the next one begins.
#[derive(Clone, Copy)]
pub struct Reached {
    pub entered: Entered,
    pub number: usize,
    pub long: usize,
    pub at: usize,
}

// One part. Bytes past the limit are counted, up to one, and not read.
pub fn take_part(pool: &mut [u64], b: Bookmark, part: &[u8]) -> Bookmark
    requires { Fine pool.old b }
    ensures { Takes pool.old b part.now pool.new result }
{
    if MOST < b.total {
        return b;
    }
    let free = MOST - b.total;
    if part.len() <= free {
        return take_all(pool, b, part);
    }
    let full = take_all(pool, b, &part[..free]);
    Bookmark {
        total: MOST + 1,
        ..full
    }
}

// A part that passes no limit: its bytes up to the first LF belong to the line that goes on.
fn take_all(pool: &mut [u64], b: Bookmark, part: &[u8]) -> Bookmark
    requires { (Fine pool.old b) × (b.total + length part.now ≤ MOST) }
    ensures { Takes pool.old b part.now pool.new result }
{
    let end = classes::past(Class::Line, part, 0);
    let held = hold(b, &part[..end]);
    if end < part.len() {
        let ended = end_line(pool, held);
        return take_on(pool, ended, &part[end + 1..]);
    }
    held
}

// The same where a line begins with the part.
fn take_on(pool: &mut [u64], b: Bookmark, part: &[u8]) -> Bookmark
    requires { (Ready pool.old b.entered) × (b.kept.used ≡ 0) × (b.pending ≡ false) × (b.total + length part.now ≤ MOST) }
    ensures { Takes pool.old b part.now pool.new result }
{
    let reached = take_lines(pool, b.entered, b.number, b.long, part);
    let lined = Bookmark {
        entered: reached.entered,
        number: reached.number,
        long: reached.long,
        total: b.total + reached.at,
        ..b
    };
    hold(lined, &part[reached.at..])
}

// The whole lines of a part, read where they lie. A `while`, for its place goes on by a line.
fn take_lines(
    pool: &mut [u64],
    entered: Entered,
    number: usize,
    long: usize,
    part: &[u8],
) -> Reached
    requires { Ready pool.old entered }
    ensures { Reaches pool.old entered number long part.now pool.new result
        × Unbroken (drop result.at part.now) }
{
    let mut reached = Reached {
        entered,
        number,
        long,
        at: 0,
    };
    let mut end = classes::past(Class::Line, part, 0);
    while end < part.len() {
        let line = without_cr(&part[reached.at..end]);
        let number = more(reached.number);
        reached = Reached {
            entered: complete_line(pool, reached.entered, number, line),
            number,
            long: capped(line.len()),
            at: end + 1,
        };
        end = classes::past(Class::Line, part, reached.at);
    }
    reached
}
