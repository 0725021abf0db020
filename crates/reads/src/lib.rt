// The names that a query may read: document 02, K14, "Which names a query may read is listed in docs/ and proved to be all of them."
#![tactic(auto)]

ghost use Rattle.std.specs.Prelude.{[], ◌≤◌, get_or, length, Some};
ghost use Rattle.words.specs.Placed.{Writes};
ghost use Rattle.reads.specs.Names.{LONGEST_NAME, orientation_names, radii_names, Tells};

use wanted::code::Body;
use wanted::name::{Wanted, spell};

// What is asked of a pool about a body.
#[derive(Clone, Copy)]
pub enum Asked {
    Orientation,
    Radii,
}

// Room for the longest name of a text.
const LONGEST_NAME: usize = 32;

// The name at a place of the list, from 0, is written from the buffer's start; the answer is its length.
// Nothing is written where there is no such name, or no room for any.
pub fn name_read(asked: Asked, code: u32, place: usize, out: &mut [u8]) -> usize
    ensures { Tells asked code place out.old result out.new }
{
    if out.len() < LONGEST_NAME {
        return 0;
    }
    let Some(body) = Body::of(code) else {
        return 0;
    };
    match asked {
        Asked::Orientation => for_orientation(body, place, out),
        Asked::Radii => for_radii(body, place, out),
    }
}

// Six of the body and two of its system. A table of them would be no plainer: here each place stands beside its name and whose it is.
fn for_orientation(body: Body, place: usize, out: &mut [u8]) -> usize
    requires { LONGEST_NAME ≤ length out.old }
    ensures { Writes 0 (get_or (orientation_names body.code.number (Some body.system.number)) place []) out.old result out.new }
{
    match place {
        0 => spell(body.code, Wanted::PoleRa, out),
        1 => spell(body.code, Wanted::PoleDec, out),
        2 => spell(body.code, Wanted::Pm, out),
        3 => spell(body.code, Wanted::NutPrecRa, out),
        4 => spell(body.code, Wanted::NutPrecDec, out),
        5 => spell(body.code, Wanted::NutPrecPm, out),
        6 => spell(body.system, Wanted::NutPrecAngles, out),
        7 => spell(body.system, Wanted::MaxPhaseDegree, out),
        _ => 0,
    }
}

// One of the body.
fn for_radii(body: Body, place: usize, out: &mut [u8]) -> usize
    requires { LONGEST_NAME ≤ length out.old }
    ensures { Writes 0 (get_or (radii_names body.code.number (Some body.system.number)) place []) out.old result out.new }
{
    match place {
        0 => spell(body.code, Wanted::Radii, out),
        _ => 0,
    }
}
