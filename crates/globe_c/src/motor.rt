// The drive's answers as C structures, include/globe.h.
ghost use Rattle.std.specs.Prelude.{◌≡◌};
ghost use Rattle.globe_c.specs.Motor.{position_face, motion_face};

use drive::answer::Motion;
use refusal::{Refusal, number};

#[repr(C)]
#[derive(Clone, Copy)]
pub struct GlobePosition {
    pub number: u32,
    pub line: u32,
    pub column: u32,
    pub position: u32,
}

// The header's `move` is a word of this language.
#[repr(C)]
#[derive(Clone, Copy)]
pub struct GlobeMotion {
    pub number: u32,
    pub line: u32,
    pub column: u32,
    pub target: u32,
    pub way: i32,
}

pub(crate) fn position_face(placed: Result<u32, Refusal>) -> GlobePosition
    ensures { result ≡ position_face placed }
{
    match placed {
        Ok(position) => GlobePosition {
            number: 0,
            line: 0,
            column: 0,
            position,
        },
        Err(refusal) => GlobePosition {
            number: number(refusal),
            line: 0,
            column: 0,
            position: 0,
        },
    }
}

pub(crate) fn motion_face(moved: Result<Motion, Refusal>) -> GlobeMotion
    ensures { result ≡ motion_face moved }
{
    match moved {
        Ok(motion) => GlobeMotion {
            number: 0,
            line: 0,
            column: 0,
            target: motion.target,
            way: motion.way,
        },
        Err(refusal) => GlobeMotion {
            number: number(refusal),
            line: 0,
            column: 0,
            target: 0,
            way: 0,
        },
    }
}
