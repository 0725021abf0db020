// The answers as C structures, include/globe.h.
ghost use Rattle.std.specs.Prelude.{◌≡◌, Ok, Err};
ghost use Rattle.globe_c.specs.Faces.{narrow, reply_face, fetched_face, counts_face, oriented_face, axes_face};

use pool::reply::{Counts, Refused};
use refusal::{Refusal, number};
use rotation::matrix::Orientation;
use rotation::table::Axes;

#[repr(C)]
#[derive(Clone, Copy)]
pub struct GlobeReply {
    pub number: u32,
    pub line: u32,
    pub column: u32,
}

#[repr(C)]
#[derive(Clone, Copy)]
pub struct GlobeFetched {
    pub number: u32,
    pub line: u32,
    pub column: u32,
    pub count: u32,
}

#[repr(C)]
#[derive(Clone, Copy)]
pub struct GlobeCounts {
    pub number: u32,
    pub line: u32,
    pub column: u32,
    pub texts: u32,
    pub statements: u32,
    pub values: u32,
}

#[repr(C)]
#[derive(Clone, Copy)]
pub struct GlobeOriented {
    pub number: u32,
    pub line: u32,
    pub column: u32,
    pub ra: f64,
    pub dec: f64,
    pub w: f64,
    pub m11: f64,
    pub m12: f64,
    pub m13: f64,
    pub m21: f64,
    pub m22: f64,
    pub m23: f64,
    pub m31: f64,
    pub m32: f64,
    pub m33: f64,
}

#[repr(C)]
#[derive(Clone, Copy)]
pub struct GlobeAxes {
    pub number: u32,
    pub line: u32,
    pub column: u32,
    pub a: f64,
    pub b: f64,
    pub c: f64,
}

pub(crate) fn reply_face(reply: Result<(), Refused>) -> GlobeReply
    ensures { result ≡ reply_face reply }
{
    match reply {
        Ok(()) => GlobeReply {
            number: 0,
            line: 0,
            column: 0,
        },
        Err(refused) => GlobeReply {
            number: number(refused.refusal),
            line: narrow(refused.line),
            column: narrow(refused.column),
        },
    }
}

pub(crate) fn fetched_face(fetched: Result<usize, Refusal>) -> GlobeFetched
    ensures { result ≡ fetched_face fetched }
{
    match fetched {
        Ok(count) => GlobeFetched {
            number: 0,
            line: 0,
            column: 0,
            count: narrow(count),
        },
        Err(refusal) => GlobeFetched {
            number: number(refusal),
            line: 0,
            column: 0,
            count: 0,
        },
    }
}

pub(crate) fn counts_face(counts: Result<Counts, Refusal>) -> GlobeCounts
    ensures { result ≡ counts_face counts }
{
    match counts {
        Ok(held) => GlobeCounts {
            number: 0,
            line: 0,
            column: 0,
            texts: narrow(held.texts),
            statements: narrow(held.statements),
            values: narrow(held.values),
        },
        Err(refusal) => GlobeCounts {
            number: number(refusal),
            line: 0,
            column: 0,
            texts: 0,
            statements: 0,
            values: 0,
        },
    }
}

#[tactic(auto, unfolding(crate::specs::Faces::oriented_face))]
pub(crate) fn oriented_face(oriented: Result<Orientation, Refusal>) -> GlobeOriented
    ensures { result ≡ oriented_face oriented }
{
    match oriented {
        Ok(o) => given(o),
        Err(refusal) => refused(refusal),
    }
}

#[tactic(auto, unfolding(crate::specs::Faces::axes_face))]
pub(crate) fn axes_face(radii: Result<Axes, Refusal>) -> GlobeAxes
    ensures { result ≡ axes_face radii }
{
    match radii {
        Ok(x) => GlobeAxes {
            number: 0,
            line: 0,
            column: 0,
            a: x.a,
            b: x.b,
            c: x.c,
        },
        Err(refusal) => GlobeAxes {
            number: number(refusal),
            line: 0,
            column: 0,
            a: 0.0,
            b: 0.0,
            c: 0.0,
        },
    }
}

fn given(o: Orientation) -> GlobeOriented
    ensures { result ≡ oriented_face (Ok o) }
{
    GlobeOriented {
        number: 0,
        line: 0,
        column: 0,
        ra: o.ra,
        dec: o.dec,
        w: o.w,
        m11: o.m11,
        m12: o.m12,
        m13: o.m13,
        m21: o.m21,
        m22: o.m22,
        m23: o.m23,
        m31: o.m31,
        m32: o.m32,
        m33: o.m33,
    }
}

fn refused(refusal: Refusal) -> GlobeOriented
    ensures { result ≡ oriented_face (Err refusal) }
{
    GlobeOriented {
        number: number(refusal),
        line: 0,
        column: 0,
        ra: 0.0,
        dec: 0.0,
        w: 0.0,
        m11: 0.0,
        m12: 0.0,
        m13: 0.0,
        m21: 0.0,
        m22: 0.0,
        m23: 0.0,
        m31: 0.0,
        m32: 0.0,
        m33: 0.0,
    }
}

// A count in 32 bits: the definition `narrow`, by which `LosesNothing` is stated, takes the remainder.
fn narrow(n: usize) -> u32
    ensures { result ≡ narrow n }
{
    (n % 4294967296) as u32
}
