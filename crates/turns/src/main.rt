// Positions and moves of the globe drive, by the built-in source, at chosen bodies, epochs and rings.
// `stdout` is what an implementation of its own, rust/twin, prints at the same ones.
#![tactic(auto)]

mod answers;

use std::io;

const CODES: [u32; 4] = [10, 399, 899, 301];

const EPOCHS: [f64; 8] = [
    0.0,
    43200.0,
    -86164.0,
    123456789.125,
    -98765432109.875,
    157788000000.0,
    157788000000.00003,
    f64::NAN,
];

const RINGS: [u32; 12] = [2, 3, 35, 39, 200, 360, 4095, 4096, 0, 1, 4097, 4294967295];

const PRESENTS: [u32; 7] = [0, 1, 19, 180, 2048, 4095, 4294967295];

fn main(rt: HostRuntime) -> io::Result<()> {
    for code in CODES {
        for epoch in EPOCHS {
            rings(&rt, code, epoch)?;
        }
    }
    Ok(())
}

// The lines of every ring: its position, and the move from every present position.
fn rings(rt: &impl Print, code: u32, epoch: f64) -> io::Result<()> {
    for ring in RINGS {
        answers::position(rt, code, epoch, ring)?;
        for present in PRESENTS {
            answers::step(rt, code, epoch, ring, present)?;
        }
    }
    Ok(())
}
