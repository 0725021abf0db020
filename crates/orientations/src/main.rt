// The built-in source at chosen bodies and epochs: for every body and epoch its orientation, then every body's radii.
// `stdout` is what an implementation of its own, rust/twin, prints at the same bodies and epochs.
#![tactic(auto)]

mod answers;

use std::io;

const CODES: [u32; 21] = [
    10, 199, 299, 399, 499, 599, 699, 799, 899, 999, 0, 1, 9, 11, 99, 100, 101, 301, 998, 1000,
    4294967295,
];

const EPOCHS: [f64; 32] = [
    0.0,
    -0.0,
    1.0,
    -1.0,
    0.5,
    5e-324,
    -5e-324,
    2.2250738585072014e-308,
    1e-9,
    86400.0,
    -86400.0,
    43200.0,
    3155760000.0,
    -3155760000.0,
    123456789.125,
    646272069.184,
    -1234567890.0625,
    31557600000.0,
    99999999999.5,
    -98765432109.875,
    7.0e10,
    -5.1e10,
    157787999999.99997,
    157788000000.0,
    -157788000000.0,
    157788000000.00003,
    -157788000000.00003,
    1e300,
    1.7976931348623157e308,
    f64::NAN,
    f64::INFINITY,
    f64::NEG_INFINITY,
];

fn main(rt: HostRuntime) -> io::Result<()> {
    for code in CODES {
        for epoch in EPOCHS {
            answers::orientation(&rt, code, epoch)?;
        }
    }
    for code in CODES {
        answers::radii(&rt, code)?;
    }
    Ok(())
}
