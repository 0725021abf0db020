// Numbers of an input.
ghost use Rattle.std.specs.Prelude.{◌≤◌};

// A number in decimal; none, if the field is no number that fits 64 bits with another digit.
pub fn decimal(field: &[u8]) -> Option<u64> {
    in_base(field, 10)
}

// A number in decimal; 0, if the field is none.
pub fn natural(field: &[u8]) -> u64 {
    decimal(field).unwrap_or(0)
}

// A number in hexadecimal, in upper case; none, as in decimal.
pub fn hexadecimal(field: &[u8]) -> Option<u64> {
    in_base(field, 16)
}

// The largest number that takes another digit in every base.
const LARGEST: u64 = 1152921504606846975;

// The library's `from_str_radix` also takes a sign, lower case and larger numbers.
fn in_base(field: &[u8], base: u64) -> Option<u64>
    requires { base ≤ 16 }
{
    if field.is_empty() {
        return None;
    }
    let mut n = 0;
    for byte in field {
        let d = digit(*byte)?;
        if d >= base || n > LARGEST {
            return None;
        }
        n = n * base + d;
    }
    Some(n)
}

// What a byte is as a digit of base 16.
fn digit(byte: u8) -> Option<u64> {
    match byte {
        b'0'..=b'9' => Some((byte - b'0') as u64),
        b'A'..=b'F' => Some((byte - b'A') as u64 + 10),
        _ => None,
    }
}
