// Hexadecimal digits, in upper case.
ghost use Rattle.std.specs.Prelude.{◌≡◌, ◌<◌, length};
ghost use Rattle.pen.specs.Digits.{digit_of, digits};

// The last digits of a word, as many as the text has room for.
pub fn spell(w: u64, text: &mut [u8])
    ensures { text.new ≡ digits (length text.old) w }
{
    let mut rest = w;
    for i in (0..text.len()).rev() {
        text[i] = digit(rest % 16);
        rest /= 16;
    }
}

fn digit(d: u64) -> u8
    requires { d < 16 }
    ensures { result ≡ digit_of d }
{
    if d < 10 {
        b'0' + d as u8
    } else {
        b'A' + (d as u8 - 10)
    }
}
