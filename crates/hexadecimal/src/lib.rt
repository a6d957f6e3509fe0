// A 64-bit word as 16 hexadecimal digits, written into a lent buffer.
#![tactic(auto)]

ghost use Rattle.std.specs.Prelude.{◌≡◌, cond, ◌+◌, ◌<◌, ltb};
ghost use Rattle.definitions.specs.Dwell.{hexadecimal};
ghost use Rattle.buffer.specs.Pasted.{Room, Written};

use buffer::Writer;

fn hexadecimal_digit(value: u8) -> u8
    requires { value < 16 }
    ensures { result ≡ cond (ltb value 10) 48 87 + value }
{
    if value < 10 {
        return b'0' + value;
    }
    b'a' - 10 + value
}

// The 16 digits are found from the last to the first.
pub fn put_hexadecimal(word: u64, out: &mut Writer<'_>)
    requires { Room (hexadecimal 16 word) out.old }
    ensures { Written (hexadecimal 16 word) out.old out.new }
{
    let mut digits = [0; 16];
    let mut rest = word;
    for k in (0..16).rev() {
        digits[k] = hexadecimal_digit((rest % 16) as u8);
        rest /= 16;
    }
    out.put_bytes(&digits);
}
