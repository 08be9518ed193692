//! Bytes are written as lower-case hexadecimal digits.

ghost use Rattle.std.specs.Prelude.{◌≡◌, ◌*◌, ◌<◌, ◌≤◌, length, take, drop};
ghost use Rattle.line_text.specs.Numbers.{hex_digit, hex_of};

/// Writes bytes as lower-case hexadecimal at the front of `buf`, and answers how many digits they are.
pub fn put_hex(bytes: &[u8], buf: &mut [u8]) -> usize
    requires { 2 * length bytes.now ≤ length buf.old }
    ensures count { result ≡ 2 * length bytes.now }
    ensures digits { take result buf.new ≡ hex_of bytes.now }
    ensures rest { drop result buf.new ≡ drop result buf.old }
{
    for (i, byte) in bytes.iter().enumerate() {
        buf[2 * i] = digit_of(*byte / 16);
        buf[2 * i + 1] = digit_of(*byte % 16);
    }
    2 * bytes.len()
}

fn digit_of(value: u8) -> u8
    requires { value < 16 }
    ensures { result ≡ hex_digit value }
{
    if value < 10 {
        b'0' + value
    } else {
        b'a' + (value - 10)
    }
}
