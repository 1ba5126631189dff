// Numbers and bytes as text: decimals, hex, and fields and lines of it, written here and read in `reading`.
#![tactic(auto)]

ghost use Rattle.std.specs.Prelude.{◌≡◌, ◌+◌, ◌*◌, ◌≤◌, ◌<◌, length};
ghost use Rattle.octets.specs.Octets.{put};
ghost use Rattle.text.specs.Text.{decimal_of, glyph, hex_of, decimal_field, decimal_line, hex_line};

mod hexed; // hexed.rt: bytes in hex, as the digits that write them
pub mod reading; // reading.rt: lines, read from the front of a text

pub(crate) const LINE_FEED: u8 = 10;

// Digits of the longest number of 64 bits in decimal.
const DIGITS: usize = 20;

// A name, a number in decimal and a line feed are written at `at`. Answers where they end.
pub fn write_decimal_line(name: &[u8], number: u64, out: &mut [u8], at: usize) -> usize
    requires { (length name.now ≤ 16) × (at + 64 ≤ length out.old) }
    ensures value { (result ≡ at + length (decimal_line name.now number)) × (result ≤ at + length name.now + 21) }
    ensures out_after { out.new ≡ put out.old at (decimal_line name.now number) }
{
    let end = write_decimal_field(name, number, out, at);
    out[end] = LINE_FEED;
    end + 1
}

// A name and a number in decimal are written at `at`. Answers where they end.
pub fn write_decimal_field(name: &[u8], number: u64, out: &mut [u8], at: usize) -> usize
    requires { (length name.now ≤ 16) × (at + length name.now + 20 ≤ length out.old) }
    ensures value { (result ≡ at + length (decimal_field name.now number)) × (result ≤ at + length name.now + 20) }
    ensures out_after { out.new ≡ put out.old at (decimal_field name.now number) }
{
    octets::copy(name, out, at);
    write_decimal(number, out, at + name.len())
}

// A name, bytes in hex and a line feed are written at `at`. Answers where they end.
pub fn write_hex_line(name: &[u8], bytes: &[u8], out: &mut [u8], at: usize) -> usize
    requires { (length name.now ≤ 16) × (at + length name.now + 2 * length bytes.now < length out.old) }
    ensures value { (result ≡ at + length (hex_line name.now bytes.now)) × (result ≡ at + length name.now + 2 * length bytes.now + 1) }
    ensures out_after { out.new ≡ put out.old at (hex_line name.now bytes.now) }
{
    octets::copy(name, out, at);
    let end = write_hex(bytes, out, at + name.len());
    out[end] = LINE_FEED;
    end + 1
}

// A number in decimal is written at `at`. Answers where it ends. The digits come from the last to the first; how many there are is known only when
// nothing is left.
fn write_decimal(number: u64, out: &mut [u8], at: usize) -> usize
    requires { at + 20 ≤ length out.old }
    ensures value { (result ≡ at + length (decimal_of number)) × (result ≤ at + 20) }
    ensures out_after { out.new ≡ put out.old at (decimal_of number) }
{
    let mut digits = [0u8; DIGITS];
    let mut start = DIGITS;
    let mut left = number;
    while 10 <= left {
        start -= 1;
        digits[start] = b'0' + ((left % 10) as u8);
        left /= 10;
    }
    start -= 1;
    digits[start] = b'0' + (left as u8);
    octets::copy(&digits[start..], out, at);
    at + (DIGITS - start)
}

// Bytes in hex, two digits each, are written at `at`. Answers where they end.
fn write_hex(bytes: &[u8], out: &mut [u8], at: usize) -> usize
    requires { at + 2 * length bytes.now ≤ length out.old }
    ensures value { result ≡ at + 2 * length bytes.now }
    ensures out_after { out.new ≡ put out.old at (hex_of bytes.now) }
{
    for (i, byte) in bytes.iter().enumerate() {
        out[at + 2 * i] = digit(*byte / 16);
        out[at + 2 * i + 1] = digit(*byte % 16);
    }
    at + 2 * bytes.len()
}

// A digit in hex.
fn digit(d: u8) -> u8
    requires { d < 16 }
    ensures { result ≡ glyph d }
{
    if d < 10 { 48 + d } else { 87 + d }
}
