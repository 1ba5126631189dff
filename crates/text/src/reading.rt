// Lines of a text, read from its front: a name, behind it a number in decimal or bytes in hex, and a line feed. Each reader answers a value and the text
// that is left behind its line. Bytes in hex stay where they stand, so that no text needs a buffer.
ghost use Rattle.std.specs.Prelude.{◌≡◌, ◌≤◌, []};
ghost use Rattle.text.specs.Reading.{is_hex, read_digits, read_hex, read_decimal_line, read_hex_line, read_bytes_line, read_number_line};
ghost use Rattle.text.specs.Found.{found, next_of};
ghost use Rattle.text.specs.Written.{found_bytes, Stands};

use crate::LINE_FEED;
pub use crate::hexed::{Hex, hex_number, same_hex};

// A name, a number in decimal and a line feed.
pub fn decimal_line<'a>(name: &[u8], text: &'a [u8]) -> Option<(u64, &'a [u8])>
    ensures { found result ≡ read_decimal_line name.now text.now }
{
    let behind = text.strip_prefix(name)?;
    let (first, rest) = behind.split_first()?;
    if !first.is_ascii_digit() {
        return None;
    }
    digits(rest, u64::from(*first - b'0'))
}

// A name, bytes in hex and a line feed.
pub fn hex_line<'a>(name: &[u8], text: &'a [u8]) -> Option<(Hex<'a>, &'a [u8])>
    ensures found { found_bytes result ≡ read_hex_line name.now text.now }
    ensures stands { Stands name.now text.now result }
{
    let behind = text.strip_prefix(name)?;
    pairs(behind)
}

// A name, n bytes in hex and a line feed.
pub fn bytes_line<'a>(name: &[u8], n: usize, text: &'a [u8]) -> Option<(Hex<'a>, &'a [u8])>
    ensures found { found_bytes result ≡ read_bytes_line name.now n text.now }
    ensures stands { Stands name.now text.now result }
{
    let (bytes, rest) = hex_line(name, text)?;
    if bytes.len() != n {
        return None;
    }
    Some((bytes, rest))
}

// A name, a number of n bytes in hex and a line feed.
pub fn number_line<'a>(name: &[u8], n: usize, text: &'a [u8]) -> Option<(u64, &'a [u8])>
    requires { n ≤ 8 }
    ensures { found result ≡ read_number_line name.now n text.now }
{
    let (bytes, rest) = bytes_line(name, n, text)?;
    Some((bytes.number(), rest))
}

// The digits behind those that write a number, up to the line feed.
fn digits(text: &[u8], first: u64) -> Option<(u64, &[u8])>
    ensures { found result ≡ read_digits first text.now }
{
    let mut number = first;
    for (i, c) in text.iter().enumerate() {
        if *c == LINE_FEED {
            return Some((number, &text[i + 1..]));
        }
        number = with_digit(number, *c)?;
    }
    None
}

// The number with a digit behind it, where one may follow: none follows a 0, and none makes the number too large.
fn with_digit(number: u64, c: u8) -> Option<u64>
    ensures { result ≡ next_of number c }
{
    if !c.is_ascii_digit() {
        return None;
    }
    if number == 0 {
        return None;
    }
    number.checked_mul(10)?.checked_add(u64::from(c - b'0'))
}

// Digits in hex, two a byte, up to the line feed.
fn pairs(text: &[u8]) -> Option<(Hex<'_>, &[u8])>
    ensures found { found_bytes result ≡ read_hex text.now }
    ensures stands { Stands [] text.now result }
{
    for (i, c) in text.iter().enumerate() {
        if !is_hex(*c) {
            if *c != LINE_FEED || i % 2 != 0 {
                return None;
            }
            let digits = &text[..i];
            return Some((Hex { digits }, &text[i + 1..]));
        }
    }
    None
}

// Whether a byte is a digit in lower-case hex.
fn is_hex(c: u8) -> bool
    ensures { result ≡ is_hex c }
{
    matches!(c, b'0'..=b'9' | b'a'..=b'f')
}
