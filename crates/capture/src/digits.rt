// Numbers in a file, in either order of their bytes.
ghost use Rattle.std.specs.Prelude.{◌≡◌, ◌+◌, ◌*◌, ◌^◌, ◌≤◌, ◌<◌, length, drop};
ghost use Rattle.capture.specs.Capture.{little_endian, number_in};

use crate::order::Order;

// The number that the n bytes at `at` write in that order.
pub(crate) fn number(file: &[u8], order: Order, at: usize, n: usize) -> u64
    requires { (at + n ≤ length file.now) × (n ≤ 4) }
    ensures { (result ≡ number_in order n (drop at file.now)) × (result < 2 ^ 32) }
{
    match order {
        Order::HighFirst => octets::read(file, at, n),
        Order::LowFirst => read_low_first(file, at, n),
    }
}

// The number that the n bytes at `at` write, the first byte the lowest. A `for` over them from behind makes each record of a file 10 instructions
// dearer.
fn read_low_first(bytes: &[u8], at: usize, n: usize) -> u64
    requires { (at + n ≤ length bytes.now) × (n ≤ 8) }
    ensures { (result ≡ little_endian n (drop at bytes.now)) × (result < 2 ^ (8 * n)) }
{
    let mut number: u64 = 0;
    let mut i = n;
    while 0 < i {
        i -= 1;
        number = number * 256 + u64::from(bytes[at + i]);
    }
    number
}
