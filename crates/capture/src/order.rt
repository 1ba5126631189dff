// A file's header: which byte of its numbers comes first, or that it is no capture that can be read.
ghost use Rattle.std.specs.Prelude.{◌≡◌, ◌≤◌, length};
ghost use Rattle.capture.specs.Capture.{magic_of, order_of, order_number, order_numbered};

use crate::digits;
use answers::Refusal;

// Bytes of a file's header, and of the longest file.
pub const HEADER: usize = 24;

pub const LONGEST: usize = 65536;

// What the header has to say, and where: the magic number, the version's two numbers, the link type.
const MAGIC_AT: usize = 0;

const MAGIC: u64 = 0xa1b2c3d4;

const MAJOR_AT: usize = 4;

const MAJOR: u64 = 2;

const MINOR_AT: usize = 6;

const MINOR: u64 = 4;

const LINK_TYPE_AT: usize = 20;

const LINK_TYPE: u64 = 147;

// The two orders by number.
const HIGH_FIRST: u64 = 1;

const LOW_FIRST: u64 = 2;

// Which byte of a file's numbers comes first.
#[derive(Clone, Copy)]
pub enum Order {
    HighFirst,
    LowFirst,
}

impl Order {
    // A file's order by number, for a caller that has no enums: 1, 2, and 17 where it has none.
    pub fn number(order: Option<Order>) -> u64
        ensures { result ≡ order_number order }
    {
        match order {
            Some(Order::HighFirst) => HIGH_FIRST,
            Some(Order::LowFirst) => LOW_FIRST,
            None => Refusal::BadCapture.number(),
        }
    }

    // The order of that number; none where no order has it. Below and above are asked first: then the compiler makes one test of both.
    pub fn numbered(number: u64) -> Option<Order>
        ensures { result ≡ order_numbered number }
    {
        if number < HIGH_FIRST {
            return None;
        }
        if LOW_FIRST < number {
            return None;
        }
        if number == HIGH_FIRST {
            return Some(Order::HighFirst);
        }
        Some(Order::LowFirst)
    }
}

// The order of a file's numbers; none (reply 17) where the size is not 24 to 65,536 bytes or the header is bad.
pub fn order_of(file: &[u8]) -> Option<Order>
    ensures { result ≡ order_of file.now }
{
    if file.len() < HEADER {
        return None;
    }
    if LONGEST < file.len() {
        return None;
    }
    let order = magic_of(file)?;
    let major = digits::number(file, order, MAJOR_AT, 2);
    if major != MAJOR {
        return None;
    }
    let minor = digits::number(file, order, MINOR_AT, 2);
    if minor != MINOR {
        return None;
    }
    let link_type = digits::number(file, order, LINK_TYPE_AT, 4);
    if link_type != LINK_TYPE {
        return None;
    }
    Some(order)
}

// The order in which a file's first four bytes are the magic number.
fn magic_of(file: &[u8]) -> Option<Order>
    requires { 4 ≤ length file.now }
    ensures { result ≡ magic_of file.now }
{
    if digits::number(file, Order::HighFirst, MAGIC_AT, 4) == MAGIC {
        return Some(Order::HighFirst);
    }
    if digits::number(file, Order::LowFirst, MAGIC_AT, 4) == MAGIC {
        return Some(Order::LowFirst);
    }
    None
}
