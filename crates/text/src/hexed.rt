// Bytes in hex, as the digits that write them: compared, cut and read as numbers where they stand.
ghost use Rattle.std.specs.Prelude.{◌≡◌, ◌+◌, ◌*◌, ◌<◌, ◌≤◌, ◌^◌, [], ◌∷◌, length};
ghost use Rattle.octets.specs.Octets.{Bytes, big_endian, part, same};
ghost use Rattle.text.specs.Reading.{value_of};
ghost use Rattle.text.specs.Found.{unhexed, Digits};

// Bytes in hex, where they stand. The bytes that the digits write are `written`.
#[derive(Clone, Copy)]
pub struct Hex<'a> {
    pub digits: &'a [u8],
    pub ghost in_hex: { Digits digits.now },
}

impl<'a> Hex<'a> {
    ghost use Rattle.text.specs.Written.{written};

    // How many bytes.
    pub fn len(&self) -> usize
        ensures { result ≡ length (written self.now) }
    {
        self.digits.len() / 2
    }

    // Whether they are these.
    pub fn is(&self, bytes: &[u8]) -> bool
        ensures { result ≡ same bytes.now (written self.now) }
    {
        same_hex(self.digits, 0, self.len(), bytes)
    }

    // The n of them at a place.
    pub fn part(&self, at: usize, n: usize) -> Hex<'a>
        requires { at + n ≤ length (written self.now) }
        ensures value { written result ≡ part at n (written self.now) }
        ensures digits { result.digits.now ≡ part (2 * at) (2 * n) self.now.digits.now }
    {
        let digits = self.digits;
        Hex {
            digits: &digits[2 * at..2 * at + 2 * n],
        }
    }

    // The number that they write.
    pub fn number(&self) -> u64
        requires { length (written self.now) ≤ 8 }
        ensures { (result ≡ big_endian (length (written self.now)) (written self.now)) × (result < 2 ^ (8 * length (written self.now))) }
    {
        hex_number(self.digits, 0, self.len())
    }
}

// The number that n bytes in hex at `at` write.
pub fn hex_number(text: &[u8], at: usize, n: usize) -> u64
    requires { (at + 2 * n ≤ length text.now) × (n ≤ 8) × Bytes (unhexed (part at (2 * n) text.now)) }
    ensures { (result ≡ big_endian n (unhexed (part at (2 * n) text.now))) × (result < 2 ^ (8 * n)) }
{
    let mut number = 0;
    for pair in text[at..at + 2 * n].chunks_exact(2) {
        number = number * 256 + byte(pair);
    }
    number
}

// Whether these bytes are the ones that `count` pairs of digits at `at` write.
pub fn same_hex(text: &[u8], at: usize, count: usize, bytes: &[u8]) -> bool
    requires { at + 2 * count ≤ length text.now }
    ensures { result ≡ same bytes.now (unhexed (part at (2 * count) text.now)) }
{
    if count != bytes.len() {
        return false;
    }
    for (pair, x) in text[at..at + 2 * count].chunks_exact(2).zip(bytes) {
        if byte(pair) != u64::from(*x) {
            return false;
        }
    }
    true
}

// What two digits in hex write; of other bytes it may be more than a byte.
fn byte(pair: &[u8]) -> u64
    requires { length pair.now ≡ 2 }
    ensures { unhexed pair.now ≡ result ∷ [] }
{
    value(pair[0]) * 16 + value(pair[1])
}

// What a digit in hex stands for.
fn value(c: u8) -> u64
    ensures { (result ≡ value_of c) × (result < 256) }
{
    if c <= b'9' {
        u64::from(c.saturating_sub(b'0'))
    } else {
        u64::from(c.saturating_sub(87))
    }
}
