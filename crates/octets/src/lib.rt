// Bytes in slices: big-endian numbers read and written, and bytes and zeros put at a place. `specs/Octets.antt` says what each means.
#![tactic(auto)]

ghost use Rattle.std.specs.Prelude.{◌≡◌, ◌+◌, ◌*◌, ◌^◌, ◌≤◌, ◌<◌, length, drop, replicate};
ghost use Rattle.octets.specs.Octets.{big_endian, bytes_of, put};

// The number that the n bytes at `at` write.
pub fn read(bytes: &[u8], at: usize, n: usize) -> u64
    requires { (at + n ≤ length bytes.now) × (n ≤ 8) }
    ensures { (result ≡ big_endian n (drop at bytes.now)) × (result < 2 ^ (8 * n)) }
{
    let mut number = 0;
    for byte in &bytes[at..at + n] {
        number = number * 256 + u64::from(*byte);
    }
    number
}

// The n lowest bytes of a number, the highest first, are written at `at`.
pub fn write(out: &mut [u8], at: usize, n: usize, number: u64)
    requires { at + n ≤ length out.old }
    ensures { out.new ≡ put out.old at (bytes_of n number) }
{
    let mut rest = number;
    for i in (at..at + n).rev() {
        out[i] = (rest % 256) as u8;
        rest /= 256;
    }
}

// The bytes are written at `at`. By `copy_from_slice` a program would have to bring memmove along; this becomes memcpy.
pub fn copy(bytes: &[u8], out: &mut [u8], at: usize)
    requires { at + length bytes.now ≤ length out.old }
    ensures { out.new ≡ put out.old at bytes.now }
{
    for (i, byte) in bytes.iter().enumerate() {
        out[at + i] = *byte;
    }
}

// n zeros are written at `at`.
pub fn clear(out: &mut [u8], at: usize, n: usize)
    requires { at + n ≤ length out.old }
    ensures { out.new ≡ put out.old at (replicate n 0) }
{
    out[at..at + n].fill(0);
}
