// Counter mode, block by block straight from the data into the output.
ghost use Rattle.std.specs.Prelude.{◌≡◌, ◌+◌, ◌^◌, ◌<◌, ◌≤◌, length};
ghost use Rattle.octets.specs.Octets.{put};
ghost use Rattle.modes.specs.Modes.{byte_of, masked, magma_counter};

// The bytes, enciphered or deciphered, are written at `at`; the other bytes of the output stay.
pub fn counter(key: &[u32; 8], iv: u32, bytes: &[u8], out: &mut [u8], at: usize)
    requires { (at + length bytes.now ≤ length out.old) × (length bytes.now ≤ 2 ^ 35) }
    ensures { out.new ≡ put out.old at (magma_counter key.now iv bytes.now) }
{
    let first = u64::from(iv) << 32;
    for (k, block) in bytes.chunks(8).enumerate() {
        let gamma = magma::encrypt(key, first + (k as u64));
        mask(gamma, block, out, at + 8 * k);
    }
}

// At most a block of bytes, each exclusive or its byte of the gamma, is written at `at`.
fn mask(gamma: u64, bytes: &[u8], out: &mut [u8], at: usize)
    requires { (length bytes.now ≤ 8) × (at + length bytes.now ≤ length out.old) }
    ensures { out.new ≡ put out.old at (masked (byte_of 8 gamma) 0 bytes.now) }
{
    for (i, byte) in bytes.iter().enumerate() {
        out[at + i] = *byte ^ byte_at(gamma, i);
    }
}

// Byte i of a block, the first the highest.
fn byte_at(block: u64, i: usize) -> u8
    requires { i < 8 }
    ensures { result ≡ byte_of 8 block i }
{
    ((block >> (8 * (7 - i))) % 256) as u8
}
