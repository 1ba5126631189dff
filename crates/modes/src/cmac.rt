// The check value: encrypt the zero block for two subkeys, chain the blocks, and combine the last with its subkey.
ghost use Rattle.std.specs.Prelude.{List, ◌++◌, ◌∷◌, [], ◌≡◌, ℕ, ◌*◌, ◌/◌, ◌%◌, ◌≤◌, length};
ghost use Rattle.octets.specs.Octets.{big_endian};
ghost use Rattle.magma.specs.Magma.{encrypted};
ghost use Rattle.modes.specs.Modes.{doubled, first_subkey, second_subkey, before, chained, check_with, magma_check};

use std::marker::Model;

// A key with the subkeys of its check values: the first for a last block that is full, the second for a shorter one. Contracts see the key.
#[derive(Drop)]
pub struct CheckKey<'k> {
    key: &'k [u32; 8],
    first: u64,
    second: u64,
}

impl<'k> Model for CheckKey<'k> {
    ghost Value = { List ℕ };

    ghost view = { λ k. k.key.now };

    ghost invariant = { λ k. (k.first ≡ first_subkey 8 0x1b (encrypted k.key.now)) × (k.second ≡ second_subkey 8 0x1b (encrypted k.key.now)) };
}

// The whole check value of the bytes. Whoever needs less of it cuts.
pub fn check_value(key: &[u32; 8], bytes: &[u8]) -> u64
    ensures { result ≡ magma_check key.now bytes.now }
{
    CheckKey::of(key).check_value(bytes)
}

impl<'k> CheckKey<'k> {
    // The key with its subkeys, for check values of several pieces of data.
    #[tactic(auto, unfolding(crate::specs::Modes::first_subkey, crate::specs::Modes::second_subkey))]
    pub fn of(key: &'k [u32; 8]) -> CheckKey<'k>
        ensures { result ≡ key.now }
    {
        let first = double(magma::encrypt(key, 0));
        CheckKey {
            key,
            first,
            second: double(first),
        }
    }

    pub fn first_subkey(&self) -> u64
        ensures { result ≡ first_subkey 8 0x1b (encrypted self.now) }
    {
        self.first
    }

    pub fn second_subkey(&self) -> u64
        ensures { result ≡ second_subkey 8 0x1b (encrypted self.now) }
    {
        self.second
    }

    // The whole check value of the bytes.
    pub fn check_value(&self, bytes: &[u8]) -> u64
        ensures { result ≡ magma_check self.now bytes.now }
    {
        check_with(self.key, self.first, self.second, bytes)
    }
}

// The check value with a subkey for a last block that is full and one for a shorter one. By value: lent with the key in a struct, they take its stack.
#[inline(never)]
pub fn check_with(key: &[u32; 8], full: u64, short: u64, bytes: &[u8]) -> u64
    ensures { result ≡ check_with 8 (encrypted key.now) full short bytes.now }
{
    let (front, last) = bytes.split_at(8 * blocks_before(bytes.len()));
    let subkey = if last.len() == 8 { full } else { short };
    magma::encrypt(key, chain(key, front) ^ padded(last) ^ subkey)
}

// A block shifted left by one, with what the top bit asks for.
#[tactic(auto, unfolding(crate::specs::Modes::doubled))]
fn double(block: u64) -> u64
    ensures { result ≡ doubled 8 0x1b block }
{
    (block << 1) ^ ((block >> 63) * 0x1b)
}

// Of n bytes, how many blocks stand before the last.
fn blocks_before(n: usize) -> usize
    ensures { result ≡ before 8 n }
{
    n.saturating_sub(1) / 8
}

// What full blocks come to.
fn chain(key: &[u32; 8], bytes: &[u8]) -> u64
    requires { length bytes.now % 8 ≡ 0 }
    ensures { result ≡ chained 8 (encrypted key.now) bytes.now (length bytes.now / 8) }
{
    let mut chain = 0;
    for block in bytes.chunks_exact(8) {
        chain = magma::encrypt(key, chain ^ octets::read(block, 0, 8));
    }
    chain
}

// The last block: padded with a bit 1 and zeros where it is short.
fn padded(bytes: &[u8]) -> u64
    requires { length bytes.now ≤ 8 }
    ensures { result ≡ big_endian 8 (bytes.now ++ (128 ∷ [])) }
{
    let read = octets::read(bytes, 0, bytes.len());
    if bytes.len() == 8 {
        return read;
    }
    (read * 256 + 128) << (8 * (7 - bytes.len()))
}
