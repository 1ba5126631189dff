// Derived keys: what a base key, the source, the suite, the edition and SeqNum make.
#![tactic(auto)]

ghost use Rattle.std.specs.Prelude.{◌∷◌, ◌≡◌, ◌+◌, ◌<◌, ◌≤◌, length, drop};
ghost use Rattle.octets.specs.Octets.{put};
ghost use Rattle.modes.specs.Modes.{magma_check};
ghost use Rattle.format.specs.Suite.{key_blocks_of};
ghost use Rattle.derivation.specs.Derivation.{Inputs, IsBase, serial_of, iv_of, data_after, block_words, key_from, check_key, cipher_key};

use format::key_data;
use format::suite::Suite;
use magma::Halves;
use modes::CheckKey;
use std::marker::Model;

// What a key is derived for: the suite, the edition and the number of a message.
#[derive(Clone, Copy)]
pub struct Purpose {
    pub suite: Suite,
    pub edition: u8,
    pub seqnum: u64,
}

// What the keys of a message are derived from, with a source of at most 32 bytes and eight words of a base key.
#[derive(Drop)]
pub struct Derivation<'a> {
    base: CheckKey<'a>,
    purpose: Purpose,
    source: &'a [u8],
}

impl<'a> Model for Derivation<'a> {
    ghost use Rattle.std.specs.Prelude.{◌≤◌, length};
    ghost use Rattle.derivation.specs.Derivation.{Inputs, IsBase};

    ghost Value = { Inputs };

    ghost view = { λ d. record { base = d.base; suite = d.purpose.suite; edition = d.purpose.edition; source = d.source.now; seq_num = d.purpose.seqnum } };

    ghost invariant = { λ d. (length d.source.now ≤ 32) × IsBase d.base };
}

// The first of the blocks that make the check key.
pub const CHECK: u8 = 1;

// A block's data with the longest source.
const LONGEST: usize = 50;

// The first of the blocks that make the cipher key: they follow those of the check key.
pub fn cipher_first(suite: Suite) -> u8
    ensures { result ≡ 1 + key_blocks_of suite }
{
    CHECK + suite.key_blocks()
}

impl<'a> Derivation<'a> {
    // From a base key, for a purpose, by a source.
    pub fn new(base: &'a [u32; 8], purpose: Purpose, source: &'a [u8]) -> Derivation<'a>
        requires { length source.now ≤ 32 }
        ensures { result ≡ record { base = base.now; suite = purpose.suite; edition = purpose.edition; source = source.now; seq_num = purpose.seqnum } }
    {
        Derivation {
            base: CheckKey::of(base),
            purpose,
            source,
        }
    }

    // The suite of the message.
    pub fn suite(&self) -> Suite
        ensures { result ≡ self.now.suite }
    {
        self.purpose.suite
    }

    // The number of the message. Whoever is lent a derivation learns here that its base key is one: it has eight words of 32 bits.
    pub fn seqnum(&self) -> u64
        ensures answers { result ≡ self.now.seq_num }
        ensures base { IsBase self.now.base }
    {
        self.purpose.seqnum
    }

    // The IV of the message: SeqNum's low 32 bits.
    pub fn iv(&self) -> u32
        ensures { result ≡ iv_of self.now.seq_num }
    {
        (self.purpose.seqnum % (1 << 32)) as u32
    }

    // The key of the ICV.
    pub fn check_key(&self) -> [u32; 8]
        ensures { result ≡ check_key self.now }
    {
        self.key_from(CHECK)
    }

    // The key of the counter mode.
    pub fn cipher_key(&self) -> [u32; 8]
        ensures { result ≡ cipher_key self.now }
    {
        self.key_from(cipher_first(self.purpose.suite))
    }

    // The key that the blocks from `first` on make, four of Magma's.
    pub fn key_from(&self, first: u8) -> [u32; 8]
        requires { first < 6 }
        ensures { result ≡ key_from self.now first }
    {
        let mut data = [0; LONGEST];
        write_data(self.purpose, self.source, &mut data);
        key_of_blocks(&self.base, &mut data[..18 + self.source.len()], first)
    }
}

// The data of a block, but for its number in the first byte.
fn write_data(purpose: Purpose, source: &[u8], out: &mut [u8])
    requires { (length source.now ≤ 32) × (18 + length source.now ≤ length out.old) }
    ensures { out.new ≡ put out.old 1 (data_after purpose.suite purpose.edition source.now purpose.seqnum) }
{
    let suite = purpose.suite;
    let label = suite.label();
    octets::copy(&label, out, 1);
    octets::write(out, 7, 1, 6);
    octets::write(out, 8, 5, serial(purpose.edition, purpose.seqnum));
    octets::copy(source, out, 13);
    let at = 13 + source.len();
    octets::write(out, at, 1, suite.number() as u64);
    octets::write(out, at + 1, 2, (6 + source.len()) as u64);
    octets::write(out, at + 3, 2, suite.output_bits());
}

// The 35 bits of SeqNum that SN has: in edition 1 its low ones, what is left below 2^35, else its top ones of 48, what stands above 2^13.
fn serial(edition: u8, seqnum: u64) -> u64
    ensures { result ≡ serial_of edition seqnum }
{
    match edition {
        key_data::LSB => seqnum % (1 << 35),
        _ => seqnum >> 13,
    }
}

// The eight words of four blocks, each the check value of the data with the block's number in its first byte.
fn key_of_blocks(base: &CheckKey, bytes: &mut [u8], first: u8) -> [u32; 8]
    requires { (1 ≤ length bytes.old) × (first < 6) }
    ensures { result ≡ block_words (λ i. magma_check base.now (i ∷ drop 1 bytes.old)) first 4 }
{
    let mut words = [0; 8];
    for k in 0..4 {
        bytes[0] = first + (k as u8);
        let block = Halves::from(base.check_value(bytes));
        words[2 * k] = block.high;
        words[2 * k + 1] = block.low;
    }
    words
}
