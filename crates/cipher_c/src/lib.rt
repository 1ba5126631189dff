// The cipher, its modes and the derived keys for C, each by itself: what the benchmark measures and what is compared with another implementation.
// bench/cipher.h declares them. Firmware links crisp_c and not this.
#![tactic(auto)]

ghost use Rattle.std.specs.Prelude.{◌≡◌, cond, leb, length};
ghost use Rattle.octets.specs.Octets.{put};
ghost use Rattle.magma.specs.Magma.{encrypted};
ghost use Rattle.modes.specs.Modes.{magma_check, magma_counter};
ghost use Rattle.derivation.specs.Derivation.{check_key, cipher_key};
ghost use Rattle.format.specs.declared.suite.Suite.TheVariants.{MagmaCtr, MagmaNull};

use derivation::{Derivation, Purpose};
use format::key_data;
use format::suite::Suite;

// The most bytes that the counter mode here takes.
pub const LONGEST: usize = 2048;

// The two keys of suite 1.
#[repr(C)]
#[derive(Drop)]
pub struct BothKeys {
    pub check: [u32; 8],
    pub cipher: [u32; 8],
}

// The key of suite 2.
#[repr(C)]
#[derive(Drop)]
pub struct CheckKey {
    pub check: [u32; 8],
}

// Magma of a block.
#[unsafe(no_mangle)]
pub extern "C" fn cipher_block(key: &[u32; 8], block: u64) -> u64
    ensures { result ≡ encrypted key.now block }
{
    magma::encrypt(key, block)
}

// The check value of the bytes, all 64 bits.
#[unsafe(no_mangle)]
pub extern "C" fn cipher_check(key: &[u32; 8], bytes: &[u8]) -> u64
    ensures { result ≡ magma_check key.now bytes.now }
{
    modes::check_value(key, bytes)
}

// At most 2,048 bytes in counter mode, at the start of the output; false, and nothing written, where there are more.
#[unsafe(no_mangle)]
pub extern "C" fn cipher_counter(
    key: &[u32; 8],
    iv: u32,
    bytes: &[u8],
    out: &mut [u8; LONGEST],
) -> bool
    ensures value { result ≡ leb (length bytes.now) 2048 }
    ensures out_after { out.new ≡ cond (leb (length bytes.now) 2048) (put out.old 0 (magma_counter key.now iv bytes.now)) out.old }
{
    if LONGEST < bytes.len() {
        return false;
    }
    modes::counter(key, iv, bytes, out, 0);
    true
}

// The keys of suite 1, in an edition, for a source of 12 bytes.
#[unsafe(no_mangle)]
pub extern "C" fn cipher_keys_1(
    base: &[u32; 8],
    edition: u8,
    source: &[u8; 12],
    seqnum: u64,
) -> BothKeys
    ensures check { result.check ≡ check_key (record { base = base.now; suite = MagmaCtr; edition = edition; source = source.now; seq_num = seqnum }) }
    ensures cipher { result.cipher ≡ cipher_key (record { base = base.now; suite = MagmaCtr; edition = edition; source = source.now; seq_num = seqnum }) }
{
    let purpose = Purpose {
        suite: Suite::MagmaCtr,
        edition,
        seqnum,
    };
    let keys = Derivation::new(base, purpose, source);
    BothKeys {
        check: keys.check_key(),
        cipher: keys.cipher_key(),
    }
}

// The key of suite 2 for a source of 12 bytes.
#[unsafe(no_mangle)]
pub extern "C" fn cipher_key_2(base: &[u32; 8], source: &[u8; 12], seqnum: u64) -> CheckKey
    ensures { result.check ≡ check_key (record { base = base.now; suite = MagmaNull; edition = 2; source = source.now; seq_num = seqnum }) }
{
    let purpose = Purpose {
        suite: Suite::MagmaNull,
        edition: key_data::MSB,
        seqnum,
    };
    let keys = Derivation::new(base, purpose, source);
    CheckKey {
        check: keys.check_key(),
    }
}
