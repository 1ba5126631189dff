// Key data, and whether it is sound.
ghost use Rattle.std.specs.Prelude.{◌≡◌, ◌≤◌, eqb, length, get_or};
ghost use Rattle.std.specs.Bool.{OnTrue};
ghost use Rattle.format.specs.KeyId.{length_asked};
ghost use Rattle.format.specs.KeyData.{goes_with, sound_of};

use crate::key_id::KeyId;
use crate::suite::Suite;
use std::marker::Model;

// Bytes of the longest KeyId, of the shortest and of the longest SourceIdentifier, and of a base key.
pub const GREATEST_KEYID: usize = 128;

pub const LEAST_SOURCE: usize = 4;

pub const GREATEST_SOURCE: usize = 32;

pub const KEY: usize = 32;

// The KeyId that says that there is none.
const ABSENT: u8 = 128;

// Editions, by the bits of SeqNum that SN has: its low ones, as old controllers of suite 1 read a copy that prints LSB, or its top ones.
pub const LSB: u8 = 1;

pub const MSB: u8 = 2;

/// Key data, its bytes lent: an unsound one too.
#[derive(Drop)]
pub struct KeyData<'a> {
    pub flag: u8,
    pub keyid: &'a [u8],
    pub source: &'a [u8],
    pub suite: u8,
    pub edition: u8,
    pub key: &'a [u8],
}

impl<'a> Model for KeyData<'a> {
    ghost use Rattle.format.specs.KeyData.{KeyData, handed_in};

    ghost Value = { KeyData };

    ghost view = { λ k. handed_in k.flag k.keyid.now k.source.now k.suite k.edition k.key.now };
}

impl<'a> KeyData<'a> {
    /// Whether its parts are sound, each by itself and together.
    #[tactic(auto, unfolding(crate::specs::KeyData::sound_of))]
    pub fn is_sound(&self) -> bool
        ensures answers { result ≡ sound_of self.now }
        ensures room { OnTrue result (length self.now.key_id ≤ 128) }
    {
        self.flag <= 1
            && is_whole(self.keyid)
            && LEAST_SOURCE <= self.source.len()
            && self.source.len() <= GREATEST_SOURCE
            && self.key.len() == KEY
            && Suite::numbered(self.suite).is_some()
            && goes_with(self.edition, self.suite)
            && !(self.flag == 0 && is_absent(self.keyid))
    }
}

// Whether a KeyId has as many bytes as its first one asks.
#[tactic(auto, using(crate::proofs::KeyIds::length_most))]
fn is_whole(keyid: &[u8]) -> bool
    ensures answers { result ≡ eqb (length keyid.now) (length_asked (get_or keyid.now 0 0)) }
    ensures room { OnTrue result (length keyid.now ≤ 128) }
{
    let Some(first) = keyid.first() else {
        return false;
    };
    keyid.len() == KeyId::starting(*first, 0).length()
}

// Whether it is the one that says that there is none.
fn is_absent(keyid: &[u8]) -> bool
    ensures { result ≡ eqb (get_or keyid.now 0 0) 128 }
{
    keyid.first() == Some(&ABSENT)
}

// Whether there is that edition, and it goes with the suite of that number.
fn goes_with(edition: u8, suite: u8) -> bool
    ensures { result ≡ goes_with edition suite }
{
    match edition {
        LSB => suite == Suite::MAGMA_CTR,
        MSB => true,
        _ => false,
    }
}
