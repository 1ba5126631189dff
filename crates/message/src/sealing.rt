// A whole message written, and one checked and taken apart.
ghost use Rattle.std.specs.Prelude.{List, ◌≡◌, ℕ, ◌+◌, ◌^◌, ◌<◌, ◌≤◌, length};
ghost use Rattle.octets.specs.Octets.{put};
ghost use Rattle.magma.specs.Magma.{key_words};
ghost use Rattle.format.specs.Header.{fixed_bytes};
ghost use Rattle.format.specs.KeyData.{handed_in};
ghost use Rattle.derivation.specs.Derivation.{IsBase};
ghost use Rattle.message.specs.Sealing.{enciphered, icv_of, sealed, opened_as, output_after};
ghost use Rattle.format.specs.Suite.{icv_length_of};

use derivation::{Derivation, Purpose};
use format::header;
use format::header::Message;
use format::key_data::KeyData;
use format::suite::Suite;

// The message for a payload is written at the start of the output. Answers its length.
pub fn seal(suite: Suite, keys: &KeyData<'_>, seqnum: u64, payload: &[u8], out: &mut [u8]) -> usize
    requires { (length keys.now.key ≡ 32) × (keys.now.flag < 2) × (length keys.now.source ≤ 32) × (seqnum < 2 ^ 48) × (fixed_bytes + length keys.now.key_id + length payload.now + icv_length_of suite ≤ length out.old) × (length payload.now ≤ 2 ^ 35) }
    ensures answers { result ≡ length (sealed suite keys.now seqnum payload.now) }
    ensures writes { out.new ≡ put out.old 0 (sealed suite keys.now seqnum payload.now) }
{
    let base = modes::key_words(keys.key.try_into().unwrap());
    let purpose = Purpose {
        suite,
        edition: keys.edition,
        seqnum,
    };
    let derived = Derivation::new(&base, purpose, keys.source);
    seal_under(&derived, keys.flag, keys.keyid, payload, out)
}

// The same with what the keys are derived from at hand, whatever key has the words of the base key. They are eight words of 32 bits, so some key has.
pub fn seal_under(
    keys: &Derivation<'_>,
    flag: u8,
    keyid: &[u8],
    payload: &[u8],
    out: &mut [u8],
) -> usize
    requires { (flag < 2) × (keys.now.seq_num < 2 ^ 48) × (fixed_bytes + length keyid.now + length payload.now + icv_length_of keys.now.suite ≤ length out.old) × (length payload.now ≤ 2 ^ 35) }
    ensures base { IsBase keys.now.base }
    ensures answers { (key : List ℕ) (cs : ℕ) → key_words key ≡ keys.now.base → result ≡ length (sealed keys.now.suite (handed_in flag keyid.now keys.now.source cs keys.now.edition key) keys.now.seq_num payload.now) }
    ensures writes { (key : List ℕ) (cs : ℕ) → key_words key ≡ keys.now.base → out.new ≡ put out.old 0 (sealed keys.now.suite (handed_in flag keyid.now keys.now.source cs keys.now.edition key) keys.now.seq_num payload.now) }
{
    let suite = keys.suite();
    header::write_header(flag, suite, keyid, keys.seqnum(), out);
    let start = header::FIXED + keyid.len();
    let end = start + payload.len();
    encipher(keys, payload, out, start);
    let icv = icv(keys, &out[..end]);
    octets::write(out, end, suite.icv_length(), icv);
    end + suite.icv_length()
}

// The payload of a message is written at the start of the output, if the ICV is right in that edition. Answers its length then.
pub fn open(
    message: &Message<'_>,
    edition: u8,
    key: &[u8],
    source: &[u8],
    out: &mut [u8],
) -> Option<usize>
    requires { (length key.now ≡ 32) × (length source.now ≤ 32) × (length message.now.bytes.now ≤ length out.old) }
    ensures answers { result ≡ opened_as message.now.header edition key.now source.now message.now.bytes.now }
    ensures writes { out.new ≡ output_after message.now.header edition key.now source.now message.now.bytes.now out.old }
{
    let base = modes::key_words(key.try_into().unwrap());
    let header = message.header;
    let purpose = Purpose {
        suite: header.suite,
        edition,
        seqnum: header.seqnum,
    };
    let keys = Derivation::new(&base, purpose, source);
    let icv = icv(&keys, message.covered());
    if message.icv() != icv {
        return None;
    }
    let payload = message.payload();
    encipher(&keys, payload, out, 0);
    Some(payload.len())
}

// The ICV of all that stands before it, as a number.
fn icv(keys: &Derivation, front: &[u8]) -> u64
    ensures { result ≡ icv_of keys.now front.now }
{
    let suite = keys.suite();
    let behind = suite.block_length() - suite.icv_length();
    modes::check_value(&keys.check_key(), front) >> (8 * behind as u64)
}

// What the suite makes of a payload, enciphered or not, and back again, is written at `at`.
#[tactic(auto, unfolding(crate::specs::Sealing::enciphered))]
fn encipher(keys: &Derivation, payload: &[u8], out: &mut [u8], at: usize)
    requires { (at + length payload.now ≤ length out.old) × (length payload.now ≤ 2 ^ 35) }
    ensures { out.new ≡ put out.old at (enciphered keys.now payload.now) }
{
    if keys.suite().enciphers() {
        modes::counter(&keys.cipher_key(), keys.iv(), payload, out, at);
    } else {
        octets::copy(payload, out, at);
    }
}
