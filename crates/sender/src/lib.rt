// The sender's record, and protect: the next message for a payload. Everything is by value: whoever keeps the record stores the number that
// comes back.
#![tactic(auto)]

ghost use Rattle.std.specs.Prelude.{◌≡◌, ◌&&◌, ◌+◌, ◌^◌, ◌<◌, ◌≤◌, ltb, length};
ghost use Rattle.std.specs.Bool.{OnTrue};
ghost use Rattle.answers.specs.Answers.{answer_of, output_room};
ghost use Rattle.octets.specs.Octets.{put};
ghost use Rattle.magma.specs.Magma.{key_words};
ghost use Rattle.format.specs.Header.{greatest_message, fixed_bytes};
ghost use Rattle.format.specs.Suite.{icv_length_of};
ghost use Rattle.sender.specs.Protect.{sound_record, with_number, number_after, message_of, Protects};

use answers::{Answer, Done, Refusal};
use derivation::{Derivation, Purpose};
use format::key_data::KeyData;
use format::suite::Suite;
use format::{header, key_data};
use message::sealing;

// Key data: the first keyid_len and source_len bytes of the two arrays count. The edition stands last, so that a field more moved no other.
#[repr(C)]
#[derive(Clone, Copy)]
pub struct Keys {
    pub flag: u8,
    pub keyid: [u8; 128],
    pub keyid_len: usize,
    pub source: [u8; 32],
    pub source_len: usize,
    pub suite: u8,
    pub key: [u8; 32],
    pub edition: u8,
}

// The sender's record: key data, and the number of the last message.
#[repr(C)]
#[derive(Clone, Copy)]
pub struct Sender {
    pub keys: Keys,
    pub current: u64,
}

// What protecting by value hands back: the answer, and the number that the record is to hold.
#[derive(Drop)]
pub struct Protected {
    pub answer: Answer,
    pub current: u64,
}

// The message for a payload, by value. Refuses with 1 (output under 2,048 bytes), 7 (unsound key data, or a number over 2^48 - 1),
// 2 (payload too long) and 12 (no number left), in that order.
pub fn protect_by_value(sender: Sender, payload: &[u8], out: &mut [u8]) -> Protected
    ensures { Protects sender payload.now out.old result.answer (with_number sender result.current) out.new }
{
    let sent = send(sender, payload, out);
    let current = match sent {
        Ok(done) => done.seqnum,
        Err(_) => sender.current,
    };
    Protected {
        answer: sent.into(),
        current,
    }
}

// Replies 1, 7, 2 and 12 in that order; else the message, with the next number.
#[tactic(auto, unfolding(crate::specs::Protect::outcome_of, crate::specs::Protect::sent))]
fn send(sender: Sender, payload: &[u8], out: &mut [u8]) -> Result<Done, Refusal>
    ensures { Protects sender payload.now out.old (answer_of result) (with_number sender (number_after result sender.current)) out.new }
{
    let keys = sender.keys;
    let base = base_of(keys);
    if out.len() < answers::OUTPUT {
        return Err(Refusal::OutputSmall);
    }
    if !is_undamaged(sender) {
        return Err(Refusal::Damaged);
    }
    let Some(suite) = Suite::numbered(keys.suite) else {
        return Err(Refusal::Damaged);
    };
    let longest = header::GREATEST - (header::FIXED + keys.keyid_len + suite.icv_length());
    if longest < payload.len() {
        return Err(Refusal::BadLength);
    }
    if sender.current == window::LAST {
        return Err(Refusal::NoNumber);
    }
    let next = sender.current + 1;
    let length = write_message(keys, &base, suite, next, payload, out);
    Ok(Done {
        length,
        slot: 0,
        seqnum: next,
    })
}

// The words of a record's key. They are made before the tests, as its bytes would take more stack until after them.
fn base_of(keys: Keys) -> [u32; 8]
    ensures { result ≡ key_words keys.key }
{
    let bytes = keys.key;
    modes::key_words(&bytes)
}

// Whether a record is undamaged: its key data is sound, and its number at most 2^48 - 1.
#[tactic(auto, unfolding(crate::specs::Protect::sound_record))]
fn is_undamaged(sender: Sender) -> bool
    ensures answers { result ≡ (sound_record sender.keys && ltb sender.current (2 ^ 48)) }
    ensures room { OnTrue result ((sender.keys.keyid_len ≤ 128) × (sender.keys.source_len ≤ 32)) }
    ensures flag { OnTrue result (sender.keys.flag < 2) }
    ensures number { OnTrue result (sender.current < 2 ^ 48) }
{
    let held = sender.keys;
    let Keys {
        keyid,
        source,
        key,
        ..
    } = held;
    if key_data::GREATEST_KEYID < held.keyid_len || key_data::GREATEST_SOURCE < held.source_len {
        return false;
    }
    let keys = KeyData {
        flag: held.flag,
        keyid: &keyid[..held.keyid_len],
        source: &source[..held.source_len],
        suite: held.suite,
        edition: held.edition,
        key: &key,
    };
    keys.is_sound() && sender.current <= window::LAST
}

// The message with that number is written at the start of the output. Answers its length.
fn write_message(
    keys: Keys,
    base: &[u32; 8],
    suite: Suite,
    number: u64,
    payload: &[u8],
    out: &mut [u8],
) -> usize
    requires words { key_words keys.key ≡ base.now }
    requires room { (keys.keyid_len ≤ 128) × (keys.source_len ≤ 32) }
    requires flag { keys.flag < 2 }
    requires number { number < 2 ^ 48 }
    requires fits { fixed_bytes + keys.keyid_len + length payload.now + icv_length_of suite ≤ greatest_message }
    requires output_fits { output_room ≤ length out.old }
    ensures value { result ≡ length (message_of suite keys number payload.now) }
    ensures out_after { out.new ≡ put out.old 0 (message_of suite keys number payload.now) }
{
    let Keys { keyid, source, .. } = keys;
    let purpose = Purpose {
        suite,
        edition: keys.edition,
        seqnum: number,
    };
    let derived = Derivation::new(base, purpose, &source[..keys.source_len]);
    sealing::seal_under(&derived, keys.flag, &keyid[..keys.keyid_len], payload, out)
}
