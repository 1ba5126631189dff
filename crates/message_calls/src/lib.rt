// What a script's commands do with derived keys and whole messages, under a key and a source.
#![tactic(auto)]

use derivation::{Derivation, Purpose};
use format::header;
use format::header::{GREATEST, Message};
use format::key_data::KeyData;
use format::suite::Suite;
use magma::Halves;
use message::sealing;
use script::{Line, Operands};
use std::io;
use std::io::Write;

// The longest source.
const SOURCE: usize = 32;

// The numbers that a message can have are those below.
const NUMBERS: u64 = 1 << 48;

/// What the message of a sealed payload opens to: its length, and whether it is the payload.
#[derive(Clone, Copy, Default)]
pub struct Opened {
    pub length: usize,
    pub is_payload: bool,
}

/// The words of the key that is the first operand.
pub fn key(operands: &Operands) -> [u32; 8] {
    match operands.bytes(0).as_array::<32>() {
        Some(key) => modes::key_words(key),
        None => [0; 8],
    }
}

/// Suite, edition, SeqNum and the number of a block: the block.
pub fn derived_block(operands: &Operands) -> u64 {
    derived_key(operands).map_or(0, |key| block(key[0], key[1]))
}

/// The same: the block after it.
pub fn derived_next(operands: &Operands) -> u64 {
    derived_key(operands).map_or(0, |key| block(key[2], key[3]))
}

// The key that begins with a block, if source and suite can be.
fn derived_key(operands: &Operands) -> Option<[u32; 8]> {
    let source = operands.bytes(1);
    let suite = Suite::numbered(operands.byte(2))?;
    if SOURCE < source.len() {
        return None;
    }
    let base = key(operands);
    let purpose = Purpose {
        suite,
        edition: operands.byte(3),
        seqnum: operands.number(4),
    };
    let keys = Derivation::new(&base, purpose, source);
    Some(keys.key_from(operands.byte(5) % 6))
}

fn block(high: u32, low: u32) -> u64 {
    Halves { high, low }.into()
}

/// Suite, edition, SeqNum, flag, KeyId and payload: their message is shown, from a place on. Answers what it opens to.
pub fn show_sealed(to: &mut impl Write, line: &Line, operands: &Operands) -> io::Result<Opened> {
    let mut out = [0; GREATEST];
    let length = seal(operands, &mut out);
    let message = written(&out, length);
    let from = operands.number(8) as usize;
    script::show(to, line, message.get(from..).unwrap_or(&[]))?;
    Ok(open_again(operands, message))
}

/// Edition and message: the payload is shown.
pub fn show_opened(to: &mut impl Write, line: &Line, operands: &Operands) -> io::Result<()> {
    let mut out = [0xaa; GREATEST];
    let length = open(operands, operands.byte(2), operands.bytes(3), &mut out);
    script::show(to, line, written(&out, length))
}

// What the message of a sealed payload opens to.
fn open_again(operands: &Operands, message: &[u8]) -> Opened {
    let mut out = [0; GREATEST];
    let length = open(operands, operands.byte(3), message, &mut out);
    let payload = written(&out, length);
    Opened {
        length: payload.len(),
        is_payload: payload == operands.bytes(7),
    }
}

// What was written into an output, or all of it where nothing was.
fn written(out: &[u8], length: Option<usize>) -> &[u8] {
    length.and_then(|length| out.get(..length)).unwrap_or(out)
}

// The message is written into the output. Answers its length, if it can be one and has room.
fn seal(operands: &Operands, out: &mut [u8]) -> Option<usize> {
    let key = operands.bytes(0).as_array::<32>()?;
    let source = operands.bytes(1);
    let suite = Suite::numbered(operands.byte(2))?;
    let keyid = operands.bytes(6);
    let payload = operands.bytes(7);
    let length = header::FIXED + keyid.len() + payload.len() + suite.icv_length();
    if SOURCE < source.len() || out.len() < length {
        return None;
    }
    let keys = KeyData {
        flag: operands.byte(5) % 2,
        keyid,
        source,
        suite: suite.number(),
        edition: operands.byte(3),
        key,
    };
    let seqnum = operands.number(4) % NUMBERS;
    Some(sealing::seal(suite, &keys, seqnum, payload, out))
}

// The payload of a message in that edition is written into the output. Answers its length, if the message can be opened and has room.
fn open(operands: &Operands, edition: u8, message: &[u8], out: &mut [u8]) -> Option<usize> {
    let key = operands.bytes(0).as_array::<32>()?;
    let source = operands.bytes(1);
    if SOURCE < source.len() || out.len() < message.len() {
        return None;
    }
    let header = header::read_header(message).ok()?;
    let bytes = message;
    sealing::open(&Message { header, bytes }, edition, key, source, out)
}
