// What a script's commands do with a sender's record. The operands are flag, KeyId, source, suite, edition, key, number, payload, and by how many bytes
// the output falls short of 2,048.
#![tactic(auto)]

ghost use Rattle.std.specs.Prelude.{◌≡◌, length};
ghost use Rattle.answers.specs.Answers.{output_room};

use answers::OUTPUT;
use script::{Line, Operands};
use sender::{Keys, Protected, Sender};
use std::io;
use std::io::Write;

/// The reply.
pub fn reply(operands: &Operands) -> u64 {
    let mut out = [0; OUTPUT];
    protect(operands, &mut out).answer.reply
}

/// The number after the call.
pub fn number_after(operands: &Operands) -> u64 {
    let mut out = [0; OUTPUT];
    protect(operands, &mut out).current
}

/// The message is shown.
pub fn show_message(to: &mut impl Write, line: &Line, operands: &Operands) -> io::Result<()> {
    let mut out = [0; OUTPUT];
    let length = protect(operands, &mut out).answer.length;
    script::show(to, line, out.get(..length).unwrap_or(&[]))
}

// The payload's message is written into the output.
fn protect(operands: &Operands, out: &mut [u8]) -> Protected
    requires { length out.old ≡ output_room }
{
    let room = OUTPUT - usize::from(operands.byte(8));
    let sender = Sender {
        keys: keys(operands),
        current: operands.number(6),
    };
    sender::protect_by_value(sender, operands.bytes(7), &mut out[..room])
}

// The record's key data: the lengths are those of the operands, also where an array has not room for all their bytes.
fn keys(operands: &Operands) -> Keys {
    Keys {
        flag: operands.byte(0),
        keyid: array(operands.bytes(1)),
        keyid_len: operands.bytes(1).len(),
        source: array(operands.bytes(2)),
        source_len: operands.bytes(2).len(),
        suite: operands.byte(3),
        key: array(operands.bytes(5)),
        edition: operands.byte(4),
    }
}

// The bytes that an array has room for, and behind them what shows that it is not read.
fn array<const N: usize>(bytes: &[u8]) -> [u8; N] {
    let mut array = [0x5a; N];
    for (to, from) in array.iter_mut().zip(bytes) {
        *to = *from;
    }
    array
}
