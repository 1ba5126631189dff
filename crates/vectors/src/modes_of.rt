// Counter mode and check value with Magma, with a key.
use modes::CheckKey;
use script::{Line, Operands};
use std::io;
use std::io::Write;

/// The first subkey.
pub(crate) fn first_subkey(operands: &Operands) -> u64 {
    CheckKey::of(&message_calls::key(operands)).first_subkey()
}

/// The second subkey.
pub(crate) fn second_subkey(operands: &Operands) -> u64 {
    CheckKey::of(&message_calls::key(operands)).second_subkey()
}

/// The check value of a text.
pub(crate) fn check_value(operands: &Operands) -> u64 {
    CheckKey::of(&message_calls::key(operands)).check_value(operands.bytes(1))
}

/// The counter's high half, a text, and how many bytes are shown of the output, which held 0xaa.
pub(crate) fn show_counter(
    to: &mut impl Write,
    line: &Line,
    operands: &Operands,
) -> io::Result<()> {
    let key = message_calls::key(operands);
    let text = operands.bytes(2);
    let shown = usize::from(operands.byte(3));
    let mut out = [0xaa; 256];
    if out.len() < text.len() {
        return script::not_understood(to, line);
    }
    modes::counter(&key, operands.word(1), text, &mut out, 0);
    script::show(to, line, &out[..shown])
}
