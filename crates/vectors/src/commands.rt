// The commands and their operands.
use script::Length::{Any, Exactly};
use script::{Command, Length};

#[derive(Clone, Copy)]
pub(crate) enum Call {
    Substitute,
    Turn,
    Round,
    KeyWord,
    Forward,
    Backward,
    Encrypt,
    FirstSubkey,
    SecondSubkey,
    CheckValue,
    CheckValue32,
    DerivedBlock,
    DerivedNext,
    Counter,
    Open,
    Seal,
    OpenedLength,
    OpenedSame,
}

const BYTE: Length = Exactly(1);

const WORD: Length = Exactly(4);

const NUMBER: Length = Exactly(8);

const KEY: Length = Exactly(32);

const SEQNUM: Length = Exactly(6);

// A place of a message.
const PLACE: Length = Exactly(2);

pub(crate) const COMMANDS: [Command<Call>; 18] = [
    Command(b"substitute", &[WORD], Call::Substitute),
    Command(b"turn", &[WORD, WORD], Call::Turn),
    Command(b"round", &[WORD, NUMBER], Call::Round),
    Command(b"key_word", &[KEY, BYTE], Call::KeyWord),
    Command(b"forward", &[KEY, NUMBER], Call::Forward),
    Command(b"backward", &[KEY, NUMBER], Call::Backward),
    Command(b"encrypt", &[KEY, NUMBER], Call::Encrypt),
    Command(b"first_subkey", &[KEY], Call::FirstSubkey),
    Command(b"second_subkey", &[KEY], Call::SecondSubkey),
    Command(b"check_value", &[KEY, Any], Call::CheckValue),
    Command(b"check_value_32", &[KEY, Any], Call::CheckValue32),
    Command(
        b"derived_block",
        &[KEY, Any, BYTE, BYTE, SEQNUM, BYTE],
        Call::DerivedBlock,
    ),
    Command(
        b"derived_next",
        &[KEY, Any, BYTE, BYTE, SEQNUM, BYTE],
        Call::DerivedNext,
    ),
    Command(b"counter", &[KEY, WORD, Any, BYTE], Call::Counter),
    Command(b"open", &[KEY, Any, BYTE, Any], Call::Open),
    Command(
        b"seal",
        &[KEY, Any, BYTE, BYTE, SEQNUM, BYTE, Any, Any, PLACE],
        Call::Seal,
    ),
    Command(b"opened_length", &[], Call::OpenedLength),
    Command(b"opened_same", &[], Call::OpenedSame),
];
