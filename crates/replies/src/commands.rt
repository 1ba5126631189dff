// The commands and their operands.
use script::Length::{Any, Exactly};
use script::{Command, Length};

#[derive(Clone, Copy)]
pub(crate) enum Call {
    Install,
    Remove,
    Receive,
    Entry,
    Fresh,
    Poke,
    Protect,
    After,
    Message,
}

const BYTE: Length = Exactly(1);

const NUMBER: Length = Exactly(8);

const KEY: Length = Exactly(32);

// A place of the table.
const PLACE: Length = Exactly(2);

const ENTRY: [Length; 8] = [BYTE, Any, Any, BYTE, BYTE, Any, NUMBER, NUMBER];

const RECORD: [Length; 9] = [BYTE, Any, Any, BYTE, BYTE, KEY, NUMBER, Any, BYTE];

pub(crate) const COMMANDS: [Command<Call>; 9] = [
    Command(b"install", &ENTRY, Call::Install),
    Command(b"remove", &[NUMBER], Call::Remove),
    Command(b"receive", &[Any, Any, BYTE], Call::Receive),
    Command(b"entry", &ENTRY, Call::Entry),
    Command(b"fresh", &[], Call::Fresh),
    Command(b"poke", &[PLACE, BYTE], Call::Poke),
    Command(b"protect", &RECORD, Call::Protect),
    Command(b"after", &[], Call::After),
    Command(b"message", &RECORD, Call::Message),
];
