// Vectors, run from a script on standard input: each line of output has a name, what came out and what was expected. The file `stdin` beside src/ is
// the script, and `stdout` holds what it prints.
#![tactic(auto)]

use crate::commands::{COMMANDS, Call};
use message_calls::Opened;
use script::{Line, Operands};
use std::io;
use std::io::Write;

mod cipher; // cipher.rt: Magma and its parts
mod commands; // commands.rt: the commands and their operands
mod modes_of; // modes_of.rt: counter mode and check value

fn main(rt: HostRuntime) -> io::Result<()> {
    let text = input::read(rt.alloc(), rt.reader(), script::LONGEST)?;
    let mut opened = Opened::default();
    script::run(
        &mut io::writer(&rt),
        &COMMANDS,
        &text,
        |to, call, line, operands| run(to, call, line, operands, &mut opened),
    )
}

// A call is run and its value shown. What a sealed message opens to is kept for the calls behind it.
fn run(
    to: &mut impl Write,
    call: Call,
    line: &Line,
    operands: &Operands,
    opened: &mut Opened,
) -> io::Result<()> {
    let number = match call {
        Call::Substitute => cipher::substitute(operands),
        Call::Turn => cipher::turn(operands),
        Call::Round => cipher::round(operands),
        Call::KeyWord => cipher::key_word(operands),
        Call::Forward => cipher::forward(operands),
        Call::Backward => cipher::backward(operands),
        Call::Encrypt => cipher::encrypt(operands),
        Call::FirstSubkey => modes_of::first_subkey(operands),
        Call::SecondSubkey => modes_of::second_subkey(operands),
        Call::CheckValue => modes_of::check_value(operands),
        Call::CheckValue32 => modes_of::check_value(operands) >> 32,
        Call::DerivedBlock => message_calls::derived_block(operands),
        Call::DerivedNext => message_calls::derived_next(operands),
        Call::OpenedLength => opened.length as u64,
        Call::OpenedSame => u64::from(opened.is_payload),
        Call::Counter => return modes_of::show_counter(to, line, operands),
        Call::Open => return message_calls::show_opened(to, line, operands),
        Call::Seal => {
            *opened = message_calls::show_sealed(to, line, operands)?;
            return Ok(());
        }
    };
    script::show_number(to, line, number)
}
