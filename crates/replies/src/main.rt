// Every reply met: calls on a table and on a sender's record, run from a script on standard input. The file `stdin` beside src/ is the script, and
// `stdout` holds what it prints.
#![tactic(auto)]

use crate::commands::{COMMANDS, Call};
use script::{Line, Operands};
use slots::layout::TABLE;
use std::io;
use std::io::Write;

mod commands; // commands.rt: the commands and their operands
mod receiving; // receiving.rt: calls on the table

fn main(rt: HostRuntime) -> io::Result<()> {
    let text = input::read(rt.alloc(), rt.reader(), script::LONGEST)?;
    let mut table = [0; TABLE];
    script::run(
        &mut io::writer(&rt),
        &COMMANDS,
        &text,
        |to, call, line, operands| run(to, call, line, operands, &mut table),
    )
}

// A call is run, and what it gave is shown. The calls that make the table ready show nothing.
fn run(
    to: &mut impl Write,
    call: Call,
    line: &Line,
    operands: &Operands,
    table: &mut [u8; TABLE],
) -> io::Result<()> {
    let number = match call {
        Call::Install => receiving::install(operands, table),
        Call::Remove => receiving::remove(operands, table),
        Call::Receive => receiving::receive(operands, table),
        Call::Protect => record_calls::reply(operands),
        Call::After => record_calls::number_after(operands),
        Call::Message => return record_calls::show_message(to, line, operands),
        Call::Entry => {
            receiving::install(operands, table);
            return Ok(());
        }
        Call::Fresh => {
            table.fill(0);
            return Ok(());
        }
        Call::Poke => {
            if receiving::poke(operands, table) {
                return Ok(());
            }
            return script::not_understood(to, line);
        }
    };
    script::show_number(to, line, number)
}
