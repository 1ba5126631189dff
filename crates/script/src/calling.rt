// A program's commands, and the calls of a script.
use crate::operand::Operands;
use crate::output::not_understood;
use crate::parts::Line;
use std::io;
use std::io::Write;

/// A command of a program: its name, the lengths of its operands, and what the program calls it.
#[derive(Clone, Copy)]
pub struct Command<'a, T>(pub &'a [u8], pub &'a [Length], pub T);

/// How many bytes an operand has.
#[derive(Clone, Copy)]
pub enum Length {
    Exactly(usize),
    Any,
}

impl Length {
    pub(crate) fn allows(self, length: usize) -> bool {
        match self {
            Length::Exactly(wanted) => length == wanted,
            Length::Any => true,
        }
    }
}

/// The lines of a script are run, one after another: each with its command and its operands by a step of the program, or it is printed that it is
/// not understood.
pub fn run<T: Copy, W: Write, F: FnMut(&mut W, T, &Line, &Operands) -> io::Result<()>>(
    to: &mut W,
    commands: &[Command<T>],
    script: &[u8],
    mut step: F,
) -> io::Result<()>
    requires { F.IsAlwaysCallable step }
{
    let mut operands = Operands::EMPTY;
    for text in script.split(|byte| *byte == b'\n') {
        if let Some(line) = Line::read(text) {
            match find(commands, &line, &mut operands) {
                Some(call) => step(to, call, &line, &operands)?,
                None => not_understood(to, &line)?,
            }
        }
    }
    Ok(())
}

// What a line calls, with its operands read; none where it is not understood.
fn find<T: Copy>(commands: &[Command<T>], line: &Line, operands: &mut Operands) -> Option<T> {
    let count = operands.read(line.operands)?;
    commands
        .iter()
        .find(|Command(name, lengths, _)| {
            *name == line.command && operands.have(count, lengths)
        })
        .map(|Command(_, _, call)| *call)
}
