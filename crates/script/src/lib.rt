// Scripts, for programs that compare. A line of a script is a call and what is expected of it:
//
//     name: command operand operand = expected
//
// The name is what stands before the last colon. Words are separated by one space. An operand is bytes in hex, two lower-case digits each; with
// `*` and a decimal count behind them they are repeated until there are so many bytes, as in `a5*2034`; `-` is no bytes. What is expected is printed
// as it stands. Empty lines and lines that begin with `#` say nothing.
#![tactic(auto)]

mod calling; // calling.rt: a program's commands, and the calls of a script
mod operand; // operand.rt: the bytes that a line's operands write
mod output; // output.rt: a line of output for a line of the script
mod parts; // parts.rt: the parts of a line

pub use calling::{Command, Length, run};
pub use operand::Operands;
pub use output::{not_understood, show, show_number};
pub use parts::Line;

/// How many bytes of its standard input a program reads as a script.
pub const LONGEST: usize = 65536;
