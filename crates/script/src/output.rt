// A line of output for a line of the script: its name, what came out, and what was expected.
use crate::parts::Line;
use std::io;
use std::io::Write;

// The most digits that a number is written with.
const DIGITS: usize = 16;

/// What came out, as bytes.
pub fn show(to: &mut impl Write, line: &Line, got: &[u8]) -> io::Result<()> {
    begin(to, line)?;
    for byte in got {
        write!(to, "{byte:02x}")?;
    }
    end(to, line)
}

/// What came out, as a number with as many digits as what was expected has.
pub fn show_number(to: &mut impl Write, line: &Line, got: u64) -> io::Result<()> {
    begin(to, line)?;
    let width = line.expected.len().min(DIGITS);
    write!(to, "{got:0width$x}")?;
    end(to, line)
}

/// The line is no call that the program knows.
pub fn not_understood(to: &mut impl Write, line: &Line) -> io::Result<()> {
    begin(to, line)?;
    to.write_all(b"not understood\n")
}

fn begin(to: &mut impl Write, line: &Line) -> io::Result<()> {
    to.write_all(line.name)?;
    to.write_all(b" ")
}

fn end(to: &mut impl Write, line: &Line) -> io::Result<()> {
    to.write_all(b" ")?;
    to.write_all(line.expected)?;
    to.write_all(b"\n")
}
