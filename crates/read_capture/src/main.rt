// Reads a capture from standard input on a table that holds 01's entry, and prints a line for each record; `answer=17` where it is no capture.
#![tactic(auto)]

ghost use Rattle.std.specs.Prelude.{◌≤◌, length, IfOk};

use capture::order::LONGEST;
use feed::TEXT;
use slots::layout::TABLE;
use std::io;

// One byte more than a capture may have, so that a longer one is seen to be so.
const ROOM: usize = LONGEST + 1;

fn main(rt: HostRuntime) -> io::Result<()> {
    let mut table = [0; TABLE];
    station::install(&mut table);
    let file = input::read(rt.alloc(), rt.reader(), ROOM)?;
    let mut text = [0; TEXT];
    match report(&mut table, &file, &mut text) {
        Ok(length) => rt.write_all(&text[..length]),
        Err(reply) => station::print_answer(&rt, reply),
    }
}

// The capture's lines are written into the output. Answers how long they are, or the reply where it is no capture.
#[tactic(auto, using(feed::proofs::Room::reported_within))]
fn report(table: &mut [u8; TABLE], file: &[u8], out: &mut [u8]) -> Result<usize, u64>
    ensures { IfOk result (λ written. written ≤ length out.new) }
{
    let report = feed::report(table, file, out);
    if report.reply == answers::DONE {
        Ok(report.length)
    } else {
        Err(report.reply)
    }
}
