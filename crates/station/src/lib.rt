// What the programs share: 01's entry, the line of an answer, and the lines of the entry.
#![tactic(auto)]

ghost use Rattle.std.specs.Prelude.{◌≤◌, length};

use answers::OUTPUT;
use slots::layout::TABLE;
use std::io;

const FLAG: u8 = 1;

const SUITE: u8 = 2;

const EDITION: u8 = 2;

const SIZE: u64 = 4;

const START: u64 = 0;

/// 01's entry: the key data of appendix A.2, with edition 2, Size 4 and start 0.
pub fn install(table: &mut [u8; TABLE]) {
    entries::install(
        table,
        FLAG,
        b"\x30",
        &appendix::SOURCE,
        SUITE,
        EDITION,
        &appendix::KEY,
        SIZE,
        START,
    );
}

/// The line `answer=` is printed.
pub fn print_answer(rt: &impl Print, reply: u64) -> io::Result<()> {
    println!(rt; "answer={reply}")
}

/// The entry's lines are printed.
pub fn print_entry(rt: &impl Print, table: &[u8; TABLE]) -> io::Result<()> {
    let mut lines = [0; OUTPUT];
    let length = list(table, &mut lines);
    rt.write_all(&lines[..length])
}

// The entry's lines are written into the output. Answers how long they are.
#[tactic(auto, using(listing::proofs::Listed::listed_within))]
fn list(table: &[u8; TABLE], out: &mut [u8]) -> usize
    ensures { result ≤ length out.new }
{
    listing::listing(table, 0, out).length
}
