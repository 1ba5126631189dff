// 01's entry is installed as `open_one` does, a listing is read from standard input and loaded, and the reply and the entry are printed.
#![tactic(auto)]

use answers::OUTPUT;
use slots::layout::TABLE;
use std::io;

// One byte more than the output that a listing is printed into, so that a longer text is not taken for a listing.
const ROOM: usize = OUTPUT + 1;

fn main(rt: HostRuntime) -> io::Result<()> {
    let mut table = [0; TABLE];
    station::install(&mut table);
    let text = input::read(rt.alloc(), rt.reader(), ROOM)?;
    let answer = loading::load(&mut table, &text);
    station::print_answer(&rt, answer.reply)?;
    station::print_entry(&rt, &table)
}
