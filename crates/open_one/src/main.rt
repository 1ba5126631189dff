// 01's program: the key data of appendix A.2 is installed with Size 4, one message is read from standard input, and the reply and the entry
// are printed.
#![tactic(auto)]

use answers::OUTPUT;
use format::header::GREATEST;
use slots::layout::TABLE;
use std::io;

// One byte more than a message may have, so that a longer one is seen to be so.
const ROOM: usize = GREATEST + 1;

fn main(rt: HostRuntime) -> io::Result<()> {
    let mut table = [0; TABLE];
    station::install(&mut table);
    let message = input::read(rt.alloc(), rt.reader(), ROOM)?;
    let mut payload = [0; OUTPUT];
    let answer = gateway::receive(&mut table, &message, &appendix::SOURCE, &mut payload);
    station::print_answer(&rt, answer.reply)?;
    station::print_entry(&rt, &table)
}
