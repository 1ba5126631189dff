// A listing loaded back: after a restart, an entry that has accepted nothing takes the window, the totals and the counters that its listing has.
#![tactic(auto)]

ghost use Rattle.entries.specs.Install.{IsLeft};
ghost use Rattle.loading.specs.Load.{loaded};

use answers::Answer;
use slots::layout::TABLE;

mod taking; // taking.rt: the entry that a listing names, and what it takes

// The entry that a listing names, as `listing` prints it, takes the listed window, totals and counters; the answer has its slot. Refuses with 21 (text not in
// this form), 22 (no such entry with accepted 0) and 23 (the loaded record would be damaged), in that order.
pub fn load(table: &mut [u8; TABLE], text: &[u8]) -> Answer
    ensures { IsLeft (loaded table.old text.now) result table.new }
{
    taking::load_in(table, text).into()
}
