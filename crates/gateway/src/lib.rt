// The receiver on a table that the caller lends.
#![tactic(auto)]

ghost use Rattle.gateway.specs.Receive.{IsReceived, received};

use answers::Answer;
use slots::layout::TABLE;

mod receiving; // receiving.rt: an arrival, step by step

// A message with the source that came with it: its payload is written at the start of the output, and the entry counts it. Refuses with
// 1 to 11, in that order, and then changes neither the table nor the output, but that the entry counts a refusal with 9, 10 or 11.
pub fn receive(table: &mut [u8; TABLE], message: &[u8], source: &[u8], out: &mut [u8]) -> Answer
    ensures { IsReceived (received table.old message.now source.now out.old) result table.new out.new }
{
    receiving::receive_in(table, message, source, out).into()
}
