// A capture read on a table: each record that can be read is an arrival, in the file's order, and each record has its line of text.
#![tactic(auto)]

ghost use Rattle.std.specs.Prelude.{◌≡◌, ◌+◌, ◌-◌, ◌*◌, ◌≤◌, length, Ok};
ghost use Rattle.octets.specs.Octets.{put};
ghost use Rattle.gateway.specs.Receive.{received};
ghost use Rattle.capture.specs.Capture.{header_length, longest_file, item_of, records_from};
ghost use Rattle.feed.specs.Report.{line_of, blank, brought_by, turn_of, IsTold, text_room, IsReported, summary_of, read_in, reported};

use answers::{OUTPUT, Refusal};
use capture::order::Order;
use capture::record::Record;
use capture::{order, record};
use slots::layout::TABLE;

// Bytes that an output has to have, whatever the file.
pub const TEXT: usize = 131072;

// A reply (0, 1 or 17) and, with reply 0, the text's length, how many records there were, and whether the last of them ran past the file's end (18).
#[repr(C)]
#[derive(Drop)]
pub struct Summary {
    pub reply: u64,
    pub length: usize,
    pub records: usize,
    pub cut: bool,
}

// Done: the text's length, how many records there were, and whether the last of them ran past the file's end.
#[derive(Clone, Copy)]
pub struct Done {
    pub length: usize,
    pub records: usize,
    pub cut: bool,
}

impl From<Result<Done, Refusal>> for Summary {
    ghost from_gives = { λ outcome summary. summary ≡ summary_of outcome };

    fn from(outcome: Result<Done, Refusal>) -> Summary {
        match outcome {
            Ok(done) => Summary {
                reply: answers::DONE,
                length: done.length,
                records: done.records,
                cut: done.cut,
            },
            Err(refusal) => Summary {
                reply: refusal.number(),
                length: 0,
                records: 0,
                cut: false,
            },
        }
    }
}

// The records of a file are received in order, and their lines are written at the start of the output. Refuses with 1 (output under 131,072
// bytes) and 17 (header or size bad), in that order, and then changes neither the table nor the output.
pub fn report(table: &mut [u8; TABLE], file: &[u8], out: &mut [u8]) -> Summary
    ensures { IsReported (reported table.old file.now out.old) result table.new out.new }
{
    report_in(table, file, out).into()
}

// The same with the refusals by name.
fn report_in(table: &mut [u8; TABLE], file: &[u8], out: &mut [u8]) -> Result<Done, Refusal>
    ensures { IsReported (reported table.old file.now out.old) (summary_of result) table.new out.new }
{
    if out.len() < TEXT {
        return Err(Refusal::OutputSmall);
    }
    let Some(order) = order::order_of(file) else {
        return Err(Refusal::BadCapture);
    };
    Ok(read_all(table, file, order, out))
}

// All records of a file whose numbers are in that order. A record says where the next one begins, so the loop goes from place to place.
fn read_all(table: &mut [u8; TABLE], file: &[u8], order: Order, out: &mut [u8]) -> Done
    requires { (header_length ≤ length file.now) × (length file.now ≤ longest_file) × (text_room ≤ length out.old) }
    ensures { IsReported (read_in (records_from order file.now header_length) table.old out.old) (summary_of (Ok result)) table.new out.new }
{
    let mut at = order::HEADER;
    let mut records: u16 = 0;
    let mut end: usize = 0;
    let mut cut = false;
    while at < file.len() {
        let found = record::ordered_at(file, order, at);
        records += 1;
        end = take(table, file, found, records, out, end);
        cut = found.reply == Refusal::CutShort.number();
        at = found.next;
    }
    Done {
        length: end,
        records: records as usize,
        cut,
    }
}

// One record: it is received if it can be read, and its line is written at `at`. Answers where the line ends.
fn take(
    table: &mut [u8; TABLE],
    file: &[u8],
    found: Record,
    number: u16,
    out: &mut [u8],
    at: usize,
) -> usize
    requires record_in_file { (found.source ≤ found.message) × (found.message ≤ found.next) × (found.next ≤ length file.now) }
    requires room { at + 50 + 2 * (found.next - found.message) ≤ length out.old }
    ensures { IsTold (turn_of table.old (item_of file.now found)) number at out.old result table.new out.new }
{
    let source = found.source;
    let message = found.message;
    let next = found.next;
    if found.reply != answers::DONE {
        return write_line(number, found.reply, b"", out, at);
    }
    arrive(
        table,
        &file[message..next],
        &file[source..message],
        number,
        out,
        at,
    )
}

// A message that came with a source is received, with an empty output, and its line is written at `at`. Answers where the line ends.
fn arrive(
    table: &mut [u8; TABLE],
    message: &[u8],
    source: &[u8],
    number: u16,
    out: &mut [u8],
    at: usize,
) -> usize
    requires { at + 50 + 2 * length message.now ≤ length out.old }
    ensures { IsTold (brought_by (received table.old message.now source.now blank)) number at out.old result table.new out.new }
{
    let mut payload = [0u8; OUTPUT];
    let answer = gateway::receive(table, message, source, &mut payload);
    let length = answer.length;
    write_line(number, answer.reply, &payload[..length], out, at)
}

// The line of a record is written at `at`. Answers where it ends.
fn write_line(number: u16, reply: u64, payload: &[u8], out: &mut [u8], at: usize) -> usize
    requires { at + 50 + 2 * length payload.now ≤ length out.old }
    ensures value { result ≡ at + length (line_of number reply payload.now) }
    ensures out_after { out.new ≡ put out.old at (line_of number reply payload.now) }
{
    let a = text::write_decimal_field(b"record=", number as u64, out, at);
    let b = text::write_decimal_field(b" answer=", reply, out, a);
    text::write_hex_line(b" payload=", payload, out, b)
}
