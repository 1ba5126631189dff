// A record of a file: where it brings a source and a message, and where the next one begins.
ghost use Rattle.std.specs.Prelude.{◌≡◌, ◌≤◌, length};
ghost use Rattle.answers.specs.Answers.{refusal_number};
ghost use Rattle.capture.specs.Capture.{record_at, ordered_at, data_at};

use crate::digits;
use crate::order::Order;
use answers::Refusal;

// Bytes of a record's header, and where it has its two lengths.
const HEADER: usize = 16;

const CAPTURED_AT: usize = 8;

const ORIGINAL_AT: usize = 12;

// What stands for a reply where nothing is left of a file. It is none of the replies.
pub const END: u64 = 255;

// What stands at a place: an arrival (0), whose source begins at `source` and ends where its message begins, at `message`, which ends where the
// next record begins; or nothing that can be read (17 to 20, or END), and then source and message have no bytes. After 17, 18 and END the next
// place is the file's end.
#[repr(C)]
#[derive(Clone, Copy)]
pub struct Record {
    pub reply: u64,
    pub source: usize,
    pub message: usize,
    pub next: usize,
}

// The record at a place of a file, and the place after it; 17 where the file's numbers have no order.
pub fn record_at(file: &[u8], order: Option<Order>, at: usize) -> Record
    ensures { result ≡ record_at order file.now at }
{
    let Some(order) = order else {
        return without(Refusal::BadCapture, file.len());
    };
    ordered_at(file, order, at)
}

// The same where they have one: the file's end, 18, 19 and what the data says.
pub fn ordered_at(file: &[u8], order: Order, at: usize) -> Record
    ensures { result ≡ ordered_at order file.now at }
{
    if file.len() <= at {
        return Record {
            reply: END,
            source: file.len(),
            message: file.len(),
            next: file.len(),
        };
    }
    if file.len() - at < HEADER {
        return without(Refusal::CutShort, file.len());
    }
    let data = at + HEADER;
    let captured = digits::number(file, order, at + CAPTURED_AT, 4) as usize;
    if file.len() - data < captured {
        return without(Refusal::CutShort, file.len());
    }
    let next = data + captured;
    let original = digits::number(file, order, at + ORIGINAL_AT, 4) as usize;
    if captured != original {
        return without(Refusal::LengthsDiffer, next);
    }
    data_at(file, data, next)
}

// A record's data, from `at` to `next`: one byte with the length of the identifier, the identifier, the message; or 20.
fn data_at(file: &[u8], at: usize, next: usize) -> Record
    requires { (at ≤ next) × (next ≤ length file.now) }
    ensures { result ≡ data_at file.now at next }
{
    if at == next {
        return without(Refusal::Unreadable, next);
    }
    let source = at + 1;
    let identifier = file[at] as usize;
    if next - source < identifier {
        return without(Refusal::Unreadable, next);
    }
    Record {
        reply: answers::DONE,
        source,
        message: source + identifier,
        next,
    }
}

// A record that brings nothing.
fn without(refusal: Refusal, next: usize) -> Record
    ensures { result ≡ record { reply = refusal_number refusal; source = next; message = next; next = next } }
{
    Record {
        reply: refusal.number(),
        source: next,
        message: next,
        next,
    }
}
