// The listing of an entry as text.
#![tactic(auto)]

ghost use Rattle.std.specs.Prelude.{◌≡◌, ◌+◌, ◌≤◌, length};
ghost use Rattle.octets.specs.Octets.{put};
ghost use Rattle.answers.specs.Answers.{answer_of, output_room};
ghost use Rattle.slots.specs.Table.{slot_length, source_length_of, source_room};
ghost use Rattle.listing.specs.Listing.{named_lines, term_lines, moved_lines, counter_lines, listing_of, IsListed, listed};

use answers::{Answer, Done, Refusal};
use slots::index::SlotIndex;
use slots::layout::TABLE;
use slots::record::Slot;

// The listing of the entry in a slot, from `slot=` to `forged=`, is written at the start of the output; the answer has its length. Refuses with
// 1 (output under 2,048 bytes), 16 (slot over 15, or free) and 7 (record damaged), in that order.
pub fn listing(table: &[u8; TABLE], slot: usize, out: &mut [u8]) -> Answer
    ensures { IsListed (listed table.now slot out.old) result out.new }
{
    list_in(table, slot, out).into()
}

// The same with the refusals by name.
fn list_in(table: &[u8; TABLE], slot: usize, out: &mut [u8]) -> Result<Done, Refusal>
    ensures { IsListed (listed table.now slot out.old) (answer_of result) out.new }
{
    if out.len() < answers::OUTPUT {
        return Err(Refusal::OutputSmall);
    }
    let Some(index) = SlotIndex::new(slot) else {
        return Err(Refusal::NoSlot);
    };
    let held = Slot::at(table, index);
    if !held.is_occupied() {
        return Err(Refusal::NoSlot);
    }
    if !held.is_undamaged() {
        return Err(Refusal::Damaged);
    }
    Ok(Done {
        length: write_lines(slot, &held, out),
        slot,
        seqnum: 0,
    })
}

// The lines of an entry. Answers where they end.
fn write_lines(i: usize, slot: &Slot<'_>, out: &mut [u8]) -> usize
    requires whole { length slot.now ≡ slot_length }
    requires source_fits { source_length_of slot.now ≤ source_room }
    requires room { output_room ≤ length out.old }
    ensures value { result ≡ length (listing_of i slot.now) }
    ensures out_after { out.new ≡ put out.old 0 (listing_of i slot.now) }
{
    let named = write_named(i, slot, out);
    let settled = write_terms(slot, out, named);
    let moved = write_moved(slot, out, settled);
    write_counters(slot, out, moved)
}

// The lines that say which entry it is. Answers where they end.
fn write_named(i: usize, slot: &Slot<'_>, out: &mut [u8]) -> usize
    requires whole { length slot.now ≡ slot_length }
    requires source_fits { source_length_of slot.now ≤ source_room }
    requires room { output_room ≤ length out.old }
    ensures value { (result ≡ length (named_lines i slot.now)) × (result ≤ 700) }
    ensures out_after { out.new ≡ put out.old 0 (named_lines i slot.now) }
{
    let flag = slot.flag();
    let a = text::write_decimal_line(b"slot=", i as u64, out, 0);
    let b = text::write_decimal_line(b"flag=", flag as u64, out, a);
    let c = text::write_hex_line(b"keyid=", slot.keyid(), out, b);
    text::write_hex_line(b"source=", slot.source(), out, c)
}

// The other lines that an install settled, from `at` on. Answers where they end.
fn write_terms(slot: &Slot<'_>, out: &mut [u8], at: usize) -> usize
    requires { (at ≤ 700) × (output_room ≤ length out.old) }
    ensures value { (result ≡ at + length (term_lines slot.now)) × (result ≤ 820) }
    ensures out_after { out.new ≡ put out.old at (term_lines slot.now) }
{
    let suite = slot.suite();
    let edition = slot.edition();
    let frame = slot.frame();
    let a = text::write_decimal_line(b"suite=", suite as u64, out, at);
    let b = text::write_decimal_line(b"edition=", edition as u64, out, a);
    let c = text::write_decimal_line(b"size=", frame.size, out, b);
    text::write_decimal_line(b"start=", frame.start, out, c)
}

// The lines that the accepted messages moved, from `at` on. Answers where they end.
fn write_moved(slot: &Slot<'_>, out: &mut [u8], at: usize) -> usize
    requires { (at ≤ 820) × (output_room ≤ length out.old) }
    ensures value { (result ≡ at + length (moved_lines slot.now)) × (result ≤ 1000) }
    ensures out_after { out.new ≡ put out.old at (moved_lines slot.now) }
{
    let highest = slot.highest_bytes();
    let marks = slot.marks_bytes();
    let a = text::write_hex_line(b"highest=", highest, out, at);
    let b = text::write_hex_line(b"marks=", marks, out, a);
    let c = text::write_decimal_line(b"accepted=", slot.accepted(), out, b);
    text::write_decimal_line(b"bytes=", slot.bytes(), out, c)
}

// The lines of what was turned away, from `at` on. Answers where they end.
fn write_counters(slot: &Slot<'_>, out: &mut [u8], at: usize) -> usize
    requires { (at ≤ 1000) × (output_room ≤ length out.old) }
    ensures value { result ≡ at + length (counter_lines slot.now) }
    ensures out_after { out.new ≡ put out.old at (counter_lines slot.now) }
{
    let counters = slot.counters();
    let a = text::write_decimal_line(b"replays=", counters.replays, out, at);
    text::write_decimal_line(b"forged=", counters.forged, out, a)
}
