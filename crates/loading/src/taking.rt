// The entry that a listing names, and the window, totals and counters that it takes.
ghost use Rattle.std.specs.Prelude.{◌≡◌};
ghost use Rattle.answers.specs.Answers.{answer_of};
ghost use Rattle.octets.specs.Octets.{big_endian};
ghost use Rattle.text.specs.Written.{written};
ghost use Rattle.window.specs.Window.{view_of};
ghost use Rattle.entries.specs.Install.{IsLeft};
ghost use Rattle.form.specs.Found.{named_values, settled_values, arrival_values};
ghost use Rattle.loading.specs.Load.{named_so, terms_so, stands, taken_up, loaded};

use answers::{Done, Refusal};
use form::reader::Reader;
use form::values::{ArrivalLines, MovedLines, NamedLines, SettledLines, TermLines};
use slots::index::SlotIndex;
use slots::layout::TABLE;
use slots::record;
use slots::record::Slot;
use window::{Entry, Frame, Window};

// A text that is not in its form is refused with 21; else its entry is looked for.
pub(crate) fn load_in(table: &mut [u8; TABLE], text: &[u8]) -> Result<Done, Refusal>
    ensures { IsLeft (loaded table.old text.now) (answer_of result) table.new }
{
    let mut reader = Reader::new(text);
    let Some(settled) = reader.settled() else {
        return Err(Refusal::BadText);
    };
    let Some(arrivals) = reader.arrivals() else {
        return Err(Refusal::BadText);
    };
    if !reader.is_at_end() {
        return Err(Refusal::BadText);
    }
    take_up(table, &settled, &arrivals)
}

// Where no such entry stands, 22, and where it would be damaged, 23; else it takes the listed window, totals and counters.
fn take_up(
    table: &mut [u8; TABLE],
    settled: &SettledLines<'_>,
    arrivals: &ArrivalLines<'_>,
) -> Result<Done, Refusal>
    ensures { IsLeft (taken_up table.old (record { settled = settled_values settled.now; arrivals = arrival_values arrivals.now })) (answer_of result) table.new }
{
    let Some(slot) = SlotIndex::new(settled.named.slot as usize) else {
        return Err(Refusal::NotStanding);
    };
    let held = Slot::at(table, slot);
    if !stands(&held, settled) {
        return Err(Refusal::NotStanding);
    }
    if !held.is_sound() {
        return Err(Refusal::WouldBeDamaged);
    }
    let moved = &arrivals.moved;
    let entry = Entry {
        window: listed_window(settled.terms.frame, moved),
        accepted: moved.accepted,
        bytes: moved.bytes,
        counters: arrivals.counters,
    };
    if !entry.is_undamaged() {
        return Err(Refusal::WouldBeDamaged);
    }
    record::restore(table, slot, &entry);
    Ok(Done::at(slot.number))
}

// Whether the listed entry stands in a slot with accepted 0.
fn stands(slot: &Slot<'_>, settled: &SettledLines<'_>) -> bool
    ensures { result ≡ stands (settled_values settled.now) slot.now }
{
    if !named_so(slot, &settled.named) {
        return false;
    }
    if !terms_so(slot, settled.terms) {
        return false;
    }
    slot.accepted() == 0
}

// Whether the entry in a slot has the listed flag, KeyId and source.
fn named_so(slot: &Slot<'_>, named: &NamedLines<'_>) -> bool
    ensures { result ≡ named_so (named_values named.now) slot.now }
{
    if !slot.is_occupied() {
        return false;
    }
    if !slot.has_room() {
        return false;
    }
    if u64::from(slot.flag()) != named.flag {
        return false;
    }
    if !named.keyid.is(slot.keyid()) {
        return false;
    }
    named.source.is(slot.source())
}

// Whether it has the listed suite, edition, size and start.
fn terms_so(slot: &Slot<'_>, terms: TermLines) -> bool
    ensures { result ≡ terms_so terms slot.now }
{
    if u64::from(slot.suite()) != terms.suite {
        return false;
    }
    if u64::from(slot.edition()) != terms.edition {
        return false;
    }
    let held = slot.frame();
    let frame = terms.frame;
    if held.size != frame.size {
        return false;
    }
    held.start == frame.start
}

// The listed window: the marks are four words, the lowest last in the text.
fn listed_window(frame: Frame, moved: &MovedLines<'_>) -> Window
    ensures { view_of result ≡ record { frame = frame; highest = moved.now.highest; marks = big_endian 32 (written moved.now.marks) } }
{
    let marks = &moved.marks;
    Window {
        frame,
        highest: moved.highest,
        marks: [
            marks.part(24, 8).number(),
            marks.part(16, 8).number(),
            marks.part(8, 8).number(),
            marks.part(0, 8).number(),
        ],
    }
}
