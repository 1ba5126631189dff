// An entry's parts in its slot: read, checked by the damage rule, and written back.
ghost use Rattle.std.specs.Prelude.{IsTrue, ◌↔◌, ◌≡◌, ◌+◌, ◌≤◌, ◌<◌, length, drop};
ghost use Rattle.format.specs.Header.{greatest_message};
ghost use Rattle.numbers.specs.Digits.{from_digits};
ghost use Rattle.octets.specs.Octets.{big_endian, bytes_of, put};
ghost use Rattle.format.specs.KeyData.{sound_of};
ghost use Rattle.window.specs.Window.{view_of, verdict_of};
ghost use Rattle.window.specs.Entry.{entry_view, taken};
ghost use Rattle.window.specs.declared.Verdict.TheVariants.{Admissible};
ghost use Rattle.slots.specs.Table.{slot_of, place_of, occupied, flag_of, cs_of, edition_of, key_id_length_of, key_id_room, key_id_of, source_of, source_length_of, source_room, key_of, frame_of, window_of, counters_of, entry_of, settled_in, settled, restored, raised, slot_length, accepted_at, bytes_at, marks_at, replays_at, spare_at, key_data_of};
ghost use Rattle.slots.specs.Record.{undamaged, IsUndamagedAs};

use crate::index::SlotIndex;
use crate::layout;
use crate::layout::{SLOT, TABLE};
use format::key_data;
use format::key_data::KeyData;
use std::marker::Model;
use window::{Counters, Entry, Frame, Window};

/// A counter of refused arrivals.
#[derive(Clone, Copy, Debug, PartialEq, Eq)]
pub enum Counter {
    Replays,
    Forged,
}

impl Counter {
    // Where it stands in a slot.
    fn place(self) -> usize
        ensures { result ≡ place_of self }
    {
        match self {
            Counter::Replays => layout::REPLAYS,
            Counter::Forged => layout::FORGED,
        }
    }
}

/// A slot of a table, read.
#[derive(Drop)]
pub struct Slot<'a> {
    content: &'a [u8; SLOT],
}

impl<'a> Model for Slot<'a> {
    ghost use Rattle.std.specs.Prelude.{List, ℕ, ◌≡◌, length};

    ghost Value = { List ℕ };

    ghost view = { λ s. s.content.now };

    ghost invariant = { λ s. length s.content.now ≡ 288 };
}

impl<'a> Slot<'a> {
    /// The bytes of a slot, whichever they are.
    pub fn of(content: &'a [u8; SLOT]) -> Slot<'a>
        ensures { result ≡ content.now }
    {
        Slot { content }
    }

    /// A slot of a table.
    pub fn at(table: &'a [u8; TABLE], slot: SlotIndex) -> Slot<'a>
        ensures value { result ≡ slot_of table.now slot }
        ensures whole { length result ≡ slot_length }
    {
        let from = slot.offset();
        let content: &'a [u8; SLOT] = table[from..from + SLOT].try_into().unwrap();
        Slot::of(content)
    }

    pub fn is_occupied(&self) -> bool
        ensures { result ≡ occupied self.now }
    {
        self.content[layout::OCCUPIED] != 0
    }

    pub fn flag(&self) -> u8
        ensures { result ≡ flag_of self.now }
    {
        self.content[layout::FLAG]
    }

    pub fn suite(&self) -> u8
        ensures { result ≡ cs_of self.now }
    {
        self.content[layout::SUITE]
    }

    pub fn edition(&self) -> u8
        ensures { result ≡ edition_of self.now }
    {
        self.content[layout::EDITION]
    }

    /// Whether the KeyId and the source that it names have room in their places.
    pub fn has_room(&self) -> bool
        ensures { IsTrue result ↔ ((key_id_length_of self.now ≤ key_id_room) × (source_length_of self.now ≤ source_room)) }
    {
        let content = self.content;
        content[layout::KEYID_LENGTH] as usize <= key_data::GREATEST_KEYID
            && content[layout::SOURCE_LENGTH] as usize <= key_data::GREATEST_SOURCE
    }

    pub fn keyid(&self) -> &'a [u8]
        ensures { result.now ≡ key_id_of self.now }
    {
        let content = self.content;
        let end = layout::KEYID + content[layout::KEYID_LENGTH] as usize;
        &content[layout::KEYID..end]
    }

    pub fn source(&self) -> &'a [u8]
        requires { source_length_of self.now ≤ source_room }
        ensures { result.now ≡ source_of self.now }
    {
        let content = self.content;
        let end = layout::SOURCE + content[layout::SOURCE_LENGTH] as usize;
        &content[layout::SOURCE..end]
    }

    pub fn key(&self) -> &'a [u8]
        ensures { result.now ≡ key_of self.now }
    {
        let content = self.content;
        &content[layout::KEY..layout::SIZE]
    }

    pub fn frame(&self) -> Frame
        ensures { result ≡ frame_of self.now }
    {
        Frame {
            size: self.number(layout::SIZE),
            start: self.number(layout::START),
        }
    }

    /// The six lowest bytes of its highest number.
    pub fn highest_bytes(&self) -> &'a [u8]
        ensures { result.now ≡ bytes_of 6 (window_of self.now).highest }
    {
        let content = self.content;
        highest_in(content)
    }

    /// The bytes of its marks.
    pub fn marks_bytes(&self) -> &'a [u8]
        ensures { result.now ≡ bytes_of 32 (window_of self.now).marks }
    {
        let content = self.content;
        marks_in(content)
    }

    pub fn accepted(&self) -> u64
        ensures { result ≡ big_endian 8 (drop accepted_at self.now) }
    {
        self.number(layout::ACCEPTED)
    }

    pub fn bytes(&self) -> u64
        ensures { result ≡ big_endian 8 (drop bytes_at self.now) }
    {
        self.number(layout::BYTES)
    }

    pub fn counters(&self) -> Counters
        ensures { result ≡ counters_of self.now }
    {
        Counters {
            replays: self.number(layout::REPLAYS),
            forged: self.number(layout::FORGED),
        }
    }

    /// Its window, totals and counters.
    pub fn entry(&self) -> Entry
        ensures { entry_view result ≡ entry_of self.now }
    {
        Entry {
            window: Window {
                frame: self.frame(),
                highest: self.number(layout::HIGHEST),
                marks: [
                    self.number(layout::MARKS + 24),
                    self.number(layout::MARKS + 16),
                    self.number(layout::MARKS + 8),
                    self.number(layout::MARKS),
                ],
            },
            accepted: self.accepted(),
            bytes: self.bytes(),
            counters: self.counters(),
        }
    }

    /// Whether its key data is sound.
    pub fn is_sound(&self) -> bool
        ensures { result ≡ sound_of (key_data_of self.now) }
    {
        let content = self.content;
        if key_data::GREATEST_SOURCE < content[layout::SOURCE_LENGTH] as usize {
            return false;
        }
        let keys = KeyData {
            flag: self.flag(),
            keyid: self.keyid(),
            source: self.source(),
            suite: self.suite(),
            edition: self.edition(),
            key: self.key(),
        };
        keys.is_sound()
    }

    /// Whether the damage rule finds nothing in it.
    pub fn is_undamaged(&self) -> bool
        ensures { result ≡ undamaged self.now }
    {
        self.is_undamaged_by(&self.entry())
    }

    /// The same where its entry has been read.
    pub fn is_undamaged_by(&self, entry: &Entry) -> bool
        requires { entry_view entry.now ≡ entry_of self.now }
        ensures { result ≡ undamaged self.now }
    {
        if !self.is_sound() {
            return false;
        }
        entry.is_undamaged()
    }

    // The number in the eight bytes from `at` on.
    fn number(&self, at: usize) -> u64
        requires { at + 8 ≤ slot_length }
        ensures { result ≡ big_endian 8 (drop at self.now) }
    {
        let content = self.content;
        u64::from_be_bytes(content[at..at + 8].try_into().unwrap())
    }
}

// The same of a slot's bytes.
fn highest_in(content: &[u8]) -> &[u8]
    requires { length content.now ≡ slot_length }
    ensures { result.now ≡ bytes_of 6 (window_of content.now).highest }
{
    &content[layout::HIGHEST + 2..layout::MARKS]
}

fn marks_in(content: &[u8]) -> &[u8]
    requires { length content.now ≡ slot_length }
    ensures { result.now ≡ bytes_of 32 (window_of content.now).marks }
{
    &content[layout::MARKS..layout::ACCEPTED]
}

/// The entry in a slot, as it was read, takes a message: a number that its window finds admissible, and a payload of so many bytes. Not
/// copied into its caller, in whose frame the entry that is written would have its place while the message is opened.
#[inline(never)]
pub fn take(table: &mut [u8; TABLE], slot: SlotIndex, entry: &Entry, number: u64, payload: usize)
    requires short { payload ≤ greatest_message }
    requires is_undamaged { IsUndamagedAs (entry_view entry.now) (slot_of table.old slot) }
    requires admissible { verdict_of (view_of entry.now.window) number ≡ Admissible }
    ensures { table.new ≡ settled table.old slot (taken (entry_of (slot_of table.old slot)) number payload) }
{
    let from = slot.offset();
    settle(&mut table[from..from + SLOT], &entry.taken(number, payload));
}

/// One refusal more in a counter of the entry in a slot.
#[tactic(auto, using(crate::proofs::Rewriting::place_within))]
pub fn raise(table: &mut [u8; TABLE], slot: SlotIndex, counter: Counter)
    ensures { table.new ≡ raised table.old slot (place_of counter) }
{
    raise_at(table, slot, counter.place());
}

/// The same of the eight bytes that stand at a place among the counters.
pub fn raise_at(table: &mut [u8; TABLE], slot: SlotIndex, counter: usize)
    requires { (replays_at ≤ counter) × (counter + 8 ≤ spare_at) }
    ensures { table.new ≡ raised table.old slot counter }
{
    let refused = Slot::at(table, slot).number(counter);
    let from = slot.offset();
    octets::write(
        &mut table[from..from + SLOT],
        counter,
        8,
        window::one_more(refused),
    );
}

/// The window, the totals and the counters of an entry are written into its slot; the frame stays.
pub fn restore(table: &mut [u8; TABLE], slot: SlotIndex, entry: &Entry)
    ensures { table.new ≡ restored table.old slot (entry_view entry.now) }
{
    let from = slot.offset();
    let held = &mut table[from..from + SLOT];
    settle(held, entry);
    let counters = entry.counters;
    octets::write(held, layout::REPLAYS, 8, counters.replays);
    octets::write(held, layout::FORGED, 8, counters.forged);
}

// Of an entry the window and the totals are written into its slot; frame and counters stay.
fn settle(slot: &mut [u8], entry: &Entry)
    requires { length slot.old ≡ slot_length }
    ensures { slot.new ≡ settled_in (entry_view entry.now) slot.old }
{
    let window = entry.window;
    octets::write(slot, layout::HIGHEST, 8, window.highest);
    write_marks(slot, window.marks);
    octets::write(slot, layout::ACCEPTED, 8, entry.accepted);
    octets::write(slot, layout::BYTES, 8, entry.bytes);
}

// A window's marks are written as one number of 32 bytes.
fn write_marks(slot: &mut [u8], marks: [u64; 4])
    requires { length slot.old ≡ slot_length }
    ensures { slot.new ≡ put slot.old marks_at (bytes_of 32 (from_digits 64 marks)) }
{
    octets::write(slot, layout::MARKS, 8, marks[3]);
    octets::write(slot, layout::MARKS + 8, 8, marks[2]);
    octets::write(slot, layout::MARKS + 16, 8, marks[1]);
    octets::write(slot, layout::MARKS + 24, 8, marks[0]);
}
