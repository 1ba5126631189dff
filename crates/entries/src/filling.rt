// A fresh entry's slot, written.
ghost use Rattle.std.specs.Prelude.{◌≡◌, ◌+◌, ◌<◌, ◌≤◌, length};
ghost use Rattle.octets.specs.Octets.{put};
ghost use Rattle.slots.specs.Table.{slot_length, occupied_at, size_at, replaced};
ghost use Rattle.entries.specs.Fresh.{FitsSlot, prefixed, head_of, frame_bytes, fresh_slot};

use format::key_data;
use format::key_data::KeyData;
use slots::index::SlotIndex;
use slots::layout;
use slots::layout::{SLOT, TABLE};
use window::Frame;

// A fresh entry fills its slot.
pub(crate) fn write_entry(
    table: &mut [u8; TABLE],
    slot: SlotIndex,
    keys: &KeyData<'_>,
    frame: Frame,
)
    requires { FitsSlot keys.now }
    ensures { table.new ≡ replaced table.old slot (fresh_slot keys.now frame) }
{
    let from = slot.offset();
    let fresh = &mut table[from..from + SLOT];
    write_head(fresh, keys);
    write_prefixed(
        keys.keyid,
        fresh,
        layout::KEYID_LENGTH,
        key_data::GREATEST_KEYID,
    );
    write_prefixed(
        keys.source,
        fresh,
        layout::SOURCE_LENGTH,
        key_data::GREATEST_SOURCE,
    );
    octets::copy(keys.key, fresh, layout::KEY);
    write_frame(fresh, frame);
    octets::clear(fresh, layout::HIGHEST, SLOT - layout::HIGHEST);
}

// The first bytes of an occupied slot.
fn write_head(slot: &mut [u8], keys: &KeyData<'_>)
    requires { length slot.old ≡ slot_length }
    ensures { slot.new ≡ put slot.old occupied_at (head_of keys.now.flag keys.now.suite keys.now.edition) }
{
    octets::write(slot, layout::OCCUPIED, 1, 1);
    octets::write(slot, layout::FLAG, 1, keys.flag as u64);
    octets::write(slot, layout::SUITE, 1, keys.suite as u64);
    octets::write(slot, layout::EDITION, 1, keys.edition as u64);
}

// What is settled of the window.
fn write_frame(slot: &mut [u8], frame: Frame)
    requires { length slot.old ≡ slot_length }
    ensures { slot.new ≡ put slot.old size_at (frame_bytes frame) }
{
    octets::write(slot, layout::SIZE, 8, frame.size);
    octets::write(slot, layout::START, 8, frame.start);
}

// The bytes behind their length, with zeros behind them up to so many in all, are written at `at`.
fn write_prefixed(bytes: &[u8], out: &mut [u8], at: usize, room: usize)
    requires { (length bytes.now ≤ room) × (room < 256) × (at + 1 + room ≤ length out.old) }
    ensures { out.new ≡ put out.old at (prefixed room bytes.now) }
{
    octets::write(out, at, 1, bytes.len() as u64);
    octets::copy(bytes, out, at + 1);
    octets::clear(out, at + 1 + bytes.len(), room - bytes.len());
}
