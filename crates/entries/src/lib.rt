// Entries put into the table that a caller lends, changed there, and taken out of it.
#![tactic(auto)]

ghost use Rattle.format.specs.KeyData.{handed_in};
ghost use Rattle.entries.specs.Change.{changed};
ghost use Rattle.entries.specs.Install.{IsLeft, installed, removed};

use answers::Answer;
use format::key_data::KeyData;
use slots::layout::TABLE;
use window::Frame;

mod changing; // changing.rt: an entry changed in its slot
mod filling; // filling.rt: a fresh entry's slot, written
mod installing; // installing.rt: entries put into the table and taken out, and what is asked before

// A fresh entry takes the lowest free slot, and will take no number below its start. Refuses with 13 (key data, Size or start unsound), 14 (an
// occupied slot has the same flag and KeyId and, for flag 1, source) and 15 (no free slot), in that order.
pub fn install(
    table: &mut [u8; TABLE],
    flag: u8,
    keyid: &[u8],
    source: &[u8],
    suite: u8,
    edition: u8,
    key: &[u8],
    size: u64,
    start: u64,
) -> Answer
    ensures { IsLeft (installed table.old (handed_in flag keyid.now source.now suite edition key.now) (record { size = size; start = start })) result table.new }
{
    let keys = KeyData {
        flag,
        keyid,
        source,
        suite,
        edition,
        key,
    };
    let frame = Frame { size, start };
    installing::install_in(table, &keys, frame).into()
}

// The slot is freed and holds zeros only. Refuses with 16 (slot over 15, or free).
pub fn remove(table: &mut [u8; TABLE], slot: usize) -> Answer
    ensures { IsLeft (removed table.old slot) result table.new }
{
    installing::remove_in(table, slot).into()
}

// The slot's entry becomes a fresh one with other key data, Size and start, or nothing changes. Refuses with 16 (slot over 15, or free), 13 (key data,
// Size or start unsound) and 14 (another occupied slot has the same flag and KeyId and, for flag 1, source), in that order.
pub fn change(
    table: &mut [u8; TABLE],
    slot: usize,
    flag: u8,
    keyid: &[u8],
    source: &[u8],
    suite: u8,
    edition: u8,
    key: &[u8],
    size: u64,
    start: u64,
) -> Answer
    ensures { IsLeft (changed table.old slot (handed_in flag keyid.now source.now suite edition key.now) (record { size = size; start = start })) result table.new }
{
    let keys = KeyData {
        flag,
        keyid,
        source,
        suite,
        edition,
        key,
    };
    let frame = Frame { size, start };
    changing::change_in(table, slot, &keys, frame).into()
}
