// Which slot of a table a message leads to, which other one has its name, and which is free.
#![tactic(auto)]

ghost use Rattle.std.specs.Prelude.{◌≡◌, ◌<◌, ℕ, Bool};
ghost use Rattle.slots.specs.Table.{slot_count};
ghost use Rattle.lookup.specs.Lookup.{matches, leads_to, leads_elsewhere, first_free, first_from};

use slots::index::SlotIndex;
use slots::layout::{SLOTS, TABLE};
use slots::record::Slot;

/// The lowest occupied slot with that flag and KeyId and, for flag 1, that source.
#[tactic(auto, unfolding(crate::specs::Lookup::leads_to))]
pub fn leads_to(table: &[u8; TABLE], flag: u8, keyid: &[u8], source: &[u8]) -> Option<SlotIndex>
    ensures { result ≡ leads_to table.now flag keyid.now source.now }
{
    first_slot(|slot| agrees(&Slot::at(table, slot), flag, keyid, source))
}

/// The lowest other one than the slot with that number.
#[tactic(auto, unfolding(crate::specs::Lookup::leads_elsewhere))]
pub fn leads_elsewhere(
    table: &[u8; TABLE],
    slot: usize,
    flag: u8,
    keyid: &[u8],
    source: &[u8],
) -> Option<SlotIndex>
    ensures { result ≡ leads_elsewhere table.now slot flag keyid.now source.now }
{
    first_slot(move |other| {
        other.number != slot && agrees(&Slot::at(table, other), flag, keyid, source)
    })
}

/// The lowest free slot.
#[tactic(auto, unfolding(crate::specs::Lookup::first_free))]
pub fn first_free(table: &[u8; TABLE]) -> Option<SlotIndex>
    ensures { result ≡ first_free table.now }
{
    first_slot(|slot| !Slot::at(table, slot).is_occupied())
}

// The lowest slot that passes a test.
fn first_slot<F: Fn(SlotIndex) -> bool>(test: F) -> Option<SlotIndex>
    requires { F.IsAlwaysCallable test }
    ensures { (passes : ℕ → Bool) → ((i : ℕ) (b : Bool) → i < slot_count → F.post test i b → b ≡ passes i) → result ≡ first_from passes slot_count 0 }
{
    for number in 0..SLOTS {
        let slot = SlotIndex { number };
        if test(slot) {
            return Some(slot);
        }
    }
    None
}

// Whether a slot has that flag and KeyId and, for flag 1, that source. A call costs more than the tests that most slots fail at.
#[inline(always)]
fn agrees(slot: &Slot<'_>, flag: u8, keyid: &[u8], source: &[u8]) -> bool
    ensures { result ≡ matches flag keyid.now source.now slot.now }
{
    if !slot.is_occupied() {
        return false;
    }
    if !slot.has_room() {
        return false;
    }
    if slot.flag() != flag {
        return false;
    }
    if slot.keyid() != keyid {
        return false;
    }
    flag == 0 || slot.source() == source
}
