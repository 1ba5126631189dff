// Entries put into the table and taken out, and what is asked before.
ghost use Rattle.std.specs.Prelude.{◌≡◌, ◌↔◌, true, IsOk, IfOk, IfErr};
ghost use Rattle.std.specs.Bool.{OnTrue};
ghost use Rattle.answers.specs.Answers.{answer_of};
ghost use Rattle.answers.specs.declared.Refusal.TheVariants.{NoSlot};
ghost use Rattle.slots.specs.Table.{is_held};
ghost use Rattle.entries.specs.Fresh.{FitsSlot};
ghost use Rattle.entries.specs.Install.{IsLeft, is_fair, installed, removed};

use crate::filling;
use answers::{Done, Refusal};
use format::key_data::KeyData;
use slots::index::SlotIndex;
use slots::layout::{SLOT, TABLE};
use slots::record::Slot;
use window::Frame;

// Replies 13, 14 and 15 in that order; else a fresh entry in the lowest free slot.
#[tactic(auto, unfolding(crate::specs::Install::installed))]
pub(crate) fn install_in(
    table: &mut [u8; TABLE],
    keys: &KeyData<'_>,
    frame: Frame,
) -> Result<Done, Refusal>
    ensures { IsLeft (installed table.old keys.now frame) (answer_of result) table.new }
{
    if !fair(keys, frame) {
        return Err(Refusal::Unsound);
    }
    if lookup::leads_to(table, keys.flag, keys.keyid, keys.source).is_some() {
        return Err(Refusal::Twin);
    }
    let Some(slot) = lookup::first_free(table) else {
        return Err(Refusal::Full);
    };
    filling::write_entry(table, slot, keys, frame);
    Ok(Done::at(slot.number))
}

// Reply 16, or the slot cleared.
#[tactic(auto, unfolding(crate::specs::Install::removed))]
pub(crate) fn remove_in(table: &mut [u8; TABLE], slot: usize) -> Result<Done, Refusal>
    ensures { IsLeft (removed table.old slot) (answer_of result) table.new }
{
    let index = held(table, slot)?;
    octets::clear(table, index.offset(), SLOT);
    Ok(Done::at(index.number))
}

// The slot with that number, if the table has it and it is occupied: if not, 16.
pub(crate) fn held(table: &[u8; TABLE], slot: usize) -> Result<SlotIndex, Refusal>
    ensures there { IsOk result ↔ (is_held table.now slot ≡ true) }
    ensures same { IfOk result (λ held. held ≡ slot) }
    ensures none { IfErr result (λ refusal. refusal ≡ NoSlot) }
{
    let Some(held) = SlotIndex::new(slot) else {
        return Err(Refusal::NoSlot);
    };
    if !Slot::at(table, held).is_occupied() {
        return Err(Refusal::NoSlot);
    }
    Ok(held)
}

// Whether key data, Size and start are sound: if not, 13.
#[tactic(auto, using(crate::proofs::Bounds::fits_slot))]
pub(crate) fn fair(keys: &KeyData<'_>, frame: Frame) -> bool
    ensures answers { result ≡ is_fair keys.now frame }
    ensures fits { OnTrue result (FitsSlot keys.now) }
{
    keys.is_sound() && frame.is_sound()
}
