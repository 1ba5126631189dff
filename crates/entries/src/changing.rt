// An entry changed in its slot.
ghost use Rattle.answers.specs.Answers.{answer_of};
ghost use Rattle.entries.specs.Change.{changed};
ghost use Rattle.entries.specs.Install.{IsLeft};

use crate::{filling, installing};
use answers::{Done, Refusal};
use format::key_data::KeyData;
use slots::layout::TABLE;
use window::Frame;

// Replies 16, 13 and 14 in that order; else a fresh entry in the slot.
#[tactic(auto, unfolding(crate::specs::Change::changed))]
pub(crate) fn change_in(
    table: &mut [u8; TABLE],
    slot: usize,
    keys: &KeyData<'_>,
    frame: Frame,
) -> Result<Done, Refusal>
    ensures { IsLeft (changed table.old slot keys.now frame) (answer_of result) table.new }
{
    let index = installing::held(table, slot)?;
    if !installing::fair(keys, frame) {
        return Err(Refusal::Unsound);
    }
    if lookup::leads_elsewhere(table, slot, keys.flag, keys.keyid, keys.source).is_some() {
        return Err(Refusal::Twin);
    }
    filling::write_entry(table, index, keys, frame);
    Ok(Done::at(index.number))
}
