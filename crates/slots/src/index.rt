// Which slot of a table: a number below 16.
ghost use Rattle.std.specs.Prelude.{◌≡◌, ◌*◌, ◌<◌, ◌↔◌, ◌≤◌, IsSome, IfSome, IfNone};
ghost use Rattle.slots.specs.Table.{slot_count, slot_length};

use crate::layout;
use std::marker::Model;

#[derive(Clone, Copy)]
pub struct SlotIndex {
    pub number: usize,
}

impl Model for SlotIndex {
    ghost use Rattle.std.specs.Prelude.{ℕ, ◌<◌};

    ghost Value = { ℕ };

    ghost view = { λ s. s.number };

    ghost invariant = { λ s. s.number < 16 };

    ghost inverse = { λ n. record { number = n } };
}

impl SlotIndex {
    /// Nothing where the table has no such slot.
    pub fn new(number: usize) -> Option<SlotIndex>
        ensures within { IsSome result ↔ (number < slot_count) }
        ensures same { IfSome result (λ slot. slot ≡ number) }
        ensures past { IfNone result (slot_count ≤ number) }
    {
        if layout::SLOTS <= number {
            return None;
        }
        Some(SlotIndex { number })
    }

    /// Where its bytes begin in a table.
    pub fn offset(self) -> usize
        ensures value { result ≡ slot_length * self }
        ensures within { self < slot_count }
    {
        layout::SLOT * self.number
    }
}
