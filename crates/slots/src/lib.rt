// A slot of the table that a caller lends: where the parts of an entry stand, and its window, totals and counters, read, checked and written.
#![tactic(auto)]

pub mod index; // index.rt: which slot of a table
pub mod layout; // layout.rt: where the parts of an entry stand in its slot
pub mod record; // record.rt: a slot, read, checked and written back
