// Capture files (classic pcap), whatever their bytes. `specs/Capture.antt` says what the records of a file are.
#![tactic(auto)]

mod digits; // digits.rt: a number in either order
pub mod order; // order.rt: the order of a file's numbers, by its header
pub mod record; // record.rt: the record at a place, and the place after it
