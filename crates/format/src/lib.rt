// CRISP messages of version 0, as they are laid out: KeyIds, suites, key data, and the header. No cipher, no table.
#![tactic(auto)]

pub mod header; // header.rt: the header, read and written
pub mod key_data; // key_data.rt: key data, and whether it is sound
pub mod key_id; // key_id.rt: kind and length of a KeyId
pub mod suite; // suite.rt: what a suite settles
