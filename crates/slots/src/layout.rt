// Where the parts of an entry stand in its slot, and how many bytes they have. Numbers are big-endian. The places stay as they are from one
// version to the next, so that a saved table can be read again.
pub const SLOTS: usize = 16;

pub const SLOT: usize = 288;

// Bytes of a table. One of zeros is empty.
pub const TABLE: usize = 4608;

// 0 in a free slot.
pub const OCCUPIED: usize = 0;

pub const FLAG: usize = 1;

pub const SUITE: usize = 2;

pub const EDITION: usize = 3;

pub const KEYID_LENGTH: usize = 4;

pub const KEYID: usize = 5;

pub const SOURCE_LENGTH: usize = 133;

pub const SOURCE: usize = 134;

pub const KEY: usize = 166;

pub const SIZE: usize = 198;

pub const START: usize = 206;

pub const HIGHEST: usize = 214;

pub const MARKS: usize = 222;

pub const ACCEPTED: usize = 254;

pub const BYTES: usize = 262;

// The two counters of refused arrivals. Two bytes of a slot are left behind them.
pub const REPLAYS: usize = 270;

pub const FORGED: usize = 278;
