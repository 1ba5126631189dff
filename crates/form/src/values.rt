// What the lines of a listing say, in four stretches, as they are printed: two that an install settled, and two by the arrivals.
ghost use Rattle.std.specs.Prelude.{◌≡◌, length};
ghost use Rattle.text.specs.Written.{written};

use text::reading::Hex;
use window::{Counters, Frame};

// Which entry it is.
#[derive(Clone, Copy)]
pub struct NamedLines<'a> {
    pub slot: u64,
    pub flag: u64,
    pub keyid: Hex<'a>,
    pub source: Hex<'a>,
}

// What else an install settled.
#[derive(Clone, Copy)]
pub struct TermLines {
    pub suite: u64,
    pub edition: u64,
    pub frame: Frame,
}

// What the accepted messages moved.
#[derive(Clone, Copy)]
pub struct MovedLines<'a> {
    pub highest: u64,
    pub marks: Hex<'a>,
    pub accepted: u64,
    pub bytes: u64,
    pub ghost whole: { length (written marks) ≡ 32 },
}

// All that an install settled.
#[derive(Clone, Copy)]
pub struct SettledLines<'a> {
    pub named: NamedLines<'a>,
    pub terms: TermLines,
}

// All that is by the arrivals: what was accepted, and what was turned away.
#[derive(Clone, Copy)]
pub struct ArrivalLines<'a> {
    pub moved: MovedLines<'a>,
    pub counters: Counters,
}
