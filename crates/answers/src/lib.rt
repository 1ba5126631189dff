// What a public function answers: done, with 01's values, or a refusal, which has 01's number and the header's words; and the room that an output must have.
#![tactic(auto)]

ghost use Rattle.std.specs.Prelude.{◌≡◌};
ghost use Rattle.answers.specs.Answers.{answer_of, at_slot, refused, refusal_number};

use std::error::Error;
use std::fmt;

// Bytes that an output has to have, whatever is written into it.
pub const OUTPUT: usize = 2048;

// The reply of a call that was done.
pub const DONE: u64 = 0;

// What C sees: a reply, and with reply 0 a length, a slot and a number as the function says.
#[repr(C)]
#[derive(Drop)]
pub struct Answer {
    pub reply: u64,
    pub length: usize,
    pub slot: usize,
    pub seqnum: u64,
}

// Done: a length, a slot and a number, each 0 where the function has none.
#[derive(Clone, Copy)]
pub struct Done {
    pub length: usize,
    pub slot: usize,
    pub seqnum: u64,
}

impl Done {
    // Done at a slot, with nothing to tell of a message.
    pub fn at(slot: usize) -> Done
        ensures { result ≡ at_slot slot }
    {
        Done {
            length: 0,
            slot,
            seqnum: 0,
        }
    }
}

// Why nothing was done, in the order of the replies from 1 on.
#[derive(Clone, Copy, Debug, PartialEq, Eq)]
pub enum Refusal {
    OutputSmall,
    BadLength,
    BadVersion,
    BadSuite,
    TooShort,
    NoEntry,
    Damaged,
    OtherSuite,
    BelowFloor,
    Repeated,
    WrongIcv,
    NoNumber,
    Unsound,
    Twin,
    Full,
    NoSlot,
    BadCapture,
    CutShort,
    LengthsDiffer,
    Unreadable,
    BadText,
    NotStanding,
    WouldBeDamaged,
}

impl Refusal {
    // The reply by which C knows it.
    pub const fn number(self) -> u64
        ensures { result ≡ refusal_number self }
    {
        match self {
            Refusal::OutputSmall => 1,
            Refusal::BadLength => 2,
            Refusal::BadVersion => 3,
            Refusal::BadSuite => 4,
            Refusal::TooShort => 5,
            Refusal::NoEntry => 6,
            Refusal::Damaged => 7,
            Refusal::OtherSuite => 8,
            Refusal::BelowFloor => 9,
            Refusal::Repeated => 10,
            Refusal::WrongIcv => 11,
            Refusal::NoNumber => 12,
            Refusal::Unsound => 13,
            Refusal::Twin => 14,
            Refusal::Full => 15,
            Refusal::NoSlot => 16,
            Refusal::BadCapture => 17,
            Refusal::CutShort => 18,
            Refusal::LengthsDiffer => 19,
            Refusal::Unreadable => 20,
            Refusal::BadText => 21,
            Refusal::NotStanding => 22,
            Refusal::WouldBeDamaged => 23,
        }
    }
}

impl fmt::Display for Refusal {
    fn fmt<W: fmt::Write>(&self, f: &mut fmt::Formatter<W>) -> fmt::Result {
        let words = match self {
            Refusal::OutputSmall => "output under 2,048 bytes",
            Refusal::BadLength => "message not 14 to 2,048 bytes, or payload too long",
            Refusal::BadVersion => "version not 0",
            Refusal::BadSuite => "suite not 1, 2, 241 or 242",
            Refusal::TooShort => "message too short for its KeyId and the check value of its suite",
            Refusal::NoEntry => "no slot matches",
            Refusal::Damaged => "the record is damaged",
            Refusal::OtherSuite => "suite not the entry's",
            Refusal::BelowFloor => "number below the window, or below the entry's start",
            Refusal::Repeated => "number accepted before",
            Refusal::WrongIcv => "check value wrong",
            Refusal::NoNumber => "the sender has used number 2^48 - 1",
            Refusal::Unsound => "key data, window size or start unsound",
            Refusal::Twin => "an occupied slot has the same flag and KeyId and, for flag 1, source",
            Refusal::Full => "no free slot",
            Refusal::NoSlot => "slot over 15, or free",
            Refusal::BadCapture =>
                "a capture's header is bad, or its size is not 24 to 65,536 bytes",
            Refusal::CutShort => "a record's header or data runs past the capture's end",
            Refusal::LengthsDiffer => "a record's captured and original length differ",
            Refusal::Unreadable => "a record is empty, or its identifier runs past it",
            Refusal::BadText => "a text is not in the form of a listing",
            Refusal::NotStanding =>
                "the listed entry is not in its slot, or has accepted something",
            Refusal::WouldBeDamaged => "the listed entry would make a damaged record",
        };
        f.write_str(words)
    }
}

impl Error for Refusal {}

impl From<Refusal> for Answer {
    ghost from_gives = { λ refusal answer. answer ≡ refused (refusal_number refusal) };

    fn from(refusal: Refusal) -> Answer {
        Answer {
            reply: refusal.number(),
            length: 0,
            slot: 0,
            seqnum: 0,
        }
    }
}

impl From<Result<Done, Refusal>> for Answer {
    ghost from_gives = { λ outcome answer. answer ≡ answer_of outcome };

    fn from(outcome: Result<Done, Refusal>) -> Answer {
        match outcome {
            Ok(done) => Answer {
                reply: DONE,
                length: done.length,
                slot: done.slot,
                seqnum: done.seqnum,
            },
            Err(refusal) => Answer::from(refusal),
        }
    }
}
