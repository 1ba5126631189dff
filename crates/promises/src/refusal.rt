//! A refusal answers its number with length, slot and SeqNum 0, and changes nothing; but for 9, 10 and 11 of an arrival, which change one counter.

ghost use Rattle.std.specs.Prelude.{List, Option, ℕ};
ghost use Rattle.window.specs.declared.Frame.{Frame};
ghost use Rattle.format.specs.KeyData.{KeyData};
ghost use Rattle.entries.specs.Change.{changed};
ghost use Rattle.entries.specs.Install.{installed, removed};
ghost use Rattle.loading.specs.Load.{loaded};
ghost use Rattle.listing.specs.Listing.{listed};
ghost use Rattle.gateway.specs.Receive.{received};
ghost use Rattle.capture.specs.Capture.{record_at};
ghost use Rattle.capture.specs.declared.order.Order.{Order};
ghost use Rattle.feed.specs.Report.{reported};
ghost use Rattle.sender.specs.Protect.{outcome_of};
ghost use Rattle.sender.specs.declared.Sender.{Sender};
ghost use Rattle.promises.specs.Refusals.{Barren, Holds, Keeps, Stays, Unread, Unwritten};

/// Any refusal of an arrival leaves the output, and 1 to 8 leave the table. 9, 10 and 11 leave every byte of it but the eight of one counter,
/// in the slot to which the message leads, and that has one more or stays at its limit.
pub fn receive_keeps()
    ensures { (t m source out : List ℕ) → Keeps t m source out (received t m source out) }
{}

/// An install that is refused leaves the table.
pub fn install_keeps()
    ensures { (t : List ℕ) (k : KeyData) (f : Frame) → Stays t (installed t k f) }
{}

/// A removal that is refused leaves the table.
pub fn remove_keeps()
    ensures { (t : List ℕ) (i : ℕ) → Stays t (removed t i) }
{}

/// A change that is refused leaves the table.
pub fn change_keeps()
    ensures { (t : List ℕ) (i : ℕ) (k : KeyData) (f : Frame) → Stays t (changed t i k f) }
{}

/// A load that is refused leaves the table.
pub fn load_keeps()
    ensures { (t text : List ℕ) → Stays t (loaded t text) }
{}

/// A listing that is refused leaves the output.
pub fn listing_keeps()
    ensures { (t : List ℕ) (i : ℕ) (out : List ℕ) → Unwritten out (listed t i out) }
{}

/// A report that is refused leaves the table and the output.
pub fn report_keeps()
    ensures { (t file out : List ℕ) → Unread t out (reported t file out) }
{}

/// A record of a capture that cannot be read has neither source nor message, and leaves the table.
pub fn record_keeps()
    ensures { (t file : List ℕ) (o : Option Order) (at : ℕ) → Barren t file (record_at o file at) }
{}

/// A refusal of the sender leaves its number and the output.
pub fn protect_keeps()
    ensures { (s : Sender) (payload out : List ℕ) → Holds s out (outcome_of s payload out) }
{}
