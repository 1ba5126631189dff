//! Each reply is given exactly in its case: n is the reply if and only if n's own test holds and none of the tests before it does, and 0 is if
//! and only if no test holds. Then the cases on both sides of each edge.

ghost use Rattle.std.specs.Prelude.{◌<◌, ◌≡◌, ◌≤◌, List, Ok, Option, Some, T, length, true, ℕ};
ghost use Rattle.octets.specs.Octets.{Bytes};
ghost use Rattle.answers.specs.Answers.{output_room};
ghost use Rattle.window.specs.declared.Frame.{Frame};
ghost use Rattle.window.specs.Entry.{Entry};
ghost use Rattle.format.specs.KeyData.{KeyData};
ghost use Rattle.format.specs.Header.{payload_length, read_of};
ghost use Rattle.format.specs.declared.header.Header.{Header};
ghost use Rattle.slots.specs.Table.{entry_of, slot_of};
ghost use Rattle.entries.specs.Change.{changed};
ghost use Rattle.entries.specs.Install.{installed, removed};
ghost use Rattle.loading.specs.Load.{loaded};
ghost use Rattle.listing.specs.Listing.{listed};
ghost use Rattle.gateway.specs.Receive.{received};
ghost use Rattle.capture.specs.Capture.{record_at};
ghost use Rattle.capture.specs.declared.order.Order.{Order};
ghost use Rattle.feed.specs.Report.{reported};
ghost use Rattle.sender.specs.Protect.{outcome_of};
ghost use Rattle.sender.specs.declared.Sender.{Sender};
ghost use Rattle.promises.specs.Calls.{Call};
ghost use Rattle.promises.specs.Cases.{Follows, Like, Row, Step, Turns, all, goes, table};
ghost use Rattle.promises.specs.Counted.{Beginning, is_genuine};
ghost use Rattle.promises.specs.History.{Begins};
ghost use Rattle.promises.specs.Replies.{Exactly, change_replies, first_of, install_replies, listing_replies, load_replies, protect_replies, receive_replies, record_replies, remove_replies, report_replies};

/// Each reply to an arrival is given exactly in its case.
pub fn receive_exactly()
    ensures { (t m source out : List ℕ) → Exactly (received t m source out).answer.reply (receive_replies t m source out) }
{}

/// Each reply to an install is given exactly in its case.
pub fn install_exactly()
    ensures { (t : List ℕ) (k : KeyData) (f : Frame) → Exactly (installed t k f).answer.reply (install_replies t k f) }
{}

/// Each reply to a removal is given exactly in its case.
pub fn remove_exactly()
    ensures { (t : List ℕ) (i : ℕ) → Exactly (removed t i).answer.reply (remove_replies t i) }
{}

/// Each reply to a change is given exactly in its case.
pub fn change_exactly()
    ensures { (t : List ℕ) (i : ℕ) (k : KeyData) (f : Frame) → Exactly (changed t i k f).answer.reply (change_replies t i k f) }
{}

/// Each reply to a load is given exactly in its case.
pub fn load_exactly()
    ensures { (t text : List ℕ) → Exactly (loaded t text).answer.reply (load_replies t text) }
{}

/// Each reply to a listing is given exactly in its case.
pub fn listing_exactly()
    ensures { (t : List ℕ) (i : ℕ) (out : List ℕ) → Exactly (listed t i out).answer.reply (listing_replies t i out) }
{}

/// Each reply to a capture is given exactly in its case.
pub fn report_exactly()
    ensures { (t file out : List ℕ) → Exactly (reported t file out).answer.reply (report_replies file out) }
{}

/// Each reply to a record is given exactly in its case, where the record begins before the end of a file whose order is known.
pub fn record_exactly()
    ensures { (o : Order) (file : List ℕ) (at : ℕ) → at < length file
        → Exactly (record_at (Some o) file at).reply (record_replies o file at) }
{}

/// Each reply of the sender is given exactly in its case.
pub fn protect_exactly()
    ensures { (s : Sender) (payload out : List ℕ) → Exactly (outcome_of s payload out).answer.reply (protect_replies s payload out) }
{}

/// The reply to an arrival is the first whose test holds, or 0.
pub fn receive_reply()
    ensures { (t m source out : List ℕ) → (received t m source out).answer.reply ≡ first_of (receive_replies t m source out) }
{}

/// The reply to an install is the first whose test holds, or 0.
pub fn install_reply()
    ensures { (t : List ℕ) (k : KeyData) (f : Frame) → (installed t k f).answer.reply ≡ first_of (install_replies t k f) }
{}

/// The reply to a removal is the first whose test holds, or 0.
pub fn remove_reply()
    ensures { (t : List ℕ) (i : ℕ) → (removed t i).answer.reply ≡ first_of (remove_replies t i) }
{}

/// The reply to a change is the first whose test holds, or 0.
pub fn change_reply()
    ensures { (t : List ℕ) (i : ℕ) (k : KeyData) (f : Frame) → (changed t i k f).answer.reply ≡ first_of (change_replies t i k f) }
{}

/// The reply to a load is the first whose test holds, or 0.
pub fn load_reply()
    ensures { (t text : List ℕ) → (loaded t text).answer.reply ≡ first_of (load_replies t text) }
{}

/// The reply to a listing is the first whose test holds, or 0.
pub fn listing_reply()
    ensures { (t : List ℕ) (i : ℕ) (out : List ℕ) → (listed t i out).answer.reply ≡ first_of (listing_replies t i out) }
{}

/// The reply to a capture is the first whose test holds, or 0.
pub fn report_reply()
    ensures { (t file out : List ℕ) → (reported t file out).answer.reply ≡ first_of (report_replies file out) }
{}

/// The reply to a record is the first whose test holds, or 0, where the record begins before the end of a file whose order is known.
pub fn record_reply()
    ensures { (o : Order) (file : List ℕ) (at : ℕ) → at < length file → (record_at (Some o) file at).reply ≡ first_of (record_replies o file at) }
{}

/// The reply of the sender is the first whose test holds, or 0.
pub fn protect_reply()
    ensures { (s : Sender) (payload out : List ℕ) → (outcome_of s payload out).answer.reply ≡ first_of (protect_replies s payload out) }
{}

/// The cases on both sides of each edge, one table, all hold of the definitions.
pub fn cases_hold()
    ensures { T (all table) }
{}

/// A genuine message that comes with room to an undamaged entry meets the reply of the window's verdict on its number, and leaves the entry with
/// the message taken where that is 0.
pub fn genuine_received()
    ensures { (b : Beginning) (i : ℕ) (t m source out : List ℕ) (h : Header)
        → Begins b i t → Bytes m → output_room ≤ length out → read_of m ≡ Ok h → is_genuine b.keys (Ok h) m source ≡ true
        → Turns (entry_of (slot_of t i)) i h.seqnum (payload_length h m) (received t m source out) }
{}

/// Genuine messages with room and with the numbers of a row, one after the other at an undamaged entry as the row has it, meet the row's replies,
/// with the row's floors, and leave its accepted total and marks.
pub fn row_received()
    ensures { (b : Beginning) (i : ℕ) (t : List ℕ) (e : Entry) (ss : List Step) (cs : List Call) (accepted marks : ℕ)
        → Begins b i t → Like (entry_of (slot_of t i)) e → Follows b.keys ss cs → goes e ss accepted marks ≡ true
        → Row i t cs ss accepted marks }
{}
