//! The start of an entry: a key that moves, and a key that is changed.

ghost use Rattle.std.specs.Prelude.{[], ◌<◌, ◌≡◌, ◌≤◌, List, Ok, eqb, length, true, ℕ};
ghost use Rattle.octets.specs.Octets.{Bytes};
ghost use Rattle.answers.specs.Answers.{below_floor, output_room};
ghost use Rattle.window.specs.declared.Frame.{Frame};
ghost use Rattle.window.specs.Window.{View, verdict_of};
ghost use Rattle.window.specs.declared.Verdict.TheVariants.{Admissible, Below};
ghost use Rattle.format.specs.Suite.{number_of};
ghost use Rattle.format.specs.Header.{read_of};
ghost use Rattle.format.specs.declared.header.Header.{Header};
ghost use Rattle.slots.specs.Table.{slot_of, table_length, window_of};
ghost use Rattle.entries.specs.Change.{changed};
ghost use Rattle.entries.specs.Install.{done_at};
ghost use Rattle.gateway.specs.Receive.{Received, received};
ghost use Rattle.promises.specs.Calls.{Call, OfBytes, Trace, after, arrival, called, change, last_of};
ghost use Rattle.promises.specs.Counted.{Message, fresh, is_in, is_of, numbers_of};
ghost use Rattle.promises.specs.Histories.{Made, MadeChange, MadeInstall, Ongoing, reached};
ghost use Rattle.promises.specs.History.{Begins, NotAgain, Unended, handed, handed_by, one};

/// A message below the entry's start is never handed out there.
pub fn none_below_start()
    ensures { (h : Ongoing) (c : Call) (x : Message) → OfBytes c → handed h.slot (reached h) c ≡ one x
        → h.beginning.frame.start ≤ x.number }
{}

/// No number that calls that were made handed out at the entry is below its start.
pub fn handed_from_start()
    ensures { (m : Made) (n : ℕ) → is_in n (numbers_of (handed_by m.slot [] m.calls m.came)) ≡ true → m.beginning.frame.start ≤ n }
{}

/// A message of the entry and its suite that comes with room and is below the start is answered 9.
pub fn below_start()
    ensures { (h : Ongoing) (message source out : List ℕ) (header : Header)
        → Bytes message → output_room ≤ length out → read_of message ≡ Ok header
        → let k = h.beginning.keys in is_of k header message source ≡ true → eqb k.suite (number_of header.suite) ≡ true
        → header.seqnum < h.beginning.frame.start
        → (called (reached h) (arrival message source out)).answer.reply ≡ below_floor }
{}

/// On any table, whatever else is in it, no message is handed out at an entry whose start lies above its number.
pub fn taken_from_start()
    ensures { (t message source out : List ℕ) → length t ≡ table_length → Bytes message
        → let a = (received t message source out).answer in a.reply ≡ 0 → (window_of (slot_of t a.slot)).frame.start ≤ a.seqnum }
{}

/// A gateway installs key data with a start above every number of a list of messages, whatever gateways handed these out: none of their numbers
/// is handed out by it.
pub fn moved_key()
    ensures { (m : MadeInstall) (elsewhere : List Message)
        → ((n : ℕ) → is_in n (numbers_of elsewhere) ≡ true → n < m.frame.start)
        → NotAgain elsewhere (handed_by m.slot [] m.calls m.came) }
{}

/// Where the start of an install lies above the highest number that another entry has, nothing that was handed out there is handed out here.
pub fn moved_highest()
    ensures { (m : MadeInstall) (e : Made) → (window_of (slot_of (last_of e.table e.came) e.slot)).highest < m.frame.start
        → NotAgain (handed_by e.slot [] e.calls e.came) (handed_by m.slot [] m.calls m.came) }
{}

/// A window that starts no earlier than another, and above its highest number, refuses with 9 whatever the other refuses with 9 or 10.
pub fn starts_behind()
    ensures { (w v : View) (n : ℕ) → w.frame.start ≤ v.frame.start → w.highest < v.frame.start
        → (verdict_of w n ≡ Admissible → ⊥) → verdict_of v n ≡ Below }
{}

/// A change brings a start above every number of a list of messages, handed out at the slot before it or anywhere else: none of their numbers is
/// handed out after it.
pub fn changed_not_again()
    ensures { (m : MadeChange) (before : List Message)
        → ((n : ℕ) → is_in n (numbers_of before) ≡ true → n < m.frame.start)
        → NotAgain before (handed_by m.slot [] m.calls m.came) }
{}

/// Where the start that a change brings lies above the highest number that an entry had, nothing that was handed out there is handed out after it.
pub fn changed_highest()
    ensures { (m : MadeChange) (e : Made) → (window_of (slot_of (last_of e.table e.came) e.slot)).highest < m.frame.start
        → NotAgain (handed_by e.slot [] e.calls e.came) (handed_by m.slot [] m.calls m.came) }
{}

/// The trap: each message that was handed out at an entry, at any gateway, is handed out once more right after a change to the same key data with
/// start 0.
pub fn passes_again()
    ensures { (h : Ongoing) (c : Call) (x : Message) (u : List ℕ) (f : Frame) (j : ℕ) → OfBytes c → handed h.slot (reached h) c ≡ one x
        → let k = h.beginning.keys in
        length u ≡ table_length → Bytes k.key_id → f.start ≡ 0 → (changed u j k f).answer ≡ done_at j
        → handed j (after u (change j k f)) c ≡ one x }
{}

/// After a change to the same key data and frame the same calls hand out all that they handed out since the old entry stood fresh.
pub fn all_again()
    ensures { (m : MadeChange) (i : ℕ) (t : List ℕ) (rs : List Received)
        → Begins (fresh m.keys m.frame) i t → Trace t m.calls rs → Unended i m.calls rs
        → handed_by i [] m.calls rs ≡ handed_by m.slot [] m.calls m.came }
{}
