//! What is told of a call settles every byte of the slot after it.

ghost use Rattle.std.specs.Prelude.{[], ◌&&◌, ◌||◌, ◌∷◌, ◌≡◌, List, Ok, Some, cond, eqb, length, ltb, true, ℕ};
ghost use Rattle.octets.specs.Octets.{Bytes};
ghost use Rattle.answers.specs.Answers.{output_room};
ghost use Rattle.window.specs.Entry.{counting, taken};
ghost use Rattle.format.specs.Suite.{number_of};
ghost use Rattle.format.specs.Header.{key_id_bytes, read_of};
ghost use Rattle.format.specs.declared.header.Header.{Header};
ghost use Rattle.slots.specs.Table.{counters_of, entry_of, raised_in, replays_at, slot_of};
ghost use Rattle.lookup.specs.Lookup.{leads_to};
ghost use Rattle.promises.specs.Calls.{Call, after, arrival, called, run};
ghost use Rattle.promises.specs.Counted.{Beginning, Message, apart, is_below, is_of, is_used, new, told};
ghost use Rattle.promises.specs.Histories.{Ongoing, reached, told_in};
ghost use Rattle.promises.specs.History.{Begins, ButCounters, GoesOn, SpareAll, counted_of, counters_by, entry_by, nothing, slot_by};

/// What is told of a call settles every byte of the slot after it.
pub fn slot_told()
    ensures { (h : Ongoing) (c : Call) → GoesOn h.slot (reached h) (c ∷ [])
        → slot_of (after (reached h) c) h.slot ≡ slot_by (told h.beginning (told_in h) c) (slot_of (reached h) h.slot) }
{}

/// What is told of a call settles the entry after it.
pub fn entry_told()
    ensures { (h : Ongoing) (c : Call) → GoesOn h.slot (reached h) (c ∷ [])
        → entry_of (slot_of (after (reached h) c) h.slot)
        ≡ entry_by (told h.beginning (told_in h) c) (entry_of (slot_of (reached h) h.slot)) }
{}

/// A counted message leaves the entry with just that message taken: its number in the window, 1 and its payload's length in the totals.
pub fn counted_moves()
    ensures { (h : Ongoing) (c : Call) (x : Message) → GoesOn h.slot (reached h) (c ∷ []) → told h.beginning (told_in h) c ≡ new x
        → entry_of (slot_of (after (reached h) c) h.slot) ≡ taken (entry_of (slot_of (reached h) h.slot)) x.number x.payload }
{}

/// Any call that is not counted leaves every byte of the slot but those of its counters, which do not fall, and so window and totals.
pub fn uncounted_stays()
    ensures { (h : Ongoing) (c : Call) → GoesOn h.slot (reached h) (c ∷ [])
        → let w = told h.beginning (told_in h) c in let s = slot_of (reached h) h.slot in let later = slot_of (after (reached h) c) h.slot in
        counted_of w ≡ nothing
        → ButCounters s later × (entry_of later ≡ counting (entry_of s) (counters_by w (counters_of s))) }
{}

/// A message below the floor, or one whose number was counted or used, genuine or not, changes no byte of the slot but those of one counter, the
/// replays, which it raises by one, up to the limit, exactly if it came with room and is of the entry and its suite.
pub fn stale_stays()
    ensures { (h : Ongoing) (message source out : List ℕ) (header : Header) → Bytes message → read_of message ≡ Ok header
        → let b = h.beginning in let past = told_in h in (is_below b past header.seqnum || is_used b past header.seqnum) ≡ true
        → let s = slot_of (reached h) h.slot in
        let mine = is_of b.keys header message source && eqb b.keys.suite (number_of header.suite) in
        slot_of (after (reached h) (arrival message source out)) h.slot
        ≡ cond (ltb (length out) output_room) s (cond mine (raised_in replays_at s) s) }
{}

/// A message that leads elsewhere changes no byte of the slot.
pub fn elsewhere_stays()
    ensures { (h : Ongoing) (message source out : List ℕ) → Bytes message
        → ((header : Header) → read_of message ≡ Ok header
        → leads_to (reached h) header.flag (key_id_bytes header message) source ≡ Some h.slot → ⊥)
        → slot_of (after (reached h) (arrival message source out)) h.slot ≡ slot_of (reached h) h.slot }
{}

/// No call that is nothing to the entry changes a byte of its slot: an install, a change that is refused, or the removal, a change or a load of
/// another slot.
pub fn apart_stays()
    ensures { (h : Ongoing) (c : Call) → GoesOn h.slot (reached h) (c ∷ []) → told h.beginning (told_in h) c ≡ apart
        → slot_of (after (reached h) c) h.slot ≡ slot_of (reached h) h.slot }
{}

/// Reply 7 is never given for the entry.
pub fn never_damaged()
    ensures { (h : Ongoing) (message source out : List ℕ) (header : Header) → read_of message ≡ Ok header
        → leads_to (reached h) header.flag (key_id_bytes header message) source ≡ Some h.slot
        → (called (reached h) (arrival message source out)).answer.reply ≡ 7 → ⊥ }
{}

/// Totals, highest number and counters depend on the beginning and the calls after it alone: in another table, at another slot, they are the same.
pub fn same_totals()
    ensures { (b : Beginning) (i j : ℕ) (t u : List ℕ) (cs : List Call) → Begins b i t → Begins b j u → GoesOn i t cs → GoesOn j u cs
        → let e = entry_of (slot_of (run t cs) i) in let f = entry_of (slot_of (run u cs) j) in
        (e.accepted ≡ f.accepted) × (e.bytes ≡ f.bytes) × (e.window.highest ≡ f.window.highest) × (e.counters ≡ f.counters) }
{}

/// Calls of which none asks for the removal or a change of the slot, or has a listing of it, do not end its history, in any table.
pub fn spared()
    ensures { (i : ℕ) (t : List ℕ) (cs : List Call) → SpareAll i cs → GoesOn i t cs }
{}
