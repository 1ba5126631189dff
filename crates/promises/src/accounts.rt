//! What is counted: from where a history begins in a slot, after any calls that do not end it, the slot accounts for what was told of them.

ghost use Rattle.std.specs.Prelude.{[], ◌++◌, ◌||◌, ◌∷◌, ◌≡◌, List, Some, false, length, ltb, true, ℕ};
ghost use Rattle.std.proofs.Math.Option.{some};
ghost use Rattle.octets.specs.Octets.{Bytes};
ghost use Rattle.window.specs.declared.Frame.{Frame};
ghost use Rattle.window.specs.Window.{floor_of, marked};
ghost use Rattle.window.specs.Counters.{cut};
ghost use Rattle.format.specs.KeyData.{KeyData};
ghost use Rattle.slots.specs.Table.{entry_of, key_data_of, slot_of, table_length};
ghost use Rattle.slots.specs.Record.{undamaged};
ghost use Rattle.lookup.specs.Lookup.{leads_to};
ghost use Rattle.entries.specs.Change.{changed};
ghost use Rattle.entries.specs.Install.{done_at, installed};
ghost use Rattle.form.specs.Form.{Listing, listing_in};
ghost use Rattle.loading.specs.Load.{listed_entry, loaded};
ghost use Rattle.gateway.specs.Receive.{Received};
ghost use Rattle.promises.specs.Calls.{AllOfBytes, Call, OfBytes, Trace, after, change, install, last_of, load, results, run};
ghost use Rattle.promises.specs.Counted.{Message, Told, counted, fresh, highest_of, how_many, is_forgery, is_replay, messages, numbers, standing, told_by};
ghost use Rattle.promises.specs.Histories.{Made, MadeChange, MadeInstall, Ongoing, reached, told_in};
ghost use Rattle.promises.specs.History.{Accounts, Begins, GoesOn, Unended, different, handed, handed_by, one, total};

/// From any beginning, after any calls that do not end the history, the slot accounts for what was told.
pub fn history()
    ensures { (h : Ongoing) → Accounts h.beginning h.slot (reached h) (told_in h) }
{}

/// Of calls that were made, the slot of the last table accounts for them, and all that their answers handed out is what was counted.
pub fn history_traced()
    ensures { (m : Made) → Accounts m.beginning m.slot (last_of m.table m.came) (told_by m.beginning m.calls)
        × (handed_by m.slot [] m.calls m.came ≡ counted m.beginning m.calls) }
{}

/// Calls that were made are a run of the definitions: the same results came back.
pub fn trace_results()
    ensures { (t : List ℕ) (cs : List Call) (rs : List Received) → Trace t cs rs → rs ≡ results t cs }
{}

/// Calls that were made are a run of the definitions: the last table is the same.
pub fn trace_run()
    ensures { (t : List ℕ) (cs : List Call) (rs : List Received) → Trace t cs rs → last_of t rs ≡ run t cs }
{}

// From an install on.

/// An install answered 0 begins a history with its own Size and start, highest 0, nothing used, totals and counters 0.
pub fn install_begins()
    ensures { (t : List ℕ) (k : KeyData) (f : Frame) (i : ℕ) → length t ≡ table_length → Bytes k.key_id
        → (installed t k f).answer ≡ done_at i → Begins (fresh k f) i (after t (install k f)) }
{}

/// After an install answered 0 and any further calls that do not end the history, the slot accounts for them.
pub fn history_installed()
    ensures { (t : List ℕ) (k : KeyData) (f : Frame) (i : ℕ) (cs : List Call) → length t ≡ table_length → Bytes k.key_id
        → (installed t k f).answer ≡ done_at i → GoesOn i (after t (install k f)) cs
        → Accounts (fresh k f) i (run t (install k f ∷ cs)) (told_by (fresh k f) cs) }
{}

/// Of calls that were made, the first of them an install answered 0, the slot accounts for those after it, and what they handed out is what was
/// counted.
pub fn installed_traced()
    ensures { (m : MadeInstall) → let b = fresh m.keys m.frame in
        Accounts b m.slot (last_of m.table (m.first ∷ m.came)) (told_by b m.calls)
        × (handed_by m.slot [] m.calls m.came ≡ counted b m.calls) }
{}

/// An install anywhere in a sequence of calls begins such a history, whatever came before it, a removal of the same slot among them.
pub fn history_within()
    ensures { (t : List ℕ) (before : List Call) (k : KeyData) (f : Frame) (i : ℕ) (cs : List Call)
        → length t ≡ table_length → AllOfBytes before → Bytes k.key_id
        → (installed (run t before) k f).answer ≡ done_at i → GoesOn i (after (run t before) (install k f)) cs
        → Accounts (fresh k f) i (run t (before ++ install k f ∷ cs)) (told_by (fresh k f) cs) }
{}

/// Where the entry began fresh, the totals are just how many different numbers were counted and the sum of their payload lengths, and the
/// counters how many arrivals were refused with 9 or 10, and with 11, cut at their limit.
pub fn fresh_totals()
    ensures { (k : KeyData) (f : Frame) (i : ℕ) (t : List ℕ) (past : List Told) → Accounts (fresh k f) i t past
        → let e = entry_of (slot_of t i) in
        (e.accepted ≡ length (different (numbers past))) × (e.bytes ≡ total (messages past))
        × (e.window.highest ≡ highest_of (numbers past))
        × (e.counters.replays ≡ cut (how_many is_replay past)) × (e.counters.forged ≡ cut (how_many is_forgery past)) }
{}

// From a change on.

/// A change answered 0 begins a history at its slot, the same as an install's.
pub fn change_begins()
    ensures { (t : List ℕ) (k : KeyData) (f : Frame) (i : ℕ) → length t ≡ table_length → Bytes k.key_id
        → (changed t i k f).answer ≡ done_at i → Begins (fresh k f) i (after t (change i k f)) }
{}

/// After a change answered 0 and any further calls that do not end the history, the slot accounts for them.
pub fn history_changed()
    ensures { (t : List ℕ) (k : KeyData) (f : Frame) (i : ℕ) (cs : List Call) → length t ≡ table_length → Bytes k.key_id
        → (changed t i k f).answer ≡ done_at i → GoesOn i (after t (change i k f)) cs
        → Accounts (fresh k f) i (run t (change i k f ∷ cs)) (told_by (fresh k f) cs) }
{}

/// Of calls that were made, the first of them a change answered 0, the slot accounts for those after it, and what they handed out is what was
/// counted.
pub fn changed_traced()
    ensures { (m : MadeChange) → let b = fresh m.keys m.frame in
        Accounts b m.slot (last_of m.table (m.first ∷ m.came)) (told_by b m.calls)
        × (handed_by m.slot [] m.calls m.came ≡ counted b m.calls) }
{}

/// A change anywhere in a sequence of calls begins such a history.
pub fn changed_within()
    ensures { (t : List ℕ) (before : List Call) (k : KeyData) (f : Frame) (i : ℕ) (cs : List Call)
        → length t ≡ table_length → AllOfBytes before → Bytes k.key_id
        → (changed (run t before) i k f).answer ≡ done_at i → GoesOn i (after (run t before) (change i k f)) cs
        → Accounts (fresh k f) i (run t (before ++ change i k f ∷ cs)) (told_by (fresh k f) cs) }
{}

// From any other beginning, and from a load on.

/// Whatever stands undamaged in a slot to which its own key data leads begins a history: a table that was saved and comes back, for one.
pub fn slot_begins()
    ensures { (t : List ℕ) (i : ℕ) → length t ≡ table_length
        → let k = key_data_of (slot_of t i) in leads_to t k.flag k.key_id k.source ≡ Some i
        → undamaged (slot_of t i) ≡ true → Begins (standing k (entry_of (slot_of t i))) i t }
{}

/// A load answered 0 at a slot begins a history there with the listed window, totals and counters, if messages of the slot's key data lead to it.
pub fn load_begins()
    ensures { (t text : List ℕ) (l : Listing) (i : ℕ)
        → length t ≡ table_length → listing_in text ≡ some l → (loaded t text).answer ≡ done_at i
        → let k = key_data_of (slot_of t i) in leads_to t k.flag k.key_id k.source ≡ Some i
        → Begins (standing k (listed_entry l)) i (after t (load text)) }
{}

/// Where a history stood before a load answered 0, the load begins another there with the listed window, totals and counters.
pub fn load_history()
    ensures { (h : Ongoing) (text : List ℕ) (l : Listing)
        → listing_in text ≡ some l → (loaded (reached h) text).answer ≡ done_at h.slot
        → Begins (standing h.beginning.keys (listed_entry l)) h.slot (after (reached h) (load text)) }
{}

/// After such a load and any further calls that do not end the history, the slot accounts for them.
pub fn history_loaded()
    ensures { (h : Ongoing) (text : List ℕ) (l : Listing) (ds : List Call)
        → listing_in text ≡ some l → (loaded (reached h) text).answer ≡ done_at h.slot
        → GoesOn h.slot (after (reached h) (load text)) ds
        → let b = standing h.beginning.keys (listed_entry l) in
        Accounts b h.slot (run (reached h) (load text ∷ ds)) (told_by b ds) }
{}

/// Of calls that were made, the first of them a load answered 0, the slot accounts for those after it, and what they handed out is what was
/// counted.
pub fn loaded_traced()
    ensures { (h : Ongoing) (text : List ℕ) (l : Listing) (r : Received) (ds : List Call) (rs : List Received)
        → listing_in text ≡ some l → Trace (reached h) (load text ∷ ds) (r ∷ rs) → r.answer ≡ done_at h.slot
        → Unended h.slot ds rs
        → let b = standing h.beginning.keys (listed_entry l) in
        Accounts b h.slot (last_of (reached h) (r ∷ rs)) (told_by b ds) × (handed_by h.slot [] ds rs ≡ counted b ds) }
{}

/// After such a load no listed mark and no number below the listed floor is handed out again.
pub fn listed_not_again()
    ensures { (h : Ongoing) (text : List ℕ) (l : Listing) (ds : List Call) (c : Call) (x : Message)
        → listing_in text ≡ some l → (loaded (reached h) text).answer ≡ done_at h.slot
        → GoesOn h.slot (after (reached h) (load text)) ds → OfBytes c
        → handed h.slot (run (reached h) (load text ∷ ds)) c ≡ one x
        → let w = (listed_entry l).window in (ltb x.number (floor_of w) || marked w x.number) ≡ false }
{}
