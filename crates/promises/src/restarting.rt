//! A restart changes nothing for the entry.

ghost use Rattle.std.specs.Prelude.{[], ◌∷◌, ◌≡◌, ◌≤◌, List, length, replicate, take, ℕ};
ghost use Rattle.octets.specs.Octets.{Bytes, put};
ghost use Rattle.answers.specs.Answers.{output_room};
ghost use Rattle.window.specs.declared.Frame.{Frame};
ghost use Rattle.format.specs.KeyData.{KeyData};
ghost use Rattle.slots.specs.Table.{entry_of, restored, slot_of, table_length};
ghost use Rattle.entries.specs.Install.{done_at, installed};
ghost use Rattle.loading.specs.Load.{loaded};
ghost use Rattle.listing.specs.Listing.{listed};
ghost use Rattle.gateway.specs.Receive.{Received};
ghost use Rattle.promises.specs.Calls.{Call, Trace, after, install, load, run};
ghost use Rattle.promises.specs.Histories.{Ongoing, reached};
ghost use Rattle.promises.specs.History.{GoesOn, Resumed, Unchanged, Unended};
ghost use Rattle.promises.specs.Restarts.{Restart, SameAfter, Standby, lasting, listing_there, printed, reloaded, resumed, waiting};

/// The load is answered with the slot. Further calls that ask for no change of the slot to sound data and do not end the entry's history in the
/// gateway that never stopped do not end it in the other, and after them both do the same for the entry.
pub fn restart()
    ensures { (r : Restart) → ((loaded (waiting r) (printed r)).answer ≡ done_at r.slot)
        × ((es : List Call) → Unchanged r.slot es → GoesOn r.slot (lasting r) es → Resumed r.keys r.slot (lasting r) (resumed r) es) }
{}

/// After the load the slot is the printed one byte for byte.
pub fn restart_bytes()
    ensures { (r : Restart) → Bytes (slot_of (lasting r) r.slot) → slot_of (resumed r) r.slot ≡ slot_of (lasting r) r.slot }
{}

/// With an empty table the first install has slot 0.
pub fn empty_installs()
    ensures { (t : List ℕ) (k : KeyData) (f : Frame) (i : ℕ) → (installed t k f).answer ≡ done_at i
        → (installed (replicate table_length 0) k f).answer ≡ done_at 0 }
{}

/// An entry that stood in slot 0 resumes from an empty table, an install and a load.
pub fn restart_empty()
    ensures { (t : List ℕ) (k : KeyData) (f : Frame) (cs : List Call) (out : List ℕ) (es : List Call)
        → length t ≡ table_length → Bytes k.key_id → Bytes k.source → (installed t k f).answer ≡ done_at 0
        → GoesOn 0 (after t (install k f)) cs → output_room ≤ length out
        → let last = run t (install k f ∷ cs) in let p = listed last 0 out in
        Unchanged 0 es → GoesOn 0 last es
        → Resumed k 0 last (run (replicate table_length 0) (install k f ∷ load (take p.answer.length p.out) ∷ [])) es }
{}

// The same from any beginning of the first history.

/// The listing of an entry whose history goes on is printed.
pub fn prints()
    ensures { (h : Ongoing) (out : List ℕ) → Bytes h.beginning.keys.key_id → Bytes h.beginning.keys.source → output_room ≤ length out
        → let text = listing_there h in
        listed (reached h) h.slot out
        ≡ record { answer = record { reply = 0; length = length text; slot = h.slot; seqnum = 0 }; out = put out 0 text } }
{}

/// It loads in another gateway that has a fresh entry of the same data in the same slot and counted nothing there.
pub fn reloads()
    ensures { (h : Ongoing) (s : Standby h) → loaded (run s.table s.calls) (listing_there h)
        ≡ record { answer = done_at h.slot; table = restored (run s.table s.calls) h.slot (entry_of (slot_of (reached h) h.slot)) } }
{}

/// Further calls that ask for no change of the slot to sound data and do not end the history in the gateway that never stopped do not end it in
/// the other, and after them both do the same for the entry.
pub fn restarted()
    ensures { (h : Ongoing) (s : Standby h) (es : List Call) → Unchanged h.slot es → GoesOn h.slot (reached h) es
        → Resumed h.beginning.keys h.slot (reached h) (reloaded h s) es }
{}

/// After further calls that were made, of which none asks for such a change, both gateways do the same for the entry, and handed out the same.
pub fn restarted_traced()
    ensures { (h : Ongoing) (s : Standby h) (es : List Call) (rs qs : List Received)
        → Trace (reached h) es rs → Unended h.slot es rs → Trace (reloaded h s) es qs → Unchanged h.slot es
        → SameAfter h.beginning.keys h.slot (reached h) (reloaded h s) es rs qs }
{}

/// After further calls that end the history in neither, changes that are refused in both among them, both do the same for the entry.
pub fn restarted_both()
    ensures { (h : Ongoing) (s : Standby h) (es : List Call) → GoesOn h.slot (reached h) es → GoesOn h.slot (reloaded h s) es
        → Resumed h.beginning.keys h.slot (reached h) (reloaded h s) es }
{}

/// After further calls that were made and ended the history in neither, by what came back from them, both do the same for the entry, and handed
/// out the same.
pub fn both_traced()
    ensures { (h : Ongoing) (s : Standby h) (es : List Call) (rs qs : List Received)
        → Trace (reached h) es rs → Unended h.slot es rs → Trace (reloaded h s) es qs → Unended h.slot es qs
        → SameAfter h.beginning.keys h.slot (reached h) (reloaded h s) es rs qs }
{}
