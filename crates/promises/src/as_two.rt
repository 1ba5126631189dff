//! A change is a removal and an install without the gap.

ghost use Rattle.std.specs.Prelude.{[], ◌∷◌, ◌≡◌, List, cond, eqb, false, length, ℕ};
ghost use Rattle.octets.specs.Octets.{Bytes};
ghost use Rattle.window.specs.declared.Frame.{Frame};
ghost use Rattle.format.specs.KeyData.{KeyData};
ghost use Rattle.slots.specs.Table.{table_length};
ghost use Rattle.entries.specs.Change.{changed};
ghost use Rattle.entries.specs.Install.{done_at, installed, removed};
ghost use Rattle.gateway.specs.Receive.{Received};
ghost use Rattle.promises.specs.Calls.{Allowed, Trace, after, called, change, install, remove, run};
ghost use Rattle.promises.specs.History.{ends};

/// Where a removal and then an install would both succeed and the freed slot is the lowest free one, the change answers and leaves what the
/// install would, the whole table.
pub fn change_is_two()
    ensures { (t : List ℕ) (i : ℕ) (k : KeyData) (f : Frame) → length t ≡ table_length → Bytes k.key_id
        → (removed t i).answer ≡ done_at i → (installed (removed t i).table k f).answer ≡ done_at i
        → changed t i k f ≡ installed (removed t i).table k f }
{}

/// In any case the reply to a change is that of the removal, if that is a refusal, and else that of the install after it.
pub fn replies_as_two()
    ensures { (t : List ℕ) (i : ℕ) (k : KeyData) (f : Frame) → length t ≡ table_length
        → let r = removed t i in
        (changed t i k f).answer.reply ≡ cond (eqb r.answer.reply 0) (installed r.table k f).answer.reply r.answer.reply }
{}

/// Done, a change answers the slot, as install does.
pub fn change_answers()
    ensures { (t : List ℕ) (i : ℕ) (k : KeyData) (f : Frame) → length t ≡ table_length → Bytes k.key_id
        → (changed t i k f).answer.reply ≡ 0 → (changed t i k f).answer ≡ done_at i }
{}

/// Of calls: where both would succeed and the freed slot is the lowest free one, they leave the same table as a change.
pub fn leaves_as_two()
    ensures { (t : List ℕ) (i : ℕ) (k : KeyData) (f : Frame) → length t ≡ table_length → Bytes k.key_id
        → (called t (remove i)).answer ≡ done_at i → (called (after t (remove i)) (install k f)).answer ≡ done_at i
        → run t (remove i ∷ install k f ∷ []) ≡ run t (change i k f ∷ []) }
{}

/// Of calls that were made: what comes back from the change is what came back from the install.
pub fn made_as_two()
    ensures { (t : List ℕ) (i : ℕ) (k : KeyData) (f : Frame) (r q c : Received) → length t ≡ table_length → Bytes k.key_id
        → Trace t (remove i ∷ install k f ∷ []) (r ∷ q ∷ []) → r.answer ≡ done_at i → q.answer ≡ done_at i
        → Allowed t (change i k f) c → c ≡ q }
{}

/// Refused, a change leaves the table byte for byte as it was, and no history ends.
pub fn refused_change()
    ensures { (t : List ℕ) (i : ℕ) (k : KeyData) (f : Frame) → length t ≡ table_length → Bytes k.key_id
        → ((called t (change i k f)).answer.reply ≡ 0 → ⊥)
        → (after t (change i k f) ≡ t) × ((j : ℕ) → ends j (change i k f) (called t (change i k f)).answer ≡ false) }
{}
