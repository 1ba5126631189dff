//! The worthless versions that the promises shut out, without a look into what is said of an arrival.

ghost use Rattle.std.specs.Prelude.{◌<◌, ◌∷◌, ◌≡◌, ◌⊎◌, List, true, ℕ};
ghost use Rattle.window.specs.Counters.{counter_limit};
ghost use Rattle.slots.specs.Table.{entry_of, slot_of};
ghost use Rattle.promises.specs.Calls.{Call, OfBytes, called};
ghost use Rattle.promises.specs.Counted.{Beginning, Message, Told, is_forgery, is_replay, new, told};
ghost use Rattle.promises.specs.Histories.{Gives};
ghost use Rattle.promises.specs.History.{Accounts};

/// Not all is refused: where a slot accounts for what is told, a counted message is handed out there.
pub fn must_hand()
    ensures { (b : Beginning) (i : ℕ) (t : List ℕ) (past : List Told) (c : Call) (x : Message) → Accounts b i t past → OfBytes c
        → told b past c ≡ new x → Gives i (called t c).answer x }
{}

/// Nothing done is shut out: with what stood in the slot before, no table accounts for one message more.
pub fn must_move()
    ensures { (b : Beginning) (i : ℕ) (t u : List ℕ) (past : List Told) (x : Message)
        → Accounts b i t past → Accounts b i u (new x ∷ past) → slot_of u i ≡ slot_of t i → ⊥ }
{}

/// No refusal is forgotten: below the limit, no table accounts for one arrival more that is refused with 9, 10 or 11.
pub fn must_count()
    ensures { (b : Beginning) (i : ℕ) (t u : List ℕ) (past : List Told) (w : Told) → Accounts b i t past
        → let c = (entry_of (slot_of t i)).counters in
        ((is_replay w ≡ true) × (c.replays < counter_limit)) ⊎ ((is_forgery w ≡ true) × (c.forged < counter_limit))
        → Accounts b i u (w ∷ past) → slot_of u i ≡ slot_of t i → ⊥ }
{}

/// No totals or counters are invented: all tables that account for the same have the same totals and counters.
pub fn one_account()
    ensures { (b : Beginning) (i j : ℕ) (t u : List ℕ) (past : List Told) → Accounts b i t past → Accounts b j u past
        → let e = entry_of (slot_of t i) in let f = entry_of (slot_of u j) in
        (e.accepted ≡ f.accepted) × (e.bytes ≡ f.bytes) × (e.window.highest ≡ f.window.highest) × (e.counters ≡ f.counters) }
{}
