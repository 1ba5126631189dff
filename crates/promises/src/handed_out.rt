//! Exactly the counted messages are handed out, and each once.

ghost use Rattle.std.specs.Prelude.{[], ◌&&◌, ◌∷◌, ◌≡◌, List, Ok, Some, false, true, ℕ};
ghost use Rattle.octets.specs.Octets.{Bytes, put};
ghost use Rattle.format.specs.Header.{key_id_bytes, read_of};
ghost use Rattle.format.specs.declared.header.Header.{Header};
ghost use Rattle.message.specs.Sealing.{opened};
ghost use Rattle.lookup.specs.Lookup.{leads_to};
ghost use Rattle.promises.specs.Calls.{Call, OfBytes, arrival, called, last_of, results, run};
ghost use Rattle.promises.specs.Counted.{Beginning, Message, Told, counted, is_counted, is_genuine, is_new, is_of, told};
ghost use Rattle.promises.specs.Histories.{CountersBy, Made, Ongoing, reached};
ghost use Rattle.promises.specs.History.{GoesOn, handed, handed_by, one};
ghost use Rattle.promises.specs.Replies.{is_at, led_to, none_of, receive_replies};

/// What is counted is what the demand says, word by word.
pub fn counted_words()
    ensures { (b : Beginning) (past : List Told) (c : Call) → is_new (told b past c) ≡ is_counted b past c }
{}

/// A message is genuine exactly if none of the tests of replies 2, 3, 4, 5, 6, 8 and 11 fits it and it leads to the slot.
pub fn genuine_tests()
    ensures { (h : Ongoing) (message source out : List ℕ)
        → is_genuine h.beginning.keys (read_of message) message source
        ≡ (none_of (2 ∷ 3 ∷ 4 ∷ 5 ∷ 6 ∷ 8 ∷ 11 ∷ []) (receive_replies (reached h) message source out)
        && is_at h.slot (led_to (reached h) message source)) }
{}

/// A message that is of the entry leads to its slot.
pub fn of_leads()
    ensures { (h : Ongoing) (header : Header) (message source : List ℕ) → is_of h.beginning.keys header message source ≡ true
        → leads_to (reached h) header.flag (key_id_bytes header message) source ≡ Some h.slot }
{}

/// A message that leads to the slot is of the entry.
pub fn leads_of()
    ensures { (h : Ongoing) (header : Header) (message source : List ℕ)
        → leads_to (reached h) header.flag (key_id_bytes header message) source ≡ Some h.slot
        → is_of h.beginning.keys header message source ≡ true }
{}

/// The counters are how many arrivals of the entry came back with 9 or 10, and with 11, with those that stood at the beginning, cut at the limit.
pub fn counters_answered()
    ensures { (h : Ongoing) → CountersBy h.beginning h.slot (reached h) h.calls (results h.table h.calls) }
{}

/// Of calls that were made, the counters are such by what came back from them.
pub fn counters_traced()
    ensures { (m : Made) → CountersBy m.beginning m.slot (last_of m.table m.came) m.calls m.came }
{}

/// Exactly the counted messages are handed out, in their order, over the whole run.
pub fn all_handed()
    ensures { (h : Ongoing) → handed_by h.slot [] h.calls (results h.table h.calls) ≡ counted h.beginning h.calls }
{}

/// Each message that is handed out stands in the output, deciphered under the entry's key.
pub fn payload_stands()
    ensures { (h : Ongoing) (message source out : List ℕ) (header : Header) (x : Message) → Bytes message → read_of message ≡ Ok header
        → handed h.slot (reached h) (arrival message source out) ≡ one x
        → (called (reached h) (arrival message source out)).out ≡ put out 0 (opened header h.beginning.keys message) }
{}

/// No number is handed out twice while a history goes on: not by a call c and, after any calls ds, by a call d.
pub fn no_number_twice()
    ensures { (h : Ongoing) (c : Call) (ds : List Call) (d : Call) (x y : Message) → GoesOn h.slot (reached h) (c ∷ ds) → OfBytes d
        → handed h.slot (reached h) c ≡ one x → handed h.slot (run (reached h) (c ∷ ds)) d ≡ one y
        → x.number ≡ y.number → ⊥ }
{}

/// No number is handed out that was used where the history began.
pub fn no_used_number()
    ensures { (h : Ongoing) (c : Call) (x : Message) → OfBytes c → handed h.slot (reached h) c ≡ one x
        → h.beginning.used x.number ≡ false }
{}
