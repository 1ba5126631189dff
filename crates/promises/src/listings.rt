//! A listing is read in one form, and printed and read fit each other.

ghost use Rattle.std.specs.Prelude.{◌<◌, ◌≡◌, ◌≤◌, List, length, true, ℕ};
ghost use Rattle.std.proofs.Math.Option.{some};
ghost use Rattle.octets.specs.Octets.{put};
ghost use Rattle.answers.specs.Answers.{output_room};
ghost use Rattle.slots.specs.Table.{entry_of, replaced, restored, slot_count, slot_of, table_length};
ghost use Rattle.slots.specs.Record.{undamaged};
ghost use Rattle.entries.specs.Install.{done_at};
ghost use Rattle.form.specs.Form.{Listing, listing_in};
ghost use Rattle.loading.specs.Load.{listed_entry, loadable, loaded, stands};
ghost use Rattle.listing.specs.Listing.{listed, listing_of};
ghost use Rattle.promises.specs.Listings.{Awaited, ButMoved};

/// That the loaded record would be undamaged is that the slot is, once the listed window, totals and counters are written into it.
pub fn loadable_is()
    ensures { (t text : List ℕ) (l : Listing) → length t ≡ table_length → listing_in text ≡ some l
        → let i = l.settled.named.slot in i < slot_count → stands l.settled (slot_of t i) ≡ true
        → loadable (slot_of t i) (listed_entry l) ≡ undamaged (slot_of (restored t i (listed_entry l)) i) }
{}

/// Printing after a load gives what was loaded, to the byte.
pub fn print_after_load()
    ensures { (t text out : List ℕ) → length t ≡ table_length → (loaded t text).answer.reply ≡ 0 → output_room ≤ length out
        → let i = (loaded t text).answer.slot in
        listed (loaded t text).table i out
        ≡ record { answer = record { reply = 0; length = length text; slot = i; seqnum = 0 }; out = put out 0 text } }
{}

/// The listing of an undamaged entry loads into any table where that entry stands with accepted 0.
pub fn listing_loads()
    ensures { (i : ℕ) (s t : List ℕ) → Awaited i s t
        → loaded t (listing_of i s) ≡ record { answer = done_at i; table = restored t i (entry_of s) } }
{}

/// Where the slot has the entry's bytes but for window, totals and counters, it is then that entry byte for byte, and the rest of the table as it
/// was.
pub fn listing_restores()
    ensures { (i : ℕ) (s t : List ℕ) → Awaited i s t → ButMoved s (slot_of t i) → (loaded t (listing_of i s)).table ≡ replaced t i s }
{}
