//! Each arrival meets exactly one of the listed replies: two results that a function's contract allows are equal, the answer, the table or
//! record after it and every byte of the output.

ghost use Rattle.std.specs.Prelude.{◌≡◌, List, Option, ℕ};
ghost use Rattle.answers.specs.declared.Answer.{Answer};
ghost use Rattle.window.specs.declared.Frame.{Frame};
ghost use Rattle.format.specs.KeyData.{KeyData};
ghost use Rattle.entries.specs.Change.{changed};
ghost use Rattle.entries.specs.Install.{IsLeft, installed, removed};
ghost use Rattle.loading.specs.Load.{loaded};
ghost use Rattle.listing.specs.Listing.{IsListed, listed};
ghost use Rattle.gateway.specs.Receive.{IsReceived, received};
ghost use Rattle.capture.specs.Capture.{order_of, record_at};
ghost use Rattle.capture.specs.declared.order.Order.{Order};
ghost use Rattle.capture.specs.declared.record.Record.{Record};
ghost use Rattle.feed.specs.Report.{IsReported, reported};
ghost use Rattle.feed.specs.declared.Summary.{Summary};
ghost use Rattle.sender.specs.Protect.{Protects, with_number};
ghost use Rattle.sender.specs.declared.Sender.{Sender};

/// Two results of an arrival that the contract of `receive` allows are equal.
pub fn receive_determined()
    ensures { (table message source out : List ℕ) (a b : Answer) (t u x y : List ℕ)
        → IsReceived (received table message source out) a t x → IsReceived (received table message source out) b u y
        → (a ≡ b) × (t ≡ u) × (x ≡ y) }
{}

/// Two results of an install that its contract allows are equal.
pub fn install_determined()
    ensures { (table : List ℕ) (k : KeyData) (f : Frame) (a b : Answer) (t u : List ℕ)
        → IsLeft (installed table k f) a t → IsLeft (installed table k f) b u → (a ≡ b) × (t ≡ u) }
{}

/// Two results of a removal that its contract allows are equal.
pub fn remove_determined()
    ensures { (table : List ℕ) (i : ℕ) (a b : Answer) (t u : List ℕ)
        → IsLeft (removed table i) a t → IsLeft (removed table i) b u → (a ≡ b) × (t ≡ u) }
{}

/// Two results of a change that its contract allows are equal.
pub fn change_determined()
    ensures { (table : List ℕ) (i : ℕ) (k : KeyData) (f : Frame) (a b : Answer) (t u : List ℕ)
        → IsLeft (changed table i k f) a t → IsLeft (changed table i k f) b u → (a ≡ b) × (t ≡ u) }
{}

/// Two results of a load that its contract allows are equal.
pub fn load_determined()
    ensures { (table text : List ℕ) (a b : Answer) (t u : List ℕ)
        → IsLeft (loaded table text) a t → IsLeft (loaded table text) b u → (a ≡ b) × (t ≡ u) }
{}

/// Two results of a listing that its contract allows are equal.
pub fn listing_determined()
    ensures { (table : List ℕ) (i : ℕ) (out : List ℕ) (a b : Answer) (x y : List ℕ)
        → IsListed (listed table i out) a x → IsListed (listed table i out) b y → (a ≡ b) × (x ≡ y) }
{}

/// Two results of a report that its contract allows are equal.
pub fn report_determined()
    ensures { (table file out : List ℕ) (r s : Summary) (t u x y : List ℕ)
        → IsReported (reported table file out) r t x → IsReported (reported table file out) s u y
        → (r ≡ s) × (t ≡ u) × (x ≡ y) }
{}

/// Two orders that the contract of `order_of` allows for a file are equal.
pub fn order_determined()
    ensures { (file : List ℕ) (o p : Option Order) → o ≡ order_of file → p ≡ order_of file → o ≡ p }
{}

/// Two records that the contract of `record_at` allows for a place in a file are equal.
pub fn record_determined()
    ensures { (o : Option Order) (file : List ℕ) (at : ℕ) (r s : Record) → r ≡ record_at o file at → s ≡ record_at o file at → r ≡ s }
{}

/// Two results of the sender over a lent record that its contract allows are equal.
pub fn protect_determined()
    ensures { (s : Sender) (payload out : List ℕ) (a b : Answer) (x y : Sender) (t u : List ℕ)
        → Protects s payload out a x t → Protects s payload out b y u → (a ≡ b) × (x ≡ y) × (t ≡ u) }
{}

/// Two results of the sender by value that its contract allows are equal: here the number comes back.
pub fn by_value_determined()
    ensures { (s : Sender) (payload out : List ℕ) (a b : Answer) (m n : ℕ) (t u : List ℕ)
        → Protects s payload out a (with_number s m) t → Protects s payload out b (with_number s n) u
        → (a ≡ b) × (m ≡ n) × (t ≡ u) }
{}
