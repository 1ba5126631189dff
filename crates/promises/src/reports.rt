//! Captures: a report is the calls of its file.

ghost use Rattle.std.specs.Prelude.{[], ◌++◌, ◌∷◌, ◌≡◌, ◌≤◌, List, length, ℕ};
ghost use Rattle.octets.specs.Octets.{Bytes};
ghost use Rattle.slots.specs.Table.{table_length};
ghost use Rattle.gateway.specs.Receive.{Received};
ghost use Rattle.capture.specs.Capture.{Item, header_length, longest_file, records_from, records_of};
ghost use Rattle.capture.specs.declared.order.Order.{Order};
ghost use Rattle.feed.specs.Report.{IsReported, lines_from, reported, text_room, turn_of};
ghost use Rattle.feed.specs.declared.Summary.{Summary};
ghost use Rattle.promises.specs.Calls.{Call, Trace, called, last_of, results, run};
ghost use Rattle.promises.specs.Captures.{AllArrive, AllRefused, Arrives, BooksOnce, NothingHanded, calls_in};
ghost use Rattle.promises.specs.Counted.{Beginning, counted, told_by};
ghost use Rattle.promises.specs.History.{Accounts, Begins, TableButCounters, handed_by};

/// Whatever the bytes of the file, a report with room for its text leaves the table that the calls of the file leave.
pub fn reported_run()
    ensures { (t file out : List ℕ) → text_room ≤ length out → (reported t file out).table ≡ run t (calls_in file) }
{}

/// 131,072 bytes suffice for the text of any file.
pub fn text_most()
    ensures { (o : Order) (file t : List ℕ) → length file ≤ longest_file
        → length (lines_from 1 t (records_from o file header_length)) ≤ text_room }
{}

/// A payload is empty unless the answer is 0.
pub fn turn_silent()
    ensures { (t : List ℕ) (r : Item) → ((turn_of t r).reply ≡ 0 → ⊥) → (turn_of t r).payload ≡ [] }
{}

/// From wherever a history begins, a report accounts for the calls of its file, and what these hand out is what is counted.
pub fn history_captured()
    ensures { (b : Beginning) (i : ℕ) (t file out : List ℕ) → Begins b i t → Bytes file → text_room ≤ length out
        → Accounts b i (reported t file out).table (told_by b (calls_in file))
        × (handed_by i [] (calls_in file) (results t (calls_in file)) ≡ counted b (calls_in file)) }
{}

/// In a trace of calls that were made a report stands for the calls of its file.
pub fn report_traced()
    ensures { (t : List ℕ) (cs : List Call) (rs : List Received) (file out : List ℕ) (a : Summary) (u x : List ℕ)
        → Trace t cs rs → text_room ≤ length out → IsReported (reported (last_of t rs) file out) a u x
        → let qs = results (last_of t rs) (calls_in file) in
        Trace t (cs ++ calls_in file) (rs ++ qs) × (last_of t (rs ++ qs) ≡ u) }
{}

/// The same file read a second time, whatever arrivals came between, hands out nothing, on any table: no line of it has a payload, and the table
/// is left as it was but for counters of refused arrivals.
pub fn read_twice()
    ensures { (t file out : List ℕ) (others : List Call) → length t ≡ table_length → Bytes file → text_room ≤ length out → AllArrive others
        → let then = run (reported t file out).table others in
        NothingHanded (results then (calls_in file)) × AllRefused then (records_of file)
        × ((other : List ℕ) → text_room ≤ length other → TableButCounters then (reported then file other).table) }
{}

/// An arrival that has come is refused ever after, whatever arrivals came between.
pub fn refused_again()
    ensures { (t : List ℕ) (c : Call) (ds : List Call) → length t ≡ table_length → Arrives c → AllArrive ds
        → (called (run t (c ∷ ds)) c).answer.reply ≡ 0 → ⊥ }
{}

/// Arrivals that come again in their order, whatever arrivals came between, hand out nothing.
pub fn nothing_again()
    ensures { (t : List ℕ) (cs others : List Call) → length t ≡ table_length → AllArrive cs → AllArrive others
        → NothingHanded (results (run (run t cs) others) cs) }
{}

/// Two files, in either order, book no number twice at one slot.
pub fn two_files()
    ensures { (t first second out other : List ℕ)
        → length t ≡ table_length → Bytes first → Bytes second → text_room ≤ length out → text_room ≤ length other
        → ((reported (reported t first out).table second other).table ≡ run t (calls_in first ++ calls_in second))
        × BooksOnce (results t (calls_in first ++ calls_in second)) × BooksOnce (results t (calls_in second ++ calls_in first)) }
{}

/// No arrivals, on any table, book a number twice at one slot.
pub fn books_once()
    ensures { (t : List ℕ) (cs : List Call) → length t ≡ table_length → AllArrive cs → BooksOnce (results t cs) }
{}
