// The window of accepted numbers, by value. `specs/Window.antt` says what it is; the crate `words` has its marks.
#![tactic(auto)]

ghost use Rattle.std.specs.Prelude.{◌≡◌, true, ◌+◌, ◌-◌, ◌^◌, ◌<◌, ◌≤◌, min, max};
ghost use Rattle.window.specs.declared.Verdict.TheVariants.{Admissible};
ghost use Rattle.window.specs.Window.{view_of, floor_of, verdict_of, accept_of, count_of, sound_frame, undamaged_window};
ghost use Rattle.window.specs.Counters.{one_more};
ghost use Rattle.window.specs.Entry.{entry_view, taken, undamaged_entry};

use words::Marks;

// The greatest number that a message can have: 2^48 - 1.
pub const LAST: u64 = (1 << 48) - 1;

// The largest Size of a window.
const LARGEST_SIZE: u64 = 256;

// The most bytes that a payload can have.
const LONGEST_PAYLOAD: u64 = 2034;

// Where a counter of refused arrivals stops: 2^32 - 1.
const COUNTER_LIMIT: u64 = u32::MAX as u64;

// What an install settles of a window: its Size, and the start below which no number is taken.
#[derive(Clone, Copy)]
pub struct Frame {
    pub size: u64,
    pub start: u64,
}

// How many arrivals an entry refused: with 9 or 10, and with 11.
#[derive(Clone, Copy)]
pub struct Counters {
    pub replays: u64,
    pub forged: u64,
}

// The frame, the highest number, and the marks: four words, the lowest first. The bit of value 2^i of the whole stands for highest - i.
#[derive(Clone, Copy)]
pub struct Window {
    pub frame: Frame,
    pub highest: u64,
    pub marks: [u64; 4],
}

// What an entry has counted: its window, its two totals, and its counters of refused arrivals.
#[derive(Clone, Copy)]
pub struct Entry {
    pub window: Window,
    pub accepted: u64,
    pub bytes: u64,
    pub counters: Counters,
}

// What the window says of a number.
#[derive(Clone, Copy, Debug, PartialEq, Eq)]
pub enum Verdict {
    Below,
    Marked,
    Admissible,
}

impl Frame {
    // Whether a window may have that Size and that start.
    pub fn is_sound(self) -> bool
        ensures { result ≡ sound_frame self }
    {
        1 <= self.size && self.size <= LARGEST_SIZE && self.start <= LAST
    }
}

impl Window {
    // The least number that is neither too old nor below the start.
    #[tactic(auto, unfolding(crate::specs::Window::floor_at))]
    pub(crate) fn floor(self) -> u64
        ensures { result ≡ floor_of (view_of self) }
    {
        let Frame { size, start } = self.frame;
        let oldest = self.highest.saturating_sub(size.saturating_sub(1));
        start.max(oldest)
    }

    // The marks as a number.
    fn marks(self) -> Marks
        ensures { result ≡ (view_of self).marks }
    {
        Marks::from_words(self.marks)
    }

    // Whether n may be accepted, and why not.
    pub fn admissible(self, n: u64) -> Verdict
        ensures { result ≡ verdict_of (view_of self) n }
    {
        if n < self.floor() {
            return Verdict::Below;
        }
        if self.highest < n {
            return Verdict::Admissible;
        }
        if self.marks().has_bit(self.highest - n) {
            return Verdict::Marked;
        }
        Verdict::Admissible
    }

    // The window once n, which it finds admissible, is accepted.
    pub fn accept(self, n: u64) -> Window
        requires { (undamaged_window (view_of self) ≡ true) × (verdict_of (view_of self) n ≡ Admissible) }
        ensures { view_of result ≡ accept_of (view_of self) n }
    {
        let Window {
            frame,
            highest,
            marks,
        } = self;
        let top = highest.max(n);
        let rise = (top - highest).min(frame.size);
        let raised = Window {
            frame,
            highest: top,
            marks,
        };
        let moved = self.marks().shifted(rise).cut(raised.reach());
        let marked = moved.with_bit(top - n);
        let words = marked.words();
        Window {
            frame,
            highest: top,
            marks: words,
        }
    }

    // Whether the damage rule finds nothing in the window.
    pub(crate) fn is_undamaged(self) -> bool
        ensures { result ≡ undamaged_window (view_of self) }
    {
        if !self.frame.is_sound() {
            return false;
        }
        if LAST < self.highest {
            return false;
        }
        if !self.marks().within(self.reach()) {
            return false;
        }
        if self.highest == 0 {
            return true;
        }
        self.marks().has_bit(0)
    }

    // How many numbers are marked.
    pub(crate) fn count(self) -> u64
        ensures { (result ≡ count_of (view_of self)) × (result ≤ 256) }
    {
        self.marks().count()
    }

    // How many numbers stand from the floor to the highest: none where a start lies above it.
    #[tactic(auto, unfolding(crate::specs::Window::floor_at))]
    fn reach(self) -> u64
        ensures { result ≡ self.highest + 1 - floor_of (view_of self) }
    {
        let floor = self.floor();
        if self.highest < floor {
            return 0;
        }
        self.highest - floor + 1
    }
}

impl Entry {
    // Whether the damage rule finds nothing in it.
    pub fn is_undamaged(&self) -> bool
        ensures { result ≡ undamaged_entry (entry_view self.now) }
    {
        let window = self.window;
        if !window.is_undamaged() {
            return false;
        }
        let start = window.frame.start;
        let count = window.count();
        let accepted = self.accepted;
        if accepted < count {
            return false;
        }
        if count + window.floor() - start < accepted {
            return false;
        }
        if LONGEST_PAYLOAD * accepted < self.bytes {
            return false;
        }
        if COUNTER_LIMIT < self.counters.replays {
            return false;
        }
        if COUNTER_LIMIT < self.counters.forged {
            return false;
        }
        true
    }

    // The entry once it takes a message: a number that its window finds admissible, and a payload of so many bytes.
    pub fn taken(&self, number: u64, payload: usize) -> Entry
        requires short { payload < 2 ^ 16 }
        requires is_undamaged { undamaged_entry (entry_view self.now) ≡ true }
        requires admissible { verdict_of (view_of self.now.window) number ≡ Admissible }
        ensures { entry_view result ≡ taken (entry_view self.now) number payload }
    {
        Entry {
            window: self.window.accept(number),
            accepted: self.accepted + 1,
            bytes: self.bytes + payload as u64,
            counters: self.counters,
        }
    }
}

// A counter with one refusal more; at its limit it stays.
pub fn one_more(counter: u64) -> u64
    ensures { result ≡ one_more counter }
{
    COUNTER_LIMIT.min(counter.saturating_add(1))
}
