// A number of 256 bits, as the marks of a window are: moved up, cut, tested, and one bit of it read and set.
#![tactic(auto)]

ghost use Rattle.std.specs.Prelude.{◌≡◌, false, ℕ, ◌+◌, ◌-◌, ◌*◌, ◌/◌, ◌%◌, ◌^◌, ◌≤◌, ◌<◌, min, ltb};
ghost use Rattle.std.specs.Int.Count.{ones_in};
ghost use Rattle.numbers.specs.Digits.{bit, from_digits};
ghost use Rattle.words.specs.FourWords.{IsFourWords, words_of, words_back};

use std::marker::Model;

// Four words, the lowest first. Contracts see the number.
#[derive(Clone, Copy)]
pub struct Marks {
    words: [u64; 4],
}

impl Model for Marks {
    ghost use Rattle.std.specs.Prelude.{List, ℕ};
    ghost use Rattle.std.proofs.Common.{ap};
    ghost use Rattle.std.specs.Coded.{coded_ℕ};
    ghost use Rattle.numbers.specs.Digits.{from_digits};
    ghost use Rattle.words.specs.FourWords.{IsFourWords, words_of, words_back};

    ghost Value = { ℕ };

    ghost coded = { coded_ℕ };

    ghost view = { λ m. from_digits 64 m.words };

    ghost invariant = { λ m. IsFourWords m.words };

    ghost inverse = { λ n. record { words = words_of n } };

    ghost inverse_ok = { λ m h. ap (λ (l : List ℕ). record { words = l }) (words_back m.words h) };
}

impl Marks {
    // The number that four words write, the lowest first.
    pub fn from_words(words: [u64; 4]) -> Marks
        ensures { result ≡ from_digits 64 words }
    {
        Marks { words }
    }

    // Its four words.
    pub fn words(self) -> [u64; 4]
        ensures { from_digits 64 result ≡ self }
    {
        self.words
    }

    // The number moved up by d bits: by whole words first, at most four times, and then by the rest. A `for` over the words took 32 bytes more of
    // the stack of receive.
    pub fn shifted(self, d: u64) -> Marks
        requires { d ≤ 256 }
        ensures { result ≡ self * 2 ^ d % 2 ^ 256 }
    {
        let mut moved = self;
        let mut left = d;
        while 64 <= left {
            moved = moved.by_a_word();
            left -= 64;
        }
        moved.by_bits(left)
    }

    // Its lowest s bits.
    pub fn cut(self, s: u64) -> Marks
        ensures { result ≡ self % 2 ^ s }
    {
        let [a, b, c, d] = self.words;
        Marks {
            words: [
                cut_word(a, 0, s),
                cut_word(b, 64, s),
                cut_word(c, 128, s),
                cut_word(d, 192, s),
            ],
        }
    }

    // Whether it has at most s bits.
    pub fn within(self, s: u64) -> bool
        ensures { result ≡ ltb self (2 ^ s) }
    {
        let kept = self.cut(s);
        kept.words == self.words
    }

    // Whether the bit of value 2^i is set.
    pub fn has_bit(self, i: u64) -> bool
        ensures { result ≡ bit self i }
    {
        let words = self.words;
        if 256 <= i {
            return false;
        }
        let word = words[(i / 64) as usize];
        (word >> (i % 64)) % 2 == 1
    }

    // The number with the bit of value 2^i, which it lacks.
    pub fn with_bit(self, i: u64) -> Marks
        requires { (i < 256) × (bit self i ≡ false) }
        ensures { result ≡ self + 2 ^ i }
    {
        let mut words = self.words;
        words[(i / 64) as usize] += 1u64 << (i % 64);
        Marks { words }
    }

    // How many bits are set.
    pub fn count(self) -> u64
        ensures { (result ≡ ones_in 256 self) × (result ≤ 256) }
    {
        let mut total = 0;
        for word in &self.words {
            total += u64::from(word.count_ones());
        }
        total
    }

    // The number moved up by a word: each word goes into the next.
    fn by_a_word(self) -> Marks
        ensures { result ≡ self * 2 ^ 64 % 2 ^ 256 }
    {
        let [a, b, c, _] = self.words;
        Marks {
            words: [0, a, b, c],
        }
    }

    // The number moved up by less than a word.
    fn by_bits(self, s: u64) -> Marks
        requires { s < 64 }
        ensures { result ≡ self * 2 ^ s % 2 ^ 256 }
    {
        let [a, b, c, d] = self.words;
        Marks {
            words: [
                filled(a, 0, s),
                filled(b, a, s),
                filled(c, b, s),
                filled(d, c, s),
            ],
        }
    }
}

// A word moved up by s bits, and below them the s highest of the word below.
fn filled(word: u64, below: u64, s: u64) -> u64
    requires { s < 64 }
    ensures { result ≡ word * 2 ^ s % 2 ^ 64 + below * 2 ^ s / 2 ^ 64 }
{
    if s == 0 {
        return word;
    }
    (word << s) + (below >> (64 - s))
}

// Of a word that stands from bit `from` on, what is among the lowest s bits.
fn cut_word(word: u64, from: u64, s: u64) -> u64
    ensures { result ≡ word % 2 ^ min (s - from) 64 }
{
    if s <= from {
        return 0;
    }
    let bits = s - from;
    if 64 <= bits {
        return word;
    }
    word % (1u64 << bits)
}
