// Magma, the cipher of GOST R 34.12-2015 with blocks of 64 bits. `specs/Magma.antt` says what it is.
#![tactic(auto)]

ghost use Rattle.std.specs.Prelude.{◌≡◌, reverse};
ghost use Rattle.magma.specs.Magma.{pi, substituted, turned, swapping, through, encrypted, key_words};

// Row r says what becomes of the nibble of value 16^r.
const PI: [[u8; 16]; 8] = [
    [12, 4, 6, 2, 10, 5, 11, 9, 14, 8, 13, 7, 0, 3, 15, 1],
    [6, 8, 2, 3, 9, 10, 5, 12, 1, 14, 4, 7, 11, 13, 0, 15],
    [11, 3, 5, 8, 2, 15, 10, 13, 14, 1, 7, 4, 12, 9, 6, 0],
    [12, 8, 2, 1, 13, 4, 15, 6, 7, 0, 10, 5, 3, 14, 9, 11],
    [7, 15, 5, 10, 8, 1, 6, 13, 0, 9, 3, 14, 11, 4, 2, 12],
    [5, 13, 15, 6, 9, 2, 12, 10, 11, 7, 8, 1, 4, 3, 14, 0],
    [8, 14, 2, 5, 6, 9, 1, 12, 15, 4, 11, 0, 13, 10, 3, 7],
    [1, 7, 14, 13, 0, 5, 8, 3, 4, 15, 10, 6, 9, 12, 11, 2],
];

// The substitution, a row for each nibble of a word, lent to the rounds: each use of the constant copies it.
#[derive(Drop)]
pub struct Rows {
    rows: [[u8; 16]; 8],
    ghost standard: { rows ≡ pi },
}

// A block between two rounds.
#[derive(Clone, Copy)]
pub struct Halves {
    pub high: u32,
    pub low: u32,
}

impl From<u64> for Halves {
    ghost use Rattle.std.specs.Prelude.{◌≡◌};
    ghost use Rattle.magma.specs.Magma.{halves_of};

    ghost from_gives = { λ block halves. halves ≡ halves_of block };

    fn from(block: u64) -> Halves {
        Halves {
            high: (block >> 32) as u32,
            low: (block % (1 << 32)) as u32,
        }
    }
}

impl From<Halves> for u64 {
    ghost use Rattle.std.specs.Prelude.{◌≡◌};
    ghost use Rattle.magma.specs.Magma.{block_of};

    ghost from_gives = { λ halves block. block ≡ block_of halves };

    fn from(halves: Halves) -> u64 {
        (u64::from(halves.high) << 32) + u64::from(halves.low)
    }
}

// The block that Magma makes of a block.
pub fn encrypt(key: &[u32; 8], block: u64) -> u64
    ensures { result ≡ encrypted key.now block }
{
    run(&table(), key, block)
}

// The rows of the substitution, to be taken once a block.
#[tactic(auto, unfolding(crate::specs::Magma::pi))]
pub fn table() -> Rows {
    Rows { rows: PI }
}

// The eight words of a key.
pub fn key_words(bytes: &[u8; 32]) -> [u32; 8]
    ensures { result ≡ key_words bytes.now }
{
    let mut words = [0; 8];
    for i in 0..8 {
        words[i] = octets::read(bytes, 4 * i, 4) as u32;
    }
    words
}

// The 32 rounds: the key's words in order three times, then in reverse. The swap after the last is undone.
fn run(rows: &Rows, key: &[u32; 8], block: u64) -> u64
    ensures { result ≡ encrypted key.now block }
{
    let first = forward(rows, key, block.into());
    let second = forward(rows, key, first);
    let third = forward(rows, key, second);
    let last = backward(rows, key, third);
    let joined = Halves {
        high: last.low,
        low: last.high,
    };
    joined.into()
}

// A round for each word of the key, in order.
pub fn forward(rows: &Rows, key: &[u32], halves: Halves) -> Halves
    ensures { result ≡ through key.now halves }
{
    key.iter()
        .fold(halves, |reached, word| reached.round(rows, *word))
}

// A round for each word of the key, in reverse.
pub fn backward(rows: &Rows, key: &[u32], halves: Halves) -> Halves
    ensures { result ≡ through (reverse key.now) halves }
{
    let words = key.iter().rev();
    words.fold(halves, |reached, word| reached.round(rows, *word))
}

impl Halves {
    // A round, with the swap after it.
    #[tactic(auto, unfolding(crate::specs::Magma::swapping))]
    pub fn round(self, rows: &Rows, word: u32) -> Halves
        ensures { result ≡ swapping word self }
    {
        Halves {
            high: self.low,
            low: turn(rows, word, self.low) ^ self.high,
        }
    }
}

// What a round combines with the high half.
#[tactic(auto, using(crate::proofs::Substitution::rotated_is), unfolding(crate::specs::Magma::turned))]
pub fn turn(rows: &Rows, word: u32, low: u32) -> u32
    ensures { result ≡ turned word low }
{
    substitute(rows, low.wrapping_add(word)).rotate_left(11)
}

// Each nibble of x, substituted by its row.
pub fn substitute(rows: &Rows, x: u32) -> u32
    ensures { result ≡ substituted 8 x }
{
    let mut done = 0;
    for row in 0..8 {
        let shift = 4 * (row as u32);
        let nibble = ((x >> shift) % 16) as usize;
        done += u32::from(rows.rows[row][nibble]) << shift;
    }
    done
}
