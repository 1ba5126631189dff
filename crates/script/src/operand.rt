// The bytes that a line's operands write.
ghost use Rattle.std.specs.Prelude.{◌≤◌, ◌<◌, length, IfSome};
ghost use Rattle.script.specs.declared.operand.TheConstants.{LONGEST};

use crate::calling::Length;

// Bytes that an operand can have, and how many operands a line can have.
const LONGEST: usize = 4094;

const MOST: usize = 16;

/// The operands that were read last, each in its place: a line that has fewer leaves the others as they were.
#[derive(Drop)]
pub struct Operands {
    places: [Operand; MOST],
}

// An operand's bytes, the first ones of its place.
#[derive(Clone, Copy)]
struct Operand {
    place: [u8; LONGEST],
    length: usize,
    ghost fits: { length ≤ LONGEST },
}

impl Operands {
    // No bytes in any place.
    pub(crate) const EMPTY: Operands = Operands {
        places: [Operand::EMPTY; MOST],
    };

    /// The bytes of an operand.
    pub fn bytes(&self, number: usize) -> &[u8]
        ensures { length result.now ≤ LONGEST }
    {
        match self.places.get(number) {
            Some(operand) => operand.bytes(),
            None => &[],
        }
    }

    /// An operand of one byte.
    pub fn byte(&self, number: usize) -> u8 {
        match self.bytes(number) {
            [byte] => *byte,
            _ => 0,
        }
    }

    /// An operand of four bytes, as a number.
    pub fn word(&self, number: usize) -> u32 {
        self.bytes(number)
            .as_array()
            .map_or(0, |bytes| u32::from_be_bytes(*bytes))
    }

    /// An operand of eight bytes or less, as a number.
    pub fn number(&self, number: usize) -> u64 {
        let bytes = self.bytes(number);
        if bytes.len() <= 8 {
            octets::read(bytes, 0, bytes.len())
        } else {
            0
        }
    }

    // The words of a line are read, each into its place. Answers how many there are; none where one cannot be read, or there are more than places.
    pub(crate) fn read(&mut self, words: &[u8]) -> Option<usize> {
        let mut count = 0;
        for word in words.split(|byte| *byte == b' ').skip(1) {
            self.places.get_mut(count)?.read(word)?;
            count += 1;
        }
        Some(count)
    }

    // Whether so many operands have these lengths.
    pub(crate) fn have(&self, count: usize, lengths: &[Length]) -> bool {
        count == lengths.len()
            && lengths
                .iter()
                .zip(&self.places)
                .all(|(length, operand)| length.allows(operand.length))
    }
}

impl Operand {
    const EMPTY: Operand = Operand {
        place: [0; LONGEST],
        length: 0,
    };

    fn bytes(&self) -> &[u8]
        ensures { length result.now ≤ LONGEST }
    {
        &self.place[..self.length]
    }

    // A word's bytes take the place, as its digits write them again and again. None where one cannot be read, and from there on the place stays as it
    // was. They are written where they stand: a place that is copied takes 4,094 bytes for an operand of one.
    fn read(&mut self, word: &[u8]) -> Option<()> {
        let (digits, length) = digits_and_length(word)?;
        self.length = length;
        for at in 0..length {
            let from = (2 * at).checked_rem(digits.len())?;
            self.place[at] = pair(digits.get(from..from + 2)?)?;
        }
        Some(())
    }
}

// The digits of a word, and how many bytes they write, again and again; none where an operand cannot have so many.
fn digits_and_length(word: &[u8]) -> Option<(&[u8], usize)>
    ensures { IfSome result (λ read. read.1 ≤ LONGEST) }
{
    let star = word
        .iter()
        .position(|byte| *byte == b'*')
        .unwrap_or(word.len());
    let (digits, times) = word.split_at(star);
    let length = match times {
        [_, count @ ..] => decimal(count)?,
        [] if digits == b"-".as_slice() => 0,
        [] => digits.len().div_ceil(2),
    };
    if length <= LONGEST {
        Some((digits, length))
    } else {
        None
    }
}

fn decimal(digits: &[u8]) -> Option<usize> {
    let mut number: usize = 0;
    for byte in digits {
        if !byte.is_ascii_digit() {
            return None;
        }
        number = number
            .saturating_mul(10)
            .saturating_add(usize::from(*byte - b'0'));
    }
    Some(number)
}

// The byte that two digits write.
fn pair(digits: &[u8]) -> Option<u8> {
    match digits {
        [high, low] => Some(16 * digit(*high)? + digit(*low)?),
        _ => None,
    }
}

// What a hex digit stands for.
fn digit(byte: u8) -> Option<u8>
    ensures { IfSome result (λ value. value < 16) }
{
    match byte {
        b'0'..=b'9' => Some(byte - b'0'),
        b'a'..=b'f' => Some(byte - b'a' + 10),
        _ => None,
    }
}
