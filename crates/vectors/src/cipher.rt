// Magma and its parts.
use magma::Halves;
use script::Operands;

/// The step t of a word.
pub(crate) fn substitute(operands: &Operands) -> u64 {
    u64::from(magma::substitute(&magma::table(), operands.word(0)))
}

/// The step g of a key word and a word.
pub(crate) fn turn(operands: &Operands) -> u64 {
    let word = operands.word(1);
    u64::from(magma::turn(&magma::table(), operands.word(0), word))
}

/// A round with a key word on a block, and of the block after it the low half.
pub(crate) fn round(operands: &Operands) -> u64 {
    low(block(operands).round(&magma::table(), operands.word(0)))
}

/// The word of a key with a number, from 0.
pub(crate) fn key_word(operands: &Operands) -> u64 {
    let key = message_calls::key(operands);
    u64::from(key[usize::from(operands.byte(1) % 8)])
}

/// Eight rounds with a key's words in order on a block, and of the block after them the low half.
pub(crate) fn forward(operands: &Operands) -> u64 {
    let key = message_calls::key(operands);
    low(magma::forward(&magma::table(), &key, block(operands)))
}

/// The same with the words in reverse.
pub(crate) fn backward(operands: &Operands) -> u64 {
    let key = message_calls::key(operands);
    low(magma::backward(&magma::table(), &key, block(operands)))
}

/// The block that a key makes of a block.
pub(crate) fn encrypt(operands: &Operands) -> u64 {
    magma::encrypt(&message_calls::key(operands), operands.number(1))
}

// The block that is the second operand.
fn block(operands: &Operands) -> Halves {
    operands.number(1).into()
}

fn low(block: Halves) -> u64 {
    u64::from(block.low)
}
