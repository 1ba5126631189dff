// Calls on the table.
use answers::OUTPUT;
use script::Operands;
use slots::layout::TABLE;

/// Flag, KeyId, source, suite, edition, key, Size and start: the reply.
pub(crate) fn install(operands: &Operands, table: &mut [u8; TABLE]) -> u64 {
    let answer = entries::install(
        table,
        operands.byte(0),
        operands.bytes(1),
        operands.bytes(2),
        operands.byte(3),
        operands.byte(4),
        operands.bytes(5),
        operands.number(6),
        operands.number(7),
    );
    answer.reply
}

/// A slot: the reply.
pub(crate) fn remove(operands: &Operands, table: &mut [u8; TABLE]) -> u64 {
    entries::remove(table, operands.number(0) as usize).reply
}

/// A message, the source that came with it, and by how many bytes the output falls short of 2,048: the reply.
pub(crate) fn receive(operands: &Operands, table: &mut [u8; TABLE]) -> u64 {
    let mut out = [0; OUTPUT];
    let room = OUTPUT - usize::from(operands.byte(2));
    let answer = gateway::receive(
        table,
        operands.bytes(0),
        operands.bytes(1),
        &mut out[..room],
    );
    answer.reply
}

/// A place of the table, and the byte that is put there by hand. Answers whether there is such a place.
pub(crate) fn poke(operands: &Operands, table: &mut [u8; TABLE]) -> bool {
    let place = operands.number(0) as usize;
    if TABLE <= place {
        return false;
    }
    table[place] = operands.byte(1);
    true
}
