// The parts of a line.
ghost use Rattle.std.specs.Prelude.{◌≤◌, min, length};

/// A line that says something, in its parts.
#[derive(Clone, Copy)]
pub struct Line<'a> {
    pub name: &'a [u8],
    pub command: &'a [u8],
    /// The operands' words, each with the space before it.
    pub operands: &'a [u8],
    pub expected: &'a [u8],
}

impl<'a> Line<'a> {
    // The parts of a line, or none of an empty one or a comment.
    pub(crate) fn read(text: &'a [u8]) -> Option<Line<'a>> {
        if text.is_empty() || text.starts_with(b"#") {
            return None;
        }
        let colon = text
            .iter()
            .rposition(|byte| *byte == b':')
            .unwrap_or(text.len());
        let (name, call) = text.split_at(colon);
        let command_end = find(call, 2, b' ');
        let equals = find(call, 0, b'=');
        // A word that begins before the equals sign is an operand, and goes on to the next space.
        let operands_end = find(call, equals.saturating_sub(1), b' ');
        Some(Line {
            name,
            command: call.get(2..command_end).unwrap_or(&[]),
            operands: call.get(command_end..operands_end).unwrap_or(&[]),
            expected: call.get(equals + 2..).unwrap_or(&[]),
        })
    }
}

// Where the first such byte stands from a place on, or the text's end where there is none.
fn find(text: &[u8], from: usize, byte: u8) -> usize
    ensures { (min from (length text.now) ≤ result) × (result ≤ length text.now) }
{
    let rest = text.get(from..).unwrap_or(&[]);
    match rest.iter().position(|other| *other == byte) {
        Some(at) => from + at,
        None => text.len(),
    }
}
