// Input, for the programs.
#![tactic(auto)]

ghost use Rattle.std.specs.Prelude.{◌≡◌, IfOk, IfSome, take};

use std::alloc::Allocator;
use std::io;
use std::io::Read;

/// The bytes that a reader has left, up to so many.
pub fn read<A: Allocator, R: Read + Drop>(
    alloc: A,
    reader: R,
    most: usize,
) -> io::Result<Vec<u8, A>>
    ensures { IfOk result (λ input. IfSome (R.remaining reader) (λ bytes. input.items ≡ take most bytes)) }
{
    let mut input = Vec::new(alloc);
    reader.take(most as u64).read_to_end(&mut input)?;
    Ok(input)
}

#[cfg(test)]
mod tests {
    use super::*;
    use std::test::Fail;

    #[test]
    fn the_first_bytes(rt: HostRuntime) -> Result<(), Fail> {
        let input = read(rt.alloc(), b"abcde".as_slice(), 3)?;
        assert_eq!(rt; input.as_slice(), b"abc".as_slice());
        Ok(())
    }
}
