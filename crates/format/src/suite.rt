// What a suite settles: its number, ICV length, label, block length, block count, output bits, and whether it enciphers.
ghost use Rattle.std.specs.Prelude.{◌≡◌};
ghost use Rattle.format.specs.Suite.{suite_of, number_of, icv_length_of, enciphers, label_of, block_length_of, key_blocks_of, blocks_of, output_bits_of};

use crate::key_data;

// MagmaCtr is MAGMA-CTR-CMAC, MagmaNull is MAGMA-NULL-CMAC; the long ones are house suites, with an ICV of a whole block and numbers of their own.
#[derive(Clone, Copy, PartialEq, Eq)]
pub enum Suite {
    MagmaCtr,
    MagmaNull,
    MagmaCtrLong,
    MagmaNullLong,
}

impl Suite {
    pub const MAGMA_CTR: u8 = 1;

    pub const MAGMA_NULL: u8 = 2;

    pub const MAGMA_CTR_LONG: u8 = 241;

    pub const MAGMA_NULL_LONG: u8 = 242;

    // Bytes of a short and of a long ICV.
    const SHORT_ICV: usize = 4;

    const LONG_ICV: usize = 8;

    // Bytes of a block of Magma.
    const MAGMA_BLOCK: usize = 8;

    // The suite with that number, if there is one.
    pub fn numbered(cs: u8) -> Option<Suite>
        ensures { result ≡ suite_of cs }
    {
        match cs {
            Suite::MAGMA_CTR => Some(Suite::MagmaCtr),
            Suite::MAGMA_NULL => Some(Suite::MagmaNull),
            Suite::MAGMA_CTR_LONG => Some(Suite::MagmaCtrLong),
            Suite::MAGMA_NULL_LONG => Some(Suite::MagmaNullLong),
            _ => None,
        }
    }

    // CS, as it stands in a message.
    pub fn number(self) -> u8
        ensures { result ≡ number_of self }
    {
        match self {
            Suite::MagmaCtr => Suite::MAGMA_CTR,
            Suite::MagmaNull => Suite::MAGMA_NULL,
            Suite::MagmaCtrLong => Suite::MAGMA_CTR_LONG,
            Suite::MagmaNullLong => Suite::MAGMA_NULL_LONG,
        }
    }

    // How many bytes of the check value end a message.
    pub fn icv_length(self) -> usize
        ensures { result ≡ icv_length_of self }
    {
        match self {
            Suite::MagmaCtr => Suite::SHORT_ICV,
            Suite::MagmaNull => Suite::SHORT_ICV,
            Suite::MagmaCtrLong => Suite::LONG_ICV,
            Suite::MagmaNullLong => Suite::LONG_ICV,
        }
    }

    // Whether the payload is enciphered. Label and block count follow from it.
    pub fn enciphers(self) -> bool
        ensures { result ≡ enciphers self }
    {
        match self {
            Suite::MagmaCtr => true,
            Suite::MagmaNull => false,
            Suite::MagmaCtrLong => true,
            Suite::MagmaNullLong => false,
        }
    }

    pub fn label(self) -> [u8; 6]
        ensures { result ≡ label_of self }
    {
        if self.enciphers() {
            *b"macenc"
        } else {
            *b"macmac"
        }
    }

    // Bytes of a block of its cipher.
    pub fn block_length(self) -> usize
        ensures { result ≡ block_length_of self }
    {
        Suite::MAGMA_BLOCK
    }

    // How many blocks of derivation make a key.
    pub fn key_blocks(self) -> u8
        ensures { result ≡ key_blocks_of self }
    {
        (key_data::KEY / self.block_length()) as u8
    }

    // How many blocks derivation makes: a check key and, where the suite enciphers, a cipher key.
    fn blocks(self) -> u8
        ensures { result ≡ blocks_of self }
    {
        if self.enciphers() {
            2 * self.key_blocks()
        } else {
            self.key_blocks()
        }
    }

    // The bits of all blocks together.
    pub fn output_bits(self) -> u64
        ensures { result ≡ output_bits_of self }
    {
        8 * (self.block_length() as u64) * (self.blocks() as u64)
    }
}
