// The KeyId of a message: absent, short with its value, or long with its count.
ghost use Rattle.std.specs.Prelude.{◌≡◌, ◌+◌, ◌<◌};
ghost use Rattle.format.specs.KeyId.{key_id_starting, length_of};

// Long: so many bytes at the place `start`, behind the first.
#[derive(Clone, Copy)]
pub enum KeyId {
    Absent,
    Short(u8),
    Long { count: u8, start: usize },
}

impl KeyId {
    // The KeyId that begins with the byte `first`, which stands at `at`.
    pub(crate) fn starting(first: u8, at: usize) -> KeyId
        requires { at < 4096 }
        ensures { result ≡ key_id_starting first at }
    {
        match first {
            0..=127 => KeyId::Short(first),
            128 => KeyId::Absent,
            129..=255 => KeyId::Long {
                count: first - 128,
                start: at + 1,
            },
        }
    }

    // How many bytes of the message it takes, its first byte included.
    pub fn length(self) -> usize
        ensures { result ≡ length_of self }
    {
        match self {
            KeyId::Absent => 1,
            KeyId::Short(_) => 1,
            KeyId::Long { count, start: _ } => 1 + (count as usize),
        }
    }
}
