// The header of a message, read and written.
ghost use Rattle.std.specs.Prelude.{◌≡◌, ◌+◌, ◌<◌, ◌≤◌, length, take, drop, Ok};
ghost use Rattle.octets.specs.Octets.{big_endian, put};
ghost use Rattle.answers.specs.Answers.{refusal_number};
ghost use Rattle.format.specs.Suite.{icv_length_of};
ghost use Rattle.format.specs.Header.{read_of, refusal_of, header_bytes, fixed_bytes, key_id_bytes, end_of, payload_in, payload_length};

use crate::key_id::KeyId;
use crate::suite::Suite;
use answers::Refusal;

// Bytes of the shortest and of the longest message.
pub const LEAST: usize = 14;

pub const GREATEST: usize = 2048;

// Where the suite's number and the KeyId stand, and how many bytes SeqNum has.
const SUITE_AT: usize = 2;

pub const KEYID_AT: usize = 3;

const SEQNUM: usize = 6;

// The bytes before the payload, but for the KeyId.
pub const FIXED: usize = 9;

// The value of ExternalKeyIdFlag's bit, above the 15 bits of Version.
const FLAG: u64 = 32768;

#[derive(Clone, Copy)]
pub struct Header {
    pub flag: u8,
    pub suite: Suite,
    pub keyid: KeyId,
    pub seqnum: u64,
}

// Why a message has no header.
#[derive(Clone, Copy, Debug, PartialEq, Eq)]
pub enum HeaderError {
    BadLength,
    BadVersion,
    BadSuite,
    TooShort,
}

// A message with the header that was read from its bytes.
#[derive(Clone, Copy)]
pub struct Message<'a> {
    pub header: Header,
    pub bytes: &'a [u8],
    pub ghost read: { read_of bytes.now ≡ Ok header },
}

impl<'a> Message<'a> {
    // The bytes of its KeyId.
    pub fn keyid(&self) -> &'a [u8]
        ensures { result.now ≡ key_id_bytes self.now.header self.now.bytes.now }
    {
        let keyid = self.header.keyid;
        let bytes = self.bytes;
        &bytes[KEYID_AT..KEYID_AT + keyid.length()]
    }

    // What its ICV covers: all that stands before it.
    pub fn covered(&self) -> &'a [u8]
        ensures { result.now ≡ take (end_of self.now.header self.now.bytes.now) self.now.bytes.now }
    {
        let bytes = self.bytes;
        &bytes[..self.end()]
    }

    // Its ICV, as a number.
    pub fn icv(&self) -> u64
        ensures { result ≡ big_endian (icv_length_of self.now.header.suite) (drop (end_of self.now.header self.now.bytes.now) self.now.bytes.now) }
    {
        let suite = self.header.suite;
        octets::read(self.bytes, self.end(), suite.icv_length())
    }

    // Its payload, enciphered or not.
    pub fn payload(&self) -> &'a [u8]
        ensures value { result.now ≡ payload_in self.now.header self.now.bytes.now }
        ensures long { length result.now ≡ payload_length self.now.header self.now.bytes.now }
    {
        let keyid = self.header.keyid;
        let bytes = self.bytes;
        &bytes[FIXED + keyid.length()..self.end()]
    }

    // Where the ICV begins.
    fn end(&self) -> usize
        ensures { result ≡ end_of self.now.header self.now.bytes.now }
    {
        let suite = self.header.suite;
        self.bytes.len() - suite.icv_length()
    }
}

// The header of a message, whatever its bytes.
pub fn read_header(message: &[u8]) -> Result<Header, HeaderError>
    ensures { result ≡ read_of message.now }
{
    if message.len() < LEAST || GREATEST < message.len() {
        return Err(HeaderError::BadLength);
    }
    let front = octets::read(message, 0, SUITE_AT);
    if front % FLAG != 0 {
        return Err(HeaderError::BadVersion);
    }
    let Some(suite) = Suite::numbered(message[SUITE_AT]) else {
        return Err(HeaderError::BadSuite);
    };
    let keyid = KeyId::starting(message[KEYID_AT], KEYID_AT);
    let at = KEYID_AT + keyid.length();
    if message.len() < at + SEQNUM + suite.icv_length() {
        return Err(HeaderError::TooShort);
    }
    Ok(Header {
        flag: (front / FLAG) as u8,
        suite: suite,
        keyid: keyid,
        seqnum: octets::read(message, at, SEQNUM),
    })
}

impl From<HeaderError> for Refusal {
    ghost from_gives = { λ why refusal. refusal_number refusal ≡ refusal_of why };

    fn from(why: HeaderError) -> Refusal {
        match why {
            HeaderError::BadLength => Refusal::BadLength,
            HeaderError::BadVersion => Refusal::BadVersion,
            HeaderError::BadSuite => Refusal::BadSuite,
            HeaderError::TooShort => Refusal::TooShort,
        }
    }
}

// The header of a message is written at the start of the output.
pub fn write_header(flag: u8, suite: Suite, keyid: &[u8], seqnum: u64, out: &mut [u8])
    requires { (flag < 2) × (fixed_bytes + length keyid.now ≤ length out.old) }
    ensures { out.new ≡ put out.old 0 (header_bytes flag suite keyid.now seqnum) }
{
    octets::write(out, 0, SUITE_AT, (flag as u64) * FLAG);
    octets::write(out, SUITE_AT, 1, suite.number() as u64);
    octets::copy(keyid, out, KEYID_AT);
    octets::write(out, KEYID_AT + keyid.len(), SEQNUM, seqnum);
}
