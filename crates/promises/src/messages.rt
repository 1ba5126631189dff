//! The standard's messages, there and back.

ghost use Rattle.std.specs.Prelude.{◌*◌, ◌+◌, ◌<◌, ◌^◌, ◌≡◌, ◌≤◌, List, Ok, length, true, ℕ};
ghost use Rattle.octets.specs.Octets.{Bytes, part};
ghost use Rattle.answers.specs.Answers.{output_room};
ghost use Rattle.format.specs.KeyData.{KeyData};
ghost use Rattle.format.specs.declared.suite.Suite.{Suite};
ghost use Rattle.format.specs.Header.{read_of};
ghost use Rattle.derivation.specs.Derivation.{iv_of, serial_of};
ghost use Rattle.message.specs.Sealing.{opened, right, sealed};
ghost use Rattle.gateway.specs.Receive.{received};
ghost use Rattle.sender.specs.Protect.{key_data_in};
ghost use Rattle.sender.specs.declared.Sender.{Sender};
ghost use Rattle.promises.specs.RoundTrip.{Addressee, Ready, Sealable, header_of, written_by};

/// Where two editions take the same bits of a number for SN they make the same message.
pub fn same_message()
    ensures { (e f : ℕ) (s : Suite) (k : KeyData) (n : ℕ) (payload : List ℕ) → serial_of e n ≡ serial_of f n
        → sealed s (record k { edition = e }) n payload ≡ sealed s (record k { edition = f }) n payload }
{}

/// In edition 2 no two numbers share SN and IV, and so keys and gamma.
pub fn none_share()
    ensures { (n m : ℕ) → serial_of 2 n ≡ serial_of 2 m → iv_of n ≡ iv_of m → n ≡ m }
{}

/// In edition 1 numbers that are a multiple of 2^35 apart share both.
pub fn far_share()
    ensures { (n k : ℕ) → (serial_of 1 (n + 2 ^ 35 * k) ≡ serial_of 1 n) × (iv_of (n + 2 ^ 35 * k) ≡ iv_of n) }
{}

/// In edition 1 none that are nearer share SN.
pub fn nearby_differ()
    ensures { (n m : ℕ) → n ≤ m → m < n + 2 ^ 35 → serial_of 1 n ≡ serial_of 1 m → n ≡ m }
{}

/// What was sealed is read.
pub fn sealed_reads()
    ensures { (s : Suite) (k : KeyData) (n : ℕ) (payload : List ℕ) → Sealable s k n payload → read_of (sealed s k n payload) ≡ Ok (header_of s k n) }
{}

/// What was sealed is right.
pub fn sealed_right()
    ensures { (s : Suite) (k : KeyData) (n : ℕ) (payload : List ℕ) → Sealable s k n payload → Bytes payload
        → right (header_of s k n) k (sealed s k n payload) ≡ true }
{}

/// What was sealed opens to its payload.
pub fn sealed_opens()
    ensures { (s : Suite) (k : KeyData) (n : ℕ) (payload : List ℕ) → Sealable s k n payload → opened (header_of s k n) k (sealed s k n payload) ≡ payload }
{}

/// What the sender wrote opens to the same payload at an undamaged entry with its key data to which it leads, given room, while the number is
/// admissible, in either edition.
pub fn round_trip()
    ensures { (s : Sender) (suite : Suite) (payload written t supplied out : List ℕ) (i : ℕ)
        → Ready s suite payload written → Addressee (key_data_in s.keys) (s.current + 1) t supplied i → output_room ≤ length out
        → let r = received t (written_by s payload written) supplied out in
        (r.answer ≡ record { reply = 0; length = length payload; slot = i; seqnum = s.current + 1 })
        × (part 0 (length payload) r.out ≡ payload) }
{}
