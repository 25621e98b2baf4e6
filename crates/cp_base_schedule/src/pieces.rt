//! Cutting bytes into the pieces between bytes of one kind.

ghost use Rattle.std.specs.Prelude.{◌≡◌, ◌<◌, ◌≤◌, ◌+◌, ◌∷◌, drop, length, take};
ghost use Rattle.cp_model.specs.OrderText.{split_at_byte};
ghost use Rattle.cp_base_schedule.specs.Pieces.{pieces_after};

/// How many bytes there are before the first such byte, or in all.
pub(crate) fn length_before(byte: u8, bytes: &[u8]) -> usize
    ensures within { result ≤ length bytes.now }
    ensures pieces { split_at_byte byte bytes.now
        ≡ take result bytes.now ∷ pieces_after byte (drop result bytes.now) }
{
    for (at, b) in bytes.iter().enumerate() {
        if *b == byte {
            return at;
        }
    }
    bytes.len()
}

/// The bytes after the one at an index.
pub(crate) fn after(bytes: &[u8], index: usize) -> &[u8]
    requires { index < length bytes.now }
    ensures { result.now ≡ drop (index + 1) bytes.now }
{
    &bytes[index + 1..]
}
