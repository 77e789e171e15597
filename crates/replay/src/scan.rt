// Searches of bytes.
ghost use Rattle.std.specs.Prelude.{◌≡◌, ◌≢◌, ℕ, ◌≤◌, ◌<◌, length, slice_index};

use memchr::memchr;

// The place of the first `b`, or the length.
// Stays: a part of the input, or the last field, ends where the bytes do, so no place is missing.
pub(crate) fn find(bytes: &[u8], b: u8) -> usize
    ensures within { result ≤ length bytes.now }
    ensures before { (k : ℕ) → k < result → slice_index bytes.now k ≢ b }
    ensures found { result < length bytes.now → slice_index bytes.now result ≡ b }
{
    memchr(b, bytes).unwrap_or(bytes.len())
}
