// The digits of answers that may be long. The library's formatter takes longer for a number than its digits do, and the crate `hex` looks up one
// digit after another, where sixteen look-ups take as long as one.
ghost use Rattle.std.specs.Prelude.{◌≡◌, ◌+◌, ◌*◌, ◌/◌, ◌%◌, ◌≤◌, ◌∷◌, ◌++◌, ℕ, drop, length, map, slice_index};
ghost use Rattle.std.specs.Fmt.{decimal};
ghost use Rattle.hex.specs.Hex.{encode_lower, lower_digits};

use std::simd::prelude::*;

// The bytes of the longest number, with the blank before it.
const FIELD: usize = 21;

// How many numbers are made at once.
pub const AT_ONCE: usize = 4;

// The bytes of as many.
pub const FIELDS: usize = AT_ONCE * FIELD;

// Puts a number, with the blank before it, right before `end`, and answers where the blank is.
fn put_before(text: &mut [u8; FIELDS], end: usize, n: u64) -> usize
    requires { (21 ≤ end) × (end ≤ 84) }
    ensures text { drop result text.new ≡ 32 ∷ decimal n ++ drop end text.old }
    ensures room { (end ≤ result + 21) × (result ≤ end) }
{
    let first = itoa::write_digits(n, text, end) - 1;
    text[first] = b' ';
    first
}

// Numbers, with the blank before each: the last bytes of `text`.
pub(crate) fn fields<'a, N: Copy + Into<u64>>(text: &'a mut [u8; FIELDS], numbers: &[N]) -> &'a [u8]
    requires { length numbers.now ≤ 4 }
{
    let mut first = FIELDS;
    for &n in numbers.iter().rev() {
        first = put_before(text, first, n.into());
    }
    &text[first..]
}

const DIGITS: [u8; 16] = *b"0123456789abcdef";

// The first digit of each byte.
fn first_digits(bytes: u8x16) -> u8x16
    ensures { result ≡ map (λ (b : ℕ). slice_index lower_digits (b / 16)) bytes }
{
    u8x16::from_array(DIGITS).swizzle_dyn(bytes >> u8x16::splat(4))
}

// The second digit of each byte.
fn second_digits(bytes: u8x16) -> u8x16
    ensures { result ≡ map (λ (b : ℕ). slice_index lower_digits (b % 16)) bytes }
{
    u8x16::from_array(DIGITS).swizzle_dyn(bytes & u8x16::splat(15))
}

fn both_digits(bytes: u8x16) -> u8x32
    ensures { result ≡ encode_lower bytes }
{
    first_digits(bytes).shuffle(
        second_digits(bytes),
        [
            0, 16, 1, 17, 2, 18, 3, 19, 4, 20, 5, 21, 6, 22, 7, 23, 8, 24, 9, 25, 10, 26, 11, 27,
            12, 28, 13, 29, 14, 30, 15, 31,
        ],
    )
}

// HEX. Fewer than sixteen bytes that are left at the end are filled up with zeros, whose digits are left out.
pub(crate) fn hex(bytes: &[u8], text: &mut [u8])
    requires { length text.old ≡ 2 * length bytes.now }
    ensures { text.new ≡ encode_lower bytes.now }
{
    let whole = bytes.len() / 16;
    for i in 0..whole {
        both_digits(u8x16::from_slice(&bytes[16 * i..])).copy_to_slice(&mut text[32 * i..]);
    }
    let rest = &bytes[16 * whole..];
    if rest.is_empty() {
        return;
    }
    let mut last = [0u8; 16];
    last[..rest.len()].copy_from_slice(rest);
    let made = both_digits(u8x16::from_array(last)).to_array();
    text[32 * whole..].copy_from_slice(&made[..2 * rest.len()]);
}
