// The fields of an RTP header (RFC 3550, section 5.1), each equal to its definition in specs/Header.antt for every list of bytes:
// a byte past the end reads 0.
ghost use Rattle.std.specs.Prelude.{◌≡◌, ◌≤◌, ◌<◌, ◌^◌};
ghost use Rattle.rtp_packet.specs.Header.{byte, big_endian, bit, version, padding, extension, marker, payload_type_of, sequence_number, timestamp, ssrc, extension_start, header_length, padding_length, payload_end};

use rtp::{RtpTimestamp, SequenceNumber, Ssrc};

pub(crate) fn byte_at(d: &[u8], i: usize) -> u8
    ensures { result ≡ byte d.now i }
{
    d.get(i).copied().unwrap_or(0)
}

// The number in `width` bytes from `at` on, the most significant first.
// Stays: a byte past the end reads 0, so that the part cannot be cut and lent; each call writes the two as numerals of the picture.
#[tactic(auto, using(crate::proofs::BigEndian::big_endian_next), unfolding(crate::specs::Header::big_endian))]
pub(crate) fn big_endian(d: &[u8], at: usize, width: usize) -> u32
    requires at_bound { at ≤ 1000 }
    requires width_bound { width ≤ 4 }
    ensures value { result ≡ big_endian width at d.now }
    ensures upper_bound { result < 256 ^ width }
{
    let mut number: u32 = 0;
    // Stays: a byte past the end reads 0, which no part of the slice has.
    for i in 0..width {
        number = number * 256 + u32::from(byte_at(d, at + i));
    }
    number
}

pub(crate) fn version_of(d: &[u8]) -> u8
    ensures { result ≡ version d.now }
{
    byte_at(d, 0) / 64
}

// Whether the bit of weight 2^k of byte i is set.
#[tactic(auto, unfolding(crate::specs::Header::bit))]
fn bit_at(d: &[u8], i: usize, k: u32) -> bool
    requires { k < 8 }
    ensures { result ≡ bit i k d.now }
{
    (byte_at(d, i) >> k) % 2 == 1
}

// Stays: each names its field of RFC 3550's header; what they share is `bit_at`.
pub(crate) fn has_padding(d: &[u8]) -> bool
    ensures { result ≡ padding d.now }
{
    bit_at(d, 0, 5)
}

pub(crate) fn has_extension(d: &[u8]) -> bool
    ensures { result ≡ extension d.now }
{
    bit_at(d, 0, 4)
}

pub(crate) fn has_marker(d: &[u8]) -> bool
    ensures { result ≡ marker d.now }
{
    bit_at(d, 1, 7)
}

pub(crate) fn payload_type(d: &[u8]) -> u8
    ensures { result ≡ payload_type_of d.now }
{
    byte_at(d, 1) % 128
}

pub(crate) fn sequence_number(d: &[u8]) -> SequenceNumber
    ensures { result.0 ≡ sequence_number d.now }
{
    SequenceNumber(big_endian(d, 2, 2) as u16)
}

// Stays: each has the type of its field; what they share is `big_endian`.
pub(crate) fn timestamp(d: &[u8]) -> RtpTimestamp
    ensures { result.0 ≡ timestamp d.now }
{
    RtpTimestamp(big_endian(d, 4, 4))
}

pub(crate) fn ssrc(d: &[u8]) -> Ssrc
    ensures { result.0 ≡ ssrc d.now }
{
    Ssrc(big_endian(d, 8, 4))
}

// Past the CSRCs.
#[tactic(auto, unfolding(crate::specs::Header::extension_start))]
fn extension_start(d: &[u8]) -> usize
    ensures value { result ≡ extension_start d.now }
    ensures upper_bound { result ≤ 72 }
{
    12 + 4 * usize::from(byte_at(d, 0) % 16)
}

// Past the CSRCs and the extension.
#[tactic(auto, unfolding(crate::specs::Header::header_length, crate::specs::Header::extension_length))]
pub(crate) fn header_length(d: &[u8]) -> usize
    ensures { result ≡ header_length d.now }
{
    let start = extension_start(d);
    if has_extension(d) {
        let words = big_endian(d, start + 2, 2) as usize;
        start + (4 + 4 * words)
    } else {
        start
    }
}

#[tactic(auto, using(crate::proofs::Bounds::not_empty), unfolding(crate::specs::Header::padding_length))]
pub(crate) fn padding_length(d: &[u8]) -> usize
    ensures { result ≡ padding_length d.now }
{
    if has_padding(d) {
        usize::from(byte_at(d, d.len() - 1))
    } else {
        0
    }
}

#[tactic(auto, unfolding(crate::specs::Header::payload_end))]
pub(crate) fn payload_end(d: &[u8]) -> usize
    ensures { result ≡ payload_end d.now }
{
    d.len().saturating_sub(padding_length(d))
}
