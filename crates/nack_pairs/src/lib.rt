// 02, point 1: lost numbers as the entries of a generic NACK (RFC 4585, section 6.2.1), four bytes to a pair of a first number and a mask of
// the sixteen that follow it; and the reader of such entries.
#![tactic(auto)]

ghost use Rattle.std.specs.Prelude.{◌≡◌, ◌+◌, ◌-◌, ◌≤◌, length};
ghost use Rattle.words.specs.Words.{written};
ghost use Rattle.nack_pairs.specs.Pairs.{pair};
ghost use Rattle.nack_pairs.specs.Wire.{entry_bytes, bytes_of};
ghost use Rattle.nack_pairs.specs.Naming.{Follows, named_next};
ghost use Rattle.nack_pairs.specs.Pairing.{Pairing};

pub mod read;

// Bytes of a pair.
pub const ENTRY_BYTES: usize = 4;

// How far the entries go, and the last pair, which may still name more; where there are no bytes there is none.
// Stays: an `Option` of the pair beside `bytes` would say none twice; `bytes` 0 is one test (`next`), which the definition has too.
#[derive(Clone, Copy, Default)]
pub struct Naming {
    pub bytes: usize,
    pub first: u64,
    pub mask: u64,
}

pub fn none_named() -> Naming
    ensures { result.bytes ≡ 0 }
{
    Naming::default()
}

// n with x named too, which is above the numbers that were named.
#[tactic(auto, using(crate::proofs::Writing::naming))]
fn next(n: Naming, x: u64) -> Naming
    requires { Follows n x }
    ensures { result ≡ named_next n x }
{
    if n.bytes == 0 {
        return Naming {
            bytes: ENTRY_BYTES,
            first: x,
            mask: 0,
        };
    }
    let above = x - n.first;
    if above <= 16 {
        return Naming {
            mask: n.mask + (1u64 << (above - 1)),
            ..n
        };
    }
    Naming {
        bytes: n.bytes + ENTRY_BYTES,
        first: x,
        mask: 0,
    }
}

// The pair's bytes at `at`, of one number, so that they are stored at once: of two halves, byte by byte, a call that names thousands of
// numbers took half as long again.
#[tactic(auto, using(crate::proofs::Wiring::pair_bytes))]
fn put(out: &mut [u8], at: usize, first: u64, mask: u64)
    requires { at + entry_bytes ≤ length out.old }
    ensures { out.new ≡ written at (bytes_of (pair first mask)) out.old }
{
    let entry = (first % 65536 * 65536 + mask % 65536) as u32;
    words::write(out, at, &entry.to_be_bytes());
}

// Names x, which is above the numbers that were named, and writes its pair where it stands: over the last pair, or after it.
#[tactic(auto, using(crate::proofs::Writing::next_least))]
pub fn name(n: Naming, x: u64, out: &mut [u8]) -> Naming
    requires follows { Follows n x }
    requires x_in_bounds { (named_next n x).bytes ≤ length out.old }
    ensures value { result ≡ named_next n x }
    ensures out_after { out.new ≡ written (result.bytes - entry_bytes) (bytes_of (pair result.first result.mask)) out.old }
{
    let r = next(n, x);
    put(out, r.bytes - ENTRY_BYTES, r.first, r.mask);
    r
}

// Nothing is computed: what it ensures is what is claimed of the pairs of every ascending list of numbers.
fn pairing()
    ensures { Pairing }
{}
