// 002's `lost_nacked_packets`: the numbers that were given up after just one NACK, with its instant, oldest first, in counted places of a
// lent slice. The session keeps their count n. Where a function wants `RememberedIn`, `tidy` made it so.
// Why no struct of s and n: it would be lent anew at each step, and of a slice lent to a function that builds a struct the checker knows
// only the length when that function returns (as of `Held` in crate ffi), so `RememberedIn` would not come back with it.
#![tactic(auto)]

ghost use Rattle.std.specs.Prelude.{◌≡◌, true, ◌++◌, map, ℕ, ◌+◌, ◌*◌, ◌-◌, ◌≤◌, ◌<◌, length, take, drop, None, Some};
ghost use Rattle.words.specs.Blocks.{laid};
ghost use Rattle.words.specs.Words.{written};
ghost use Rattle.model.specs.Lists.{keep, leading, every?};
ghost use Rattle.model.specs.Rules.{once, lost_nacked_at, forget_first, max_lost_nacked, remember, remembered_after};
ghost use Rattle.model.specs.Storage.{remembered_words, gap_words, remembered_words_of, remembered_of_words, remembered_of, gaps_of};
ghost use Rattle.packet_gaps.specs.Gaps.{gap};
ghost use Rattle.lost_nacked.specs.Remembered.{RememberedIn, remembered, another};
ghost use Rattle.model.specs.Valid.{remembered_sound};

use packet_gaps::Gap;
use rtp::ExtendedSequenceNumber;

// 002's MAX_LOST_NACKED.
pub const MAX_LOST_NACKED: usize = 1024;

// Words of a remembered number's place.
pub const REMEMBERED_WORDS: usize = 2;

#[derive(Clone, Copy)]
pub struct Remembered {
    pub number: ExtendedSequenceNumber,
    pub nacked_at: u64,
}

// The remembered number at place i.
// Stays: the caller lends the words (the C interface); a type for a place in them would be made of these two at each call.
#[tactic(auto, using(crate::proofs::Laws::placed))]
pub fn read(s: &[u64], i: usize) -> Remembered
    requires { remembered_words * i + remembered_words ≤ length s.now }
    ensures { remembered result ≡ remembered_of_words (take remembered_words (drop (remembered_words * i) s.now)) }
{
    let at = REMEMBERED_WORDS * i;
    Remembered {
        number: ExtendedSequenceNumber(s[at]),
        nacked_at: s[at + 1],
    }
}

// The place of the first with the number x.
// Stays: the contract is of `remembered_of s n`; of a part `&s[..2 * n]` each caller would have to show that its records are those of s.
#[tactic(auto, using(crate::proofs::Laws::searched), unfolding(crate::specs::Remembered::another, model::specs::Rules::is_of))]
fn position(s: &[u64], n: usize, x: ExtendedSequenceNumber) -> Option<usize>
    requires { remembered_words * n ≤ length s.now }
    ensures some { (k : ℕ) → result ≡ Some k → (k < n) × (k ≡ length (leading (another x.0) (remembered_of s.now n))) }
    ensures none { result ≡ None → n ≤ length (leading (another x.0) (remembered_of s.now n)) }
{
    // Stays: as in `packet_gaps::nacks::any_full`: the place found is then read by `forget`.
    for i in 0..n {
        if read(s, i).number == x {
            return Some(i);
        }
    }
    None
}

// Takes the first with the number x out, if there is one; the answer is its instant.
// Stays: the contract is of all of s, zeros behind the records too, so the n records alone would not do; no struct: see the file's head.
// `RememberedIn` is asked for, since it holds once check 16 has passed a session that C may hand over damaged.
#[tactic(auto, using(crate::proofs::Laws::forgetting))]
pub fn forget(s: &mut [u64], n: usize, x: ExtendedSequenceNumber) -> Option<u64>
    requires { RememberedIn s.old n }
    ensures value { result ≡ lost_nacked_at x.0 (remembered_of s.old n) }
    ensures s_after { s.new ≡ laid remembered_words_of (length s.old) (forget_first x.0 (remembered_of s.old n)) }
{
    let k = position(s, n, x)?;
    let r = read(s, k);
    words::remove(
        s,
        REMEMBERED_WORDS * n,
        REMEMBERED_WORDS * k,
        REMEMBERED_WORDS,
    );
    Some(r.nacked_at)
}

// How many of the first `lost` gaps were NACKed just once.
// Stays: the contract is of `gaps_of gaps lost`; of a part `&gaps[..4 * lost]` the caller would have to show that it has the same gaps.
#[tactic(auto, using(crate::proofs::Noting::counting))]
fn count_once(gaps: &[u64], lost: usize) -> usize
    requires { gap_words * lost ≤ length gaps.now }
    ensures { result ≡ length (keep once (gaps_of gaps.now lost)) }
{
    let mut count = 0;
    // Stays: as in `packet_gaps::nacks::any_full`.
    for i in 0..lost {
        if packet_gaps::read(gaps, i).nacks == 1 {
            count += 1;
        }
    }
    count
}

// Stays: it writes into the place behind the n records, so the n records alone would not do; no struct: see the file's head.
#[tactic(auto, unfolding(model::specs::Rules::remember, model::specs::Storage::remembered_words_of))]
fn push_back(s: &mut [u64], n: usize, g: Gap)
    requires { remembered_words * n + remembered_words ≤ length s.old }
    ensures { s.new ≡ written (remembered_words * n) (remembered_words_of (remember (gap g))) s.old }
{
    let words = [g.number.0, g.nacked_at];
    words::write(s, REMEMBERED_WORDS * n, &words);
}

// Puts those of the first `lost` gaps that were NACKed just once behind the others, but for the first `skip` of them.
// Stays: the contract is of all of s, zeros behind the records too, so the n records alone would not do; no struct: see the file's head.
// Of a part `&gaps[..4 * lost]` the caller would have to show that its gaps are `gaps_of gaps lost`. `RememberedIn`: as `forget`.
#[tactic(auto, using(crate::proofs::Noting::noting))]
fn append(s: &mut [u64], n: usize, gaps: &[u64], lost: usize, skip: usize)
    requires remembered_in { RememberedIn s.old n }
    requires lost_in_bounds { gap_words * lost ≤ length gaps.now }
    requires skip_in_bounds { remembered_words * (n + (length (keep once (gaps_of gaps.now lost)) - skip)) ≤ length s.old }
    ensures { s.new ≡ laid remembered_words_of (length s.old) (remembered_of s.old n ++ map remember (drop skip (keep once (gaps_of gaps.now lost)))) }
{
    let mut seen = 0;
    // Stays: as in `packet_gaps::nacks::any_full`.
    for i in 0..lost {
        let g = packet_gaps::read(gaps, i);
        if g.nacks == 1 {
            if skip <= seen {
                push_back(s, n + (seen - skip), g);
            }
            seen += 1;
        }
    }
}

// Remembers those of the first `lost` gaps that were NACKed just once, with the oldest dropped beyond 1,024; the answer is how many there
// are then.
// Stays: the contract is of all of s, zeros behind the records too, so the n records alone would not do; no struct: see the file's head.
// Of a part `&gaps[..4 * lost]` the caller would have to show that its gaps are `gaps_of gaps lost`. `RememberedIn`: as `forget`.
#[tactic(auto, using(crate::proofs::Noting::noted_lost))]
pub fn note_lost(s: &mut [u64], n: usize, gaps: &[u64], lost: usize) -> usize
    requires remembered_in { RememberedIn s.old n }
    requires n_bound { (n ≤ max_lost_nacked) × (remembered_words * max_lost_nacked ≤ length s.old) }
    requires lost_in_bounds { gap_words * lost ≤ length gaps.now }
    ensures value { result ≡ length (remembered_after true (gaps_of gaps.now lost) (remembered_of s.old n)) }
    ensures s_after { s.new ≡ laid remembered_words_of (length s.old) (remembered_after true (gaps_of gaps.now lost) (remembered_of s.old n)) }
{
    let more = count_once(gaps, lost);
    let excess = (n + more).saturating_sub(MAX_LOST_NACKED);
    let out = excess.min(n);
    words::remove(s, REMEMBERED_WORDS * n, 0, REMEMBERED_WORDS * out);
    append(s, n - out, gaps, lost, excess - out);
    n + more - excess
}

// 01's check 16: no number past the largest, and no instant after the clock's.
// Stays: the contract is of `remembered_of s n`; of a part `&s[..2 * n]` each caller would have to show that its records are those of s.
#[tactic(auto, using(crate::proofs::Laws::sounding))]
pub fn are_sound(s: &[u64], n: usize, clock: u64) -> bool
    requires { remembered_words * n ≤ length s.now }
    ensures { result ≡ every? (remembered_sound clock) (remembered_of s.now n) }
{
    // Stays: as in `packet_gaps::nacks::any_full`.
    for i in 0..n {
        let r = read(s, i);
        if durations::LARGEST < r.number.0 || clock < r.nacked_at {
            return false;
        }
    }
    true
}

// Zeros in all places after the n-th.
// Stays: unlike `packet_gaps::check::tidy` in stride and layout; and the contract is of all of s, zeros behind the n records too.
#[tactic(auto, using(crate::proofs::Laws::tidied))]
pub fn tidy(s: &mut [u64], n: usize)
    requires { remembered_words * n ≤ length s.old }
    ensures { s.new ≡ laid remembered_words_of (length s.old) (remembered_of s.old n) }
{
    words::tidy(s, REMEMBERED_WORDS * n);
}
