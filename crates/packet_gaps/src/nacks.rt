// 001's NACKs: which gaps are due by these timings, when the next one is, and which were tried in vain.
ghost use Rattle.std.specs.Prelude.{◌≡◌, true, false, map, ◌+◌, ◌*◌, ◌≤◌, ◌<◌, length, drop};
ghost use Rattle.words.specs.Words.{over};
ghost use Rattle.words.specs.Blocks.{laid};
ghost use Rattle.words.specs.Order.{ascends};
ghost use Rattle.nack_pairs.specs.Wire.{entry_bytes, entries};
ghost use Rattle.model.specs.Lists.{keep, leading, some?, every?};
ghost use Rattle.model.specs.Records.{gap_numbers};
ghost use Rattle.model.specs.Rules.{due_at, due, nacked, nack_due, truncated, full, tried};
ghost use Rattle.model.specs.Poll.{nack_timeout_of};
ghost use Rattle.model.specs.Storage.{gap_words, gap_words_of, gaps_of};
ghost use Rattle.packet_gaps.specs.Gaps.{GapsIn, gap, instants_fit, Small};

use super::Gap;
use config::NackTimings;

// The largest NACK count, 2^32 - 1: the Rust's u32.
const MAX_NACKS: u64 = u32::MAX as u64;

// Stays: the bound holds of a valid session's timings; a type that has it would be a second one beside that of `config`, made at each call.
#[tactic(auto, using(crate::proofs::Laws::instants), unfolding(model::specs::Rules::due_at))]
fn due_at(g: Gap, t: NackTimings) -> u64
    requires g_value { instants_fit (gap g) ≡ true }
    requires small { Small t }
    ensures { result ≡ due_at t (gap g) }
{
    if g.nacks == 0 {
        return g.detected + t.initial;
    }
    g.nacked_at + t.resend
}

// Stays: the bound holds of a valid session's timings; a type that has it would be a second one beside that of `config`, made at each call.
fn is_due(g: Gap, t: NackTimings, now: u64) -> bool
    requires g_value { instants_fit (gap g) ≡ true }
    requires small { Small t }
    ensures { result ≡ due t now (gap g) }
{
    due_at(g, t) <= now
}

// g with one more NACK, sent at `now`.
#[tactic(auto, unfolding(model::specs::Rules::nacked))]
fn nack(g: Gap, now: u64) -> Gap
    requires { full (gap g) ≡ false }
    ensures { gap result ≡ nacked now (gap g) }
{
    Gap {
        nacks: g.nacks + 1,
        nacked_at: now,
        ..g
    }
}

// Whether a gap that is due was NACKed 2^32 - 1 times (01, refusal 14); the gaps before place `first` are left out.
// Stays: the contract is of `gaps_of s n`; of a part `&s[..4 * n]` each caller would have to show that its records are those of s.
// n is the session's, the instant one call's, the timings the settings'; their bounds check 16 gives, of a session that may be damaged.
#[tactic(auto, using(crate::proofs::Scan::filling))]
pub fn any_full(s: &[u64], first: usize, n: usize, now: u64, t: NackTimings) -> bool
    requires n_in_bounds { gap_words * n ≤ length s.now }
    requires n_value { every? instants_fit (gaps_of s.now n) ≡ true }
    requires small { Small t }
    ensures { result ≡ some? full (keep (due t now) (drop first (gaps_of s.now n))) }
{
    // Stays: `as_chunks::<4>()` has `first_chunks 4 ..` in its contract, which would have to be shown to be `gaps_of`; and a gap is read by
    // its place in `remove` and `poll_nacks` too, so that `read` would stay beside a `Gap` made of an array.
    for i in first..n {
        let g = super::read(s, i);
        if is_due(g, t, now) && MAX_NACKS <= g.nacks {
            return true;
        }
    }
    false
}

// NACKs each gap that is due, writes their numbers to the front of `out`, and says how many they are.
// Stays: the contract is of all of s, zeros behind the records too, so the n records alone would not do; no struct: see lib.rt's head.
// n is the session's, the instant one call's, the timings the settings'; their bounds check 16 gives, of a session that may be damaged.
#[tactic(auto, using(crate::proofs::Writing::polling))]
pub fn poll_nacks(s: &mut [u64], n: usize, now: u64, t: NackTimings, out: &mut [u16]) -> usize
    requires gaps_in { GapsIn s.old n }
    requires n_in_bounds { n ≤ length out.old }
    requires n_value { every? instants_fit (gaps_of s.old n) ≡ true }
    requires n_value_2 { some? full (keep (due t now) (gaps_of s.old n)) ≡ false }
    requires small { Small t }
    ensures value { result ≡ length (keep (due t now) (gaps_of s.old n)) }
    ensures s_after { s.new ≡ laid gap_words_of (length s.old) (nack_due t now (gaps_of s.old n)) }
    ensures out_after { out.new ≡ over (map truncated (keep (due t now) (gaps_of s.old n))) out.old }
{
    let mut count = 0;
    // Stays: each turn writes to its place, and the library's `as_chunks_mut` has no contract of what the slice ends as.
    for i in 0..n {
        let g = super::read(s, i);
        if is_due(g, t, now) {
            out[count] = g.number.truncated().0;
            count += 1;
            super::write(s, i, nack(g, now));
        }
    }
    count
}

// NACKs each gap that is due, writes the entries of a generic NACK that name them to the front of `out`, and says how many bytes they are.
// Stays: the contract is of all of s, zeros behind the records too, so the n records alone would not do; no struct: see lib.rt's head.
// n is the session's, the instant one call's, the timings the settings'; their bounds check 16 gives, of a session that may be damaged.
#[tactic(auto, using(crate::proofs::Writing::wiring))]
pub fn poll_wire(s: &mut [u64], n: usize, now: u64, t: NackTimings, out: &mut [u8]) -> usize
    requires gaps_in { GapsIn s.old n }
    requires n_in_bounds { entry_bytes * n ≤ length out.old }
    requires n_value { every? instants_fit (gaps_of s.old n) ≡ true }
    requires n_value_2 { some? full (keep (due t now) (gaps_of s.old n)) ≡ false }
    requires small { Small t }
    requires n_value_3 { ascends (gap_numbers (gaps_of s.old n)) ≡ true }
    ensures value { result ≡ length (entries (gap_numbers (keep (due t now) (gaps_of s.old n)))) }
    ensures s_after { s.new ≡ laid gap_words_of (length s.old) (nack_due t now (gaps_of s.old n)) }
    ensures out_after { out.new ≡ over (entries (gap_numbers (keep (due t now) (gaps_of s.old n)))) out.old }
{
    let mut named = nack_pairs::none_named();
    // Stays: as in `poll_nacks`.
    for i in 0..n {
        let g = super::read(s, i);
        if is_due(g, t, now) {
            named = nack_pairs::name(named, g.number.0, out);
            super::write(s, i, nack(g, now));
        }
    }
    named.bytes
}

// The least time until a gap is due.
// Stays: the contract is of `gaps_of s n`; of a part `&s[..4 * n]` each caller would have to show that its records are those of s.
// n is the session's, the instant one call's, the timings the settings'; their bounds check 16 gives, of a session that may be damaged.
#[tactic(auto, using(crate::proofs::Scan::timing))]
pub fn timeout_nacks(s: &[u64], n: usize, now: u64, t: NackTimings) -> Option<u64>
    requires n_in_bounds { gap_words * n ≤ length s.now }
    requires n_value { every? instants_fit (gaps_of s.now n) ≡ true }
    requires small { Small t }
    ensures { result ≡ nack_timeout_of t now (gaps_of s.now n) }
{
    let mut timeout = None;
    // Stays: as in `any_full`.
    for i in (0..n).rev() {
        let left = due_at(super::read(s, i), t).saturating_sub(now);
        timeout = rtp::opt::opt_min(Some(left), timeout);
    }
    timeout
}

// How many gaps at the front were NACKed at least `max` times.
// Stays: the contract is of `gaps_of s n`; of a part `&s[..4 * n]` each caller would have to show that its records are those of s.
#[tactic(auto, using(crate::proofs::Scan::trying), unfolding(model::specs::Rules::tried))]
pub fn count_lost(s: &[u64], n: usize, max: u32) -> usize
    requires { gap_words * n ≤ length s.now }
    ensures { result ≡ length (leading (tried max) (gaps_of s.now n)) }
{
    // Stays: as in `any_full`.
    for i in 0..n {
        let g = super::read(s, i);
        if g.nacks < u64::from(max) {
            return i;
        }
    }
    n
}
