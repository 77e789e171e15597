// 001: the gaps, numbers that have not come, each with its NACK state, in counted places of a lent slice. The session keeps their count
// n. Where a function wants `GapsIn`, `check::tidy` made it so.
// Why no struct of s and n: it would be lent anew at each step, and of a slice lent to a function that builds a struct the checker knows
// only the length when that function returns (as of `Held` in crate ffi), so `GapsIn` and the order would not come back with it.
#![tactic(auto)]

ghost use Rattle.std.specs.Prelude.{◌≡◌, true, ◌++◌, [], map, ◌+◌, ◌*◌, ◌-◌, ◌≤◌, ◌<◌, length, take, drop};
ghost use Rattle.words.specs.Words.{written};
ghost use Rattle.words.specs.Blocks.{laid};
ghost use Rattle.words.specs.Order.{ascends};
ghost use Rattle.model.specs.Lists.{some?};
ghost use Rattle.model.specs.Records.{gap_numbers};
ghost use Rattle.model.specs.Rules.{is, without, gaps_below, between, fresh, nacked_once, gap_nacked_at};
ghost use Rattle.model.specs.Storage.{gap_words, gap_words_of, gap_of_words, gaps_of};
ghost use Rattle.packet_gaps.specs.Gaps.{GapsIn, gap};

use rtp::ExtendedSequenceNumber;

pub mod check;
pub mod nacks;

// Words of a gap's place.
pub const GAP_WORDS: usize = 4;

#[derive(Clone, Copy)]
pub struct Gap {
    pub number: ExtendedSequenceNumber,
    pub detected: u64,
    pub nacks: u64,
    // As long as there was no NACK, check 16 alone looks at it.
    pub nacked_at: u64,
}

// The gap at place i.
// Stays: the caller lends the words (the C interface); a type for a place in them would be made of these two at each call.
#[tactic(auto, using(crate::proofs::Laws::placed))]
pub fn read(s: &[u64], i: usize) -> Gap
    requires { gap_words * i + gap_words ≤ length s.now }
    ensures { gap result ≡ gap_of_words (take gap_words (drop (gap_words * i) s.now)) }
{
    let at = GAP_WORDS * i;
    Gap {
        number: ExtendedSequenceNumber(s[at]),
        detected: s[at + 1],
        nacks: s[at + 2],
        nacked_at: s[at + 3],
    }
}

// Stays: the caller lends the words (the C interface); a type for a place in them would be made of these two at each call.
#[tactic(auto, unfolding(model::specs::Storage::gap_words_of))]
fn write(s: &mut [u64], i: usize, g: Gap)
    requires { gap_words * i + gap_words ≤ length s.old }
    ensures { s.new ≡ written (gap_words * i) (gap_words_of (gap g)) s.old }
{
    let words = [g.number.0, g.detected, g.nacks, g.nacked_at];
    words::write(s, GAP_WORDS * i, &words);
}

// Whether x is the number of a gap.
// Stays: the contract is of `gaps_of s n`; of a part `&s[..4 * n]` each caller would have to show that its records are those of s.
// That the numbers ascend is asked for, since check 16 is asked of sessions that C hands over damaged.
#[tactic(auto, using(crate::proofs::Laws::placed))]
pub fn contains(s: &[u64], n: usize, x: ExtendedSequenceNumber) -> bool
    requires n_in_bounds { gap_words * n ≤ length s.now }
    requires n_value { ascends (gap_numbers (gaps_of s.now n)) ≡ true }
    ensures { result ≡ some? (is x.0) (gaps_of s.now n) }
{
    let k = words::search::rank_of(s, GAP_WORDS, n, x.0);
    k < n && s[GAP_WORDS * k] == x.0
}

#[tactic(auto, unfolding(model::specs::Rules::nacked_once))]
fn nacked_once(g: Gap) -> Option<u64>
    ensures { result ≡ nacked_once (gap g) }
{
    (g.nacks == 1).then_some(g.nacked_at)
}

// Takes the gap of the number x out; its answer is the instant of the NACK, if there was just one.
// Stays: the contract is of all of s, zeros behind the records too, so the n records alone would not do; no struct: see the file's head.
// `GapsIn` and the order are asked for, since they hold once check 16 has passed a session that C may hand over damaged.
#[tactic(auto, using(crate::proofs::Laws::placed))]
pub fn remove(s: &mut [u64], n: usize, x: ExtendedSequenceNumber) -> Option<u64>
    requires gaps_in { GapsIn s.old n }
    requires n_value { ascends (gap_numbers (gaps_of s.old n)) ≡ true }
    requires n_value_2 { some? (is x.0) (gaps_of s.old n) ≡ true }
    ensures value { result ≡ gap_nacked_at x.0 (gaps_of s.old n) }
    ensures s_after { s.new ≡ laid gap_words_of (length s.old) (without x.0 (gaps_of s.old n)) }
{
    let k = words::search::rank_of(s, GAP_WORDS, n, x.0);
    let g = read(s, k);
    words::remove(s, GAP_WORDS * n, GAP_WORDS * k, GAP_WORDS);
    nacked_once(g)
}

// Takes all gaps out.
#[tactic(auto, unfolding(words::specs::Blocks::laid, words::specs::Blocks::flat))]
pub fn clear(s: &mut [u64])
    ensures { s.new ≡ laid gap_words_of (length s.old) [] }
{
    words::tidy(s, 0);
}

// Opens a gap for each number between h and x, detected at `at`.
// Stays: the contract is of all of s, zeros behind the records too, so the n records alone would not do; no struct: see the file's head.
// `GapsIn` is asked for, since it holds once check 16 has passed a session that C may hand over damaged.
#[tactic(auto, using(crate::proofs::Opening::opening), unfolding(model::specs::Rules::fresh))]
pub fn open_between(
    s: &mut [u64],
    n: usize,
    h: ExtendedSequenceNumber,
    x: ExtendedSequenceNumber,
    at: u64,
)
    requires gaps_in { GapsIn s.old n }
    requires h_lt_x { h.0 < x.0 }
    requires h_in_bounds { gap_words * (n + (x.0 - (h.0 + 1))) ≤ length s.old }
    ensures { s.new ≡ laid gap_words_of (length s.old) (gaps_of s.old n ++ map (fresh at) (between h.0 x.0)) }
{
    let first = h.0 + 1;
    for i in 0..(x.0 - first) as usize {
        let g = Gap {
            number: ExtendedSequenceNumber(first + i as u64),
            detected: at,
            nacks: 0,
            nacked_at: 0,
        };
        write(s, n + i, g);
    }
}

// How many gaps have a number below x. They stand at the front.
// Stays: the contract is of `gaps_of s n`; of a part `&s[..4 * n]` each caller would have to show that its records are those of s.
// That the numbers ascend is asked for, since check 16 is asked of sessions that C hands over damaged.
#[tactic(auto, using(crate::proofs::Laws::placed))]
pub fn count_below(s: &[u64], n: usize, x: ExtendedSequenceNumber) -> usize
    requires n_in_bounds { gap_words * n ≤ length s.now }
    requires n_value { ascends (gap_numbers (gaps_of s.now n)) ≡ true }
    ensures { result ≡ length (gaps_below x.0 (gaps_of s.now n)) }
{
    words::search::rank_of(s, GAP_WORDS, n, x.0)
}

// Takes the first k gaps out.
// Stays: the contract is of all of s, zeros behind the records too, so the n records alone would not do; no struct: see the file's head.
// `GapsIn` is asked for, since it holds once check 16 has passed a session that C may hand over damaged.
#[tactic(auto, using(crate::proofs::Laws::moved))]
pub fn drain(s: &mut [u64], n: usize, k: usize)
    requires gaps_in { GapsIn s.old n }
    requires k_le_n { k ≤ n }
    ensures { s.new ≡ laid gap_words_of (length s.old) (drop k (gaps_of s.old n)) }
{
    words::remove(s, GAP_WORDS * n, 0, GAP_WORDS * k);
}
