// 01's check 16 on the entries, which every call makes first, and the zeros that an accepted call leaves behind the last entry.
ghost use Rattle.std.specs.Prelude.{◌≡◌, true, List, ℕ, ◌*◌, ◌≤◌, length};
ghost use Rattle.words.specs.Blocks.{laid};
ghost use Rattle.words.specs.Order.{ascends};
ghost use Rattle.rtp.specs.Opt.{number_of, at_most};
ghost use Rattle.model.specs.Lists.{every?};
ghost use Rattle.model.specs.Records.{gap_numbers};
ghost use Rattle.model.specs.Valid.{by_clock, fields_sound, entries_sound};
ghost use Rattle.model.specs.Storage.{entry_words, payload_bytes, gap_words, entry_words_of, payload_bytes_of, entries_of, gaps_of};
ghost use Rattle.packet_gaps.specs.Gaps.{bounds};
ghost use Rattle.entries.specs.Entries.{fits};

use super::{ENTRY_WORDS, Entry, PAYLOAD_BYTES};
use packet_gaps::check::Bounds;
use rtp::ExtendedSequenceNumber;

#[tactic(auto, using(crate::proofs::Laws::no_higher), unfolding(rtp::specs::Opt::number_of, rtp::specs::Opt::at_most))]
fn at_most(highest: Option<ExtendedSequenceNumber>, x: ExtendedSequenceNumber) -> bool
    ensures { result ≡ at_most x.0 (number_of highest) }
{
    highest.is_some_and(|h| x <= h)
}

#[tactic(auto, unfolding(model::specs::Valid::by_clock))]
fn by_clock(clock: u64, instant: Option<u64>) -> bool
    ensures { result ≡ by_clock clock instant }
{
    instant.is_none_or(|i| i <= clock)
}

// `missing`: the entry's number is that of a gap too.
#[tactic(auto, unfolding(model::specs::Valid::fields_sound))]
fn entry_sound(b: Bounds, missing: bool, e: Entry) -> bool
    ensures { result ≡ fields_sound (bounds b) missing e.number.0 e.timestamp.0 e.arrival e.size }
{
    let low = packet_gaps::check::above(b.passed, e.number);
    let high = at_most(b.highest, e.number);
    let came = by_clock(b.clock, e.arrival);
    high & (low
        & (!missing & ((e.timestamp.0 <= durations::LARGEST) & (came & (e.size <= PAYLOAD_BYTES)))))
}

// Whether the numbers of the n entries ascend, and each entry keeps to the bounds and has not the number of one of the m gaps. The
// payloads' bytes are not looked at.
// Stays: the contract is of `entries_of words bytes n` and `gaps_of gaps m`; of parts of the slices the caller would have to show that
// their records are those. The order of the gaps is asked for: that is checked before, of a session that C may hand over damaged.
#[tactic(auto, using(crate::proofs::Scan::sounding), unfolding(packet_gaps::proofs::Turns::left))]
pub fn are_sound(words: &[u64], n: usize, b: Bounds, gaps: &[u64], m: usize) -> bool
    requires n_in_bounds { (entry_words * n ≤ length words.now) × (gap_words * m ≤ length gaps.now) }
    requires m_value { ascends (gap_numbers (gaps_of gaps.now m)) ≡ true }
    ensures { (bytes : List ℕ) → result ≡ entries_sound (bounds b) (gaps_of gaps.now m) (entries_of words.now bytes n) }
{
    // Stays: as in `packet_gaps::nacks::any_full`; and each turn looks at the next entry's number too.
    for i in 0..n {
        let e = super::read(words, i);
        let missing = packet_gaps::contains(gaps, m, e.number);
        if !entry_sound(b, missing, e) {
            return false;
        }
        let next = i + 1;
        if next < n && words[ENTRY_WORDS * next] <= e.number.0 {
            return false;
        }
    }
    true
}

// Zeros in each payload's place after the payload, and in all places after the n-th.
// Stays: the contract is of the whole slices, zeros behind the entries too, so n entries alone would not do; no struct: see lib.rt's head.
#[tactic(auto, using(crate::proofs::Scan::tidying))]
fn tidy_places(words: &[u64], bytes: &mut [u8], n: usize)
    requires n_in_bounds { (entry_words * n ≤ length words.now) × (payload_bytes * n ≤ length bytes.old) }
    requires n_value { every? fits (entries_of words.now bytes.old n) ≡ true }
    ensures { bytes.new ≡ laid payload_bytes_of (length bytes.old) (entries_of words.now bytes.old n) }
{
    // Stays: each turn writes to its payload's place, and the library's `as_chunks_mut` has no contract of what the slice ends as.
    for i in 0..n {
        let e = super::read(words, i);
        words::tidy_place(bytes, PAYLOAD_BYTES * i, PAYLOAD_BYTES, e.size);
    }
    words::tidy(bytes, PAYLOAD_BYTES * n);
}

// Zeros wherever nothing of the n entries stands.
// Stays: the contract is of the whole slices, zeros behind the entries too, so n entries alone would not do; no struct: see lib.rt's head.
#[tactic(auto, using(crate::proofs::Scan::words_tidied))]
pub fn tidy(words: &mut [u64], bytes: &mut [u8], n: usize)
    requires n_in_bounds { (entry_words * n ≤ length words.old) × (payload_bytes * n ≤ length bytes.old) }
    requires n_value { every? fits (entries_of words.old bytes.old n) ≡ true }
    ensures words_after { words.new ≡ laid entry_words_of (length words.old) (entries_of words.old bytes.old n) }
    ensures bytes_after { bytes.new ≡ laid payload_bytes_of (length bytes.old) (entries_of words.old bytes.old n) }
{
    tidy_places(words, bytes, n);
    words::tidy(words, ENTRY_WORDS * n);
}
