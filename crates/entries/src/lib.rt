// 000's queue of entries, ascending by number, in counted places of two lent slices: four words for each entry, and 320 bytes for its
// payload. The session keeps their count n. Where a function wants `EntriesIn`, `check::tidy` made it so.
// Why no struct of the slices and n: it would be lent anew at each step, and of a slice lent to a function that builds a struct the checker
// knows only the length when that function returns (as of `Held` in crate ffi), so `EntriesIn` would not come back with it.
#![tactic(auto)]

ghost use Rattle.std.specs.Prelude.{◌≡◌, true, List, [], ◌∷◌, ℕ, ◌+◌, ◌*◌, ◌^◌, ◌≤◌, ◌<◌, length, take, drop};
ghost use Rattle.words.specs.Words.{over, padded};
ghost use Rattle.words.specs.Blocks.{laid};
ghost use Rattle.words.specs.Order.{ascends};
ghost use Rattle.model.specs.Records.{entry_numbers};
ghost use Rattle.model.specs.Push.{insert_sorted};
ghost use Rattle.model.specs.Calls.{payload_out};
ghost use Rattle.model.specs.Storage.{entry_words, payload_bytes, arrival_word, entry_words_of, payload_bytes_of, entry_of, entries_of};
ghost use Rattle.entries.specs.Entries.{EntriesIn, Incoming, entry, first_number};

use rtp::{ExtendedRtpTimestamp, ExtendedSequenceNumber};

pub mod check;

// Words of an entry's place.
pub const ENTRY_WORDS: usize = 4;

// Bytes of its payload's place.
pub const PAYLOAD_BYTES: usize = rtp_packet::LARGEST_PAYLOAD;

// An entry without its payload.
// Stays: the payload lies in its place of the lent bytes, and the entry has its length.
#[derive(Clone, Copy)]
pub struct Entry {
    // None for a repair.
    pub arrival: Option<u64>,
    pub timestamp: ExtendedRtpTimestamp,
    pub number: ExtendedSequenceNumber,
    pub marker: bool,
    // How many bytes the payload has.
    pub size: usize,
}

#[tactic(auto, unfolding(model::specs::Storage::arrival_word))]
fn arrival_word(arrival: Option<u64>) -> u64
    requires { arrival_word arrival < 2 ^ 64 }
    ensures { result ≡ arrival_word arrival }
{
    arrival.map_or(0, |i| i + 1)
}

// The words of an entry's place, which stand for its payload too.
fn words_of(e: Entry) -> [u64; ENTRY_WORDS]
    requires arrival { arrival_word e.arrival < 2 ^ 64 }
    requires size { e.size ≤ payload_bytes }
    ensures { (p : List ℕ) → e.size ≡ length p → result ≡ entry_words_of (entry e p) }
{
    let last = 2 * (e.size as u64) + u64::from(e.marker);
    [e.number.0, e.timestamp.0, arrival_word(e.arrival), last]
}

// The entry at place i; its payload is the first bytes of its place.
pub fn read(words: &[u64], i: usize) -> Entry
    requires { entry_words * i + entry_words ≤ length words.now }
    ensures { (p : List ℕ) → entry_of (take entry_words (drop (entry_words * i) words.now)) p ≡ entry result (padded result.size (take result.size p)) }
{
    let at = ENTRY_WORDS * i;
    let last = words[at + 3];
    Entry {
        arrival: words[at + 2].checked_sub(1),
        timestamp: ExtendedRtpTimestamp(words[at + 1]),
        number: ExtendedSequenceNumber(words[at]),
        marker: last % 2 == 1,
        size: (last / 2) as usize,
    }
}

// Puts an entry in before the first that is not below it (`insert_sorted`).
// Stays: the contract is of the whole slices, zeros behind the entries too, so n entries alone would not do; no struct: see the head.
// `EntriesIn` is asked for, since it holds once check 16 has passed a session that C may hand over damaged.
#[tactic(auto, using(crate::proofs::Laws::inserting))]
pub fn insert(words: &mut [u64], bytes: &mut [u8], n: usize, e: Entry, payload: &[u8])
    requires entries_in { EntriesIn words.old bytes.old n }
    requires n_value { ascends (entry_numbers (entries_of words.old bytes.old n)) ≡ true }
    requires n_in_bounds { (entry_words * n + entry_words ≤ length words.old) × (payload_bytes * n + payload_bytes ≤ length bytes.old) }
    requires incoming { Incoming e payload.now }
    ensures words_after { words.new ≡ laid entry_words_of (length words.old) (insert_sorted (entry e payload.now) (entries_of words.old bytes.old n)) }
    ensures bytes_after { bytes.new ≡ laid payload_bytes_of (length bytes.old) (insert_sorted (entry e payload.now) (entries_of words.old bytes.old n)) }
{
    let k = words::search::rank_of(words, ENTRY_WORDS, n, e.number.0);
    let record = words_of(e);
    words::insert(words, ENTRY_WORDS * n, ENTRY_WORDS * k, &record);
    words::insert_place(
        bytes,
        PAYLOAD_BYTES * n,
        PAYLOAD_BYTES * k,
        PAYLOAD_BYTES,
        payload,
    );
}

// Puts an entry in while the first one goes out, so that no place more is needed. Where it would itself be the first, nothing moves. The
// answer is the number of the one that is out.
// Stays: the contract is of the whole slices, zeros behind the entries too, so n entries alone would not do; no struct: see the head.
// `EntriesIn` is asked for, since it holds once check 16 has passed a session that C may hand over damaged.
#[tactic(auto, using(crate::proofs::Laws::inserting))]
pub fn push_out(
    words: &mut [u64],
    bytes: &mut [u8],
    n: usize,
    e: Entry,
    payload: &[u8],
) -> ExtendedSequenceNumber
    requires entries_in { EntriesIn words.old bytes.old n }
    requires n_value { ascends (entry_numbers (entries_of words.old bytes.old n)) ≡ true }
    requires incoming { Incoming e payload.now }
    ensures result_value { result.0 ≡ first_number (insert_sorted (entry e payload.now) (entries_of words.old bytes.old n)) }
    ensures words_after { words.new ≡ laid entry_words_of (length words.old) (drop 1 (insert_sorted (entry e payload.now) (entries_of words.old bytes.old n))) }
    ensures bytes_after { bytes.new ≡ laid payload_bytes_of (length bytes.old) (drop 1 (insert_sorted (entry e payload.now) (entries_of words.old bytes.old n))) }
{
    let k = words::search::rank_of(words, ENTRY_WORDS, n, e.number.0);
    if k == 0 {
        return e.number;
    }
    let first = words[0];
    let record = words_of(e);
    words::replace_first(words, ENTRY_WORDS * k, &record);
    words::replace_first_place(bytes, PAYLOAD_BYTES * k, PAYLOAD_BYTES, payload);
    ExtendedSequenceNumber(first)
}

// Takes the first entry out. Its payload goes straight across to the front of `out` (02, point 3), which keeps the bytes after it.
// Stays: the contract is of the whole slices, zeros behind the entries too, so n entries alone would not do; no struct: see the head.
// `EntriesIn` is asked for, since it holds once check 16 has passed a session that C may hand over damaged. C lends `out`, which
// may be longer than a payload's place.
#[tactic(auto, using(crate::proofs::Laws::popping))]
pub fn pop_front(words: &mut [u64], bytes: &mut [u8], n: usize, out: &mut [u8]) -> Entry
    requires entries_in { EntriesIn words.old bytes.old n }
    requires n_nonzero { (0 < n) × (payload_bytes ≤ length out.old) }
    ensures n_value { take 1 (entries_of words.old bytes.old n) ≡ entry result (take result.size bytes.old) ∷ [] }
    ensures words_after { words.new ≡ laid entry_words_of (length words.old) (drop 1 (entries_of words.old bytes.old n)) }
    ensures bytes_after { bytes.new ≡ laid payload_bytes_of (length bytes.old) (drop 1 (entries_of words.old bytes.old n)) }
    ensures out_after { out.new ≡ over (payload_out (take 1 (entries_of words.old bytes.old n))) out.old }
    ensures size_bound { result.size ≤ payload_bytes }
{
    let e = read(words, 0);
    words::copy(&bytes[..e.size], out);
    words::remove(words, ENTRY_WORDS * n, 0, ENTRY_WORDS);
    words::remove(bytes, PAYLOAD_BYTES * n, 0, PAYLOAD_BYTES);
    e
}
