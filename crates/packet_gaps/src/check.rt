// 01's check 16 on the gaps, which every call makes first, and the zeros that an accepted call leaves behind the last gap.
ghost use Rattle.std.specs.Prelude.{◌≡◌, ◌*◌, ◌≤◌, length};
ghost use Rattle.words.specs.Blocks.{laid};
ghost use Rattle.rtp.specs.Opt.{number_of};
ghost use Rattle.model.specs.Push.{passed_of};
ghost use Rattle.model.specs.Valid.{bounds_of, under, not_passed, gap_sound, gaps_sound};
ghost use Rattle.model.specs.Storage.{gap_words, gap_words_of, gaps_of};
ghost use Rattle.packet_gaps.specs.Gaps.{gap, bounds};

use super::{GAP_WORDS, Gap};
use config::RtpInboundQueueMode;
use model::Queue;
use rtp::ExtendedSequenceNumber;

// What check 16 holds the numbers and instants of the lists against.
#[derive(Clone, Copy)]
pub struct Bounds {
    // In sorted mode the last returned: entries and gaps are above it.
    pub passed: Option<ExtendedSequenceNumber>,
    // The highest number so far.
    pub highest: Option<ExtendedSequenceNumber>,
    pub clock: u64,
}

#[tactic(auto, unfolding(model::specs::Push::passed_of, rtp::specs::Opt::number_of))]
fn passed_of(
    mode: RtpInboundQueueMode,
    returned: Option<ExtendedSequenceNumber>,
) -> Option<ExtendedSequenceNumber>
    ensures { number_of result ≡ passed_of mode (number_of returned) }
{
    match mode {
        RtpInboundQueueMode::Passthrough => None,
        RtpInboundQueueMode::SortedQueue(_) => returned,
    }
}

// Stays: contracts of the crates above rest on `bounds_of`, which `From` would give through `from_gives`, one step further.
#[tactic(auto, unfolding(model::specs::Valid::bounds_of, model::specs::Records::highest_of, rtp::specs::Opt::number_of))]
pub fn bounds_of(q: Queue) -> Bounds
    ensures { bounds result ≡ bounds_of q }
{
    Bounds {
        passed: passed_of(q.config.settings.mode, q.returned),
        highest: q.last.map(|r| r.number),
        clock: q.clock,
    }
}

// Whether x is above `low`, where there is one.
#[tactic(auto, using(rtp::proofs::Order::less), unfolding(model::specs::Valid::not_passed, rtp::specs::Opt::number_of, rtp::specs::Opt::at_most))]
pub fn above(low: Option<ExtendedSequenceNumber>, x: ExtendedSequenceNumber) -> bool
    ensures { result ≡ not_passed (number_of low) x.0 }
{
    low.is_none_or(|m| m < x)
}

#[tactic(auto, using(rtp::proofs::Order::less), unfolding(model::specs::Valid::under, rtp::specs::Opt::number_of))]
fn below_highest(highest: Option<ExtendedSequenceNumber>, x: ExtendedSequenceNumber) -> bool
    ensures { result ≡ under (number_of highest) x.0 }
{
    highest.is_some_and(|h| x < h)
}

#[tactic(auto, unfolding(model::specs::Valid::gap_sound))]
fn gap_sound(b: Bounds, g: Gap) -> bool
    ensures { result ≡ gap_sound (bounds b) (gap g) }
{
    below_highest(b.highest, g.number)
        & (above(b.passed, g.number) & ((g.detected <= b.clock) & (g.nacked_at <= b.clock)))
}

// Whether the numbers of the n gaps ascend, and each gap keeps to the bounds.
// Stays: the contract is of `gaps_of s n`; of a part `&s[..4 * n]` each caller would have to show that its records are those of s.
#[tactic(auto, using(crate::proofs::Scan::sounding), unfolding(crate::proofs::Turns::left))]
pub fn are_sound(s: &[u64], n: usize, b: Bounds) -> bool
    requires { gap_words * n ≤ length s.now }
    ensures { result ≡ gaps_sound (bounds b) (gaps_of s.now n) }
{
    // Stays: as in `nacks::any_full`; and each turn looks at the next gap's number too.
    for i in 0..n {
        let g = super::read(s, i);
        if !gap_sound(b, g) {
            return false;
        }
        let next = i + 1;
        if next < n && s[GAP_WORDS * next] <= g.number.0 {
            return false;
        }
    }
    true
}

// Zeros after the n gaps.
// Stays: the contract is of all of s, zeros behind the records too, so the n records alone would not do; no struct: see lib.rt's head.
#[tactic(auto, using(crate::proofs::Laws::moved))]
pub fn tidy(s: &mut [u64], n: usize)
    requires { gap_words * n ≤ length s.old }
    ensures { s.new ≡ laid gap_words_of (length s.old) (gaps_of s.old n) }
{
    words::tidy(s, GAP_WORDS * n);
}
