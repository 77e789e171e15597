// The session and its settings as they cross the boundary: plain numbers, no bool, no enum and no float. A flag is a word, 0 or 1. Where the
// flag of a record is 0, its values are not looked at, and are 0 in what comes back; settings beside `has_rtx` stay as they are. A float is its
// bits: a NaN has many, which a refused call gives back as they came.
#![tactic(auto, unfolding(crate::specs::Words::config_readable, crate::specs::Words::readable, crate::specs::Words::config_of, crate::specs::Words::flagged, crate::specs::Words::queue_of, crate::specs::Words::session_of, crate::specs::Words::read))]

ghost use Rattle.std.specs.Prelude.{◌≡◌};
ghost use Rattle.ffi_words.specs.Words as Words;
ghost use Rattle.ffi_words.specs.Words.{Kept};

use config::{RtpInboundStreamDynamicConfig, Senders, Settings};
use jitter::Jitter;
use model::{Config, Counters, Queue, Received, Session};
use packet_loss::PacketLoss;
use rtp::{ExtendedRtpTimestamp, ExtendedSequenceNumber, Ssrc};
use rtx_state::{RtxRtt, RtxState};
use std::num::{f32_from_bits_with_nan, f64_from_bits_with_nan};

pub mod answers;
pub mod figures;
pub mod writing;

// `mode` is 0 for Passthrough, 1 for SortedQueue with a Fixed delay, 2 with a Dynamic one. `min_delay`, `max_delay` and `target_recovery` are
// those of mode 2: in another they are not looked at, and are 0 in what comes back.
// Stays: of the C interface.
#[repr(C)]
#[derive(Clone, Copy, Default)]
pub struct ConfigWords {
    pub delay: u64,
    pub initial_nack_delay: u64,
    pub default_nack_resend_delay: u64,
    pub min_delay: u64,
    pub max_delay: u64,
    pub target_recovery: u64,
    pub max_entries: usize,
    pub max_gaps: usize,
    pub clock_rate: u32,
    pub max_nack_attempts: u32,
    pub mode: u32,
    pub has_rtx: u32,
    pub ssrc: u32,
    pub rtx_ssrc: u32,
    pub pt: u8,
    pub rtx_pt: u8,
}

// Stays: of the C interface.
#[repr(C)]
#[derive(Clone, Copy, Default)]
pub struct SessionWords {
    pub config: ConfigWords,
    pub clock: u64,
    pub has_last: u64,
    pub last_instant: u64,
    pub last_timestamp: u64,
    pub last_number: u64,
    pub has_returned: u64,
    pub returned: u64,
    pub has_rtt: u64,
    pub srtt: u64,
    pub variation: u64,
    pub rtx_in_time: u64,
    pub rtx_too_late: u64,
    pub rtx_redundant: u64,
    pub rtx_bytes: u64,
    pub dropped: u64,
    pub received: u64,
    pub bytes: u64,
    pub lost: u64,
    pub jitter_clock_rate_bits: u64,
    pub jitter_bits: u64,
    pub entries: usize,
    pub gaps: usize,
    pub remembered: usize,
    pub loss_bits: u32,
}

pub fn config_readable(c: ConfigWords) -> bool
    ensures { result ≡ Words.config_readable c }
{
    (c.mode <= 2) & (c.has_rtx <= 1)
}

// Each flag is 0 or 1, and the mode 0 to 2.
fn readable(s: SessionWords) -> bool
    ensures { result ≡ Words.readable s }
{
    config_readable(s.config) & (s.has_last <= 1) & (s.has_returned <= 1) & (s.has_rtt <= 1)
}

// Stays: the opening's contract cites `config_of`, which `From` would give through `from_gives`, one step further. settings_words builds
// the same settings, but to copy eleven numbers into its struct of C is no shorter than to build them.
pub fn config_of(c: ConfigWords) -> Config
    ensures { result ≡ Words.config_of c }
{
    let dynamic = RtpInboundStreamDynamicConfig {
        min: c.min_delay,
        max: c.max_delay,
        target_recovery: c.target_recovery,
    };
    let mode = config::mode_of(u64::from(c.mode), dynamic);
    let settings = Settings {
        mode,
        clock_rate: c.clock_rate,
        max_entries: c.max_entries,
        max_gaps: c.max_gaps,
        delay: c.delay,
        initial_nack_delay: c.initial_nack_delay,
        default_nack_resend_delay: c.default_nack_resend_delay,
        max_nack_attempts: c.max_nack_attempts,
    };
    let senders = Senders {
        pt: c.pt,
        ssrc: Ssrc(c.ssrc),
        has_rtx: c.has_rtx == 1,
        rtx_pt: c.rtx_pt,
        rtx_ssrc: Ssrc(c.rtx_ssrc),
    };
    Config { settings, senders }
}

// A value that may be missing, from its flag.
fn flagged<T: Drop>(flag: u64, value: T) -> Option<T>
    ensures { result ≡ Words.flagged flag value }
{
    (flag != 0).then_some(value)
}

// Stays: `session_of` has four parts of one type of words. `From` would be four impls of that type, each with a `from_gives` that says what
// the contract says here.
fn last_of(s: SessionWords) -> Option<Received>
    ensures { result ≡ (Words.queue_of s).last }
{
    let last = Received {
        instant: s.last_instant,
        timestamp: ExtendedRtpTimestamp(s.last_timestamp),
        number: ExtendedSequenceNumber(s.last_number),
    };
    flagged(s.has_last, last)
}

// Stays: as `last_of`.
fn rtx_of(s: SessionWords) -> RtxState
    ensures { result ≡ (Words.queue_of s).rtx }
{
    let estimate = RtxRtt {
        srtt: s.srtt,
        variation: s.variation,
    };
    RtxState {
        rtt: flagged(s.has_rtt, estimate),
        received_in_time: s.rtx_in_time,
        received_too_late: s.rtx_too_late,
        received_redundant: s.rtx_redundant,
        bytes_received: s.rtx_bytes,
    }
}

// Stays: as `last_of`.
fn jitter_of(s: SessionWords) -> Jitter
    ensures { result ≡ (Words.queue_of s).jitter }
{
    let clock_rate = f64_from_bits_with_nan(s.jitter_clock_rate_bits);
    let jitter = f64_from_bits_with_nan(s.jitter_bits);
    Jitter { clock_rate, jitter }
}

// Stays: as `last_of`.
fn queue_of(s: SessionWords) -> Queue
    ensures { result ≡ Words.queue_of s }
{
    let counters = Counters {
        dropped: s.dropped,
        received: s.received,
        bytes: s.bytes,
        lost: s.lost,
    };
    let loss = f32_from_bits_with_nan(s.loss_bits);
    Queue {
        config: config_of(s.config),
        clock: s.clock,
        last: last_of(s),
        returned: flagged(s.has_returned, ExtendedSequenceNumber(s.returned)),
        rtx: rtx_of(s),
        counters,
        jitter: jitter_of(s),
        loss: PacketLoss { loss },
    }
}

// Stays: contracts of `read` and of `ffi` cite `session_of`, which `From` would give through `from_gives`, one step further. No words are
// refused here, so it is no `TryFrom`.
pub fn session_of(s: SessionWords) -> Session
    ensures { result ≡ Words.session_of s }
{
    Session {
        queue: queue_of(s),
        entries: s.entries,
        gaps: s.gaps,
        remembered: s.remembered,
    }
}

// The session that the words stand for, where they can be read.
pub fn read(s: SessionWords) -> Option<Session>
    ensures { result ≡ Words.read s }
{
    readable(s).then(|| session_of(s))
}

// What a call writes, the next one reads as it was.
#[tactic(auto, using(crate::proofs::Kept::words_kept))]
pub fn words_are_kept()
    ensures { Kept }
{}
