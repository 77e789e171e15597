// What the calls that only read answer; `refusal` and what is not told are as in answers.rt.
#![tactic(auto, unfolding(crate::specs::Told::timeout_told, crate::specs::Told::stats_told, crate::specs::Told::highest_told, crate::specs::Told::numbers_told, crate::specs::Told::no_figures, crate::specs::Told::refusal_in, crate::specs::Told::number_in, rtp::specs::Opt::number_of, crate::specs::Told::stats_in, crate::specs::Told::opt_words, crate::specs::Told::stats_words))]

ghost use Rattle.std.specs.Prelude.{◌≡◌};
ghost use Rattle.model.specs.Calls as Calls;
ghost use Rattle.refusals.specs.Refusals.{number, numbered};
ghost use Rattle.model.specs.Contract.{said};
ghost use Rattle.queue.specs.Answers.{highest_answer};
ghost use Rattle.ffi_words.specs.Told.{stats_words, timeout_told, stats_told, highest_told, numbers_told, no_figures};

use super::answers;
use refusals::Refusal;
use rtp::ExtendedSequenceNumber;
use stats::RtpInboundRtxStats;

// Nanoseconds.
// Stays: of the C interface.
#[repr(C)]
#[derive(Clone, Copy, Default)]
pub struct Timeout {
    pub refusal: u64,
    pub has_timeout: u64,
    pub timeout: u64,
}

// Stays: of the C interface.
#[repr(C)]
#[derive(Clone, Copy, Default)]
pub struct RtxStats {
    pub refusal: u64,
    pub has_stats: u64,
    pub packets_received_in_time: u64,
    pub packets_received_too_late: u64,
    pub packets_received_redundant: u64,
    pub bytes_received: u64,
    pub has_rtt: u64,
    pub rtt: u64,
}

// Stays: of the C interface.
#[repr(C)]
#[derive(Clone, Copy, Default)]
pub struct Highest {
    pub refusal: u64,
    pub has_number: u64,
    pub number: u64,
}

// The inbound stream: 000's counters as they stand, the jitter in nanoseconds.
// Stays: of the C interface.
#[repr(C)]
#[derive(Clone, Copy, Default)]
pub struct Figures {
    pub refusal: u64,
    pub packets_received: u64,
    pub packets_dropped: u64,
    pub packets_lost: u64,
    pub bytes_received: u64,
    pub jitter: u64,
    pub loss: f32,
}

// How many numbers the entries of a generic NACK name.
// Stays: of the C interface.
#[repr(C)]
#[derive(Clone, Copy, Default)]
pub struct ReadNumbers {
    pub refusal: u64,
    pub numbers: usize,
}

// Elements of the lent slices.
// Stays: of the C interface.
#[repr(C)]
#[derive(Clone, Copy, Default)]
pub struct Lengths {
    pub refusal: u64,
    pub entries: usize,
    pub payloads: usize,
    pub gaps: usize,
    pub remembered: usize,
}

// Stays: each fills the struct of its exported call.
pub fn timeout_refused(refusal: Refusal) -> Timeout
    ensures { result ≡ timeout_told (Calls.refused (number refusal)) }
{
    Timeout {
        refusal: refusal.number(),
        ..Timeout::default()
    }
}

pub fn timeout_told(answer: Result<Option<u64>, Refusal>) -> Timeout
    ensures { result ≡ timeout_told (said Calls.timeout answer) }
{
    match answer {
        Ok(t) => {
            let (has_timeout, timeout) = answers::opt_words(t);
            Timeout {
                refusal: 0,
                has_timeout,
                timeout,
            }
        }
        Err(e) => timeout_refused(e),
    }
}

// Stays: each fills the struct of its exported call.
pub fn stats_refused(refusal: Refusal) -> RtxStats
    ensures { result ≡ stats_told (Calls.refused (number refusal)) }
{
    RtxStats {
        refusal: refusal.number(),
        ..RtxStats::default()
    }
}

fn stats_words(stats: Option<RtpInboundRtxStats>) -> RtxStats
    ensures { result ≡ stats_words 0 stats }
{
    match stats {
        None => RtxStats::default(),
        Some(f) => {
            let (has_rtt, rtt) = answers::opt_words(f.rtt);
            RtxStats {
                refusal: 0,
                has_stats: 1,
                packets_received_in_time: f.packets_received_in_time,
                packets_received_too_late: f.packets_received_too_late,
                packets_received_redundant: f.packets_received_redundant,
                bytes_received: f.bytes_received,
                has_rtt,
                rtt,
            }
        }
    }
}

// Stays: each fills the struct of its exported call.
pub fn stats_told(answer: Result<Option<RtpInboundRtxStats>, Refusal>) -> RtxStats
    ensures { result ≡ stats_told (said Calls.stats answer) }
{
    match answer {
        Ok(stats) => stats_words(stats),
        Err(e) => stats_refused(e),
    }
}

pub fn highest_refused(refusal: Refusal) -> Highest
    ensures { result ≡ highest_told (Calls.refused (number refusal)) }
{
    Highest {
        refusal: refusal.number(),
        ..Highest::default()
    }
}

fn highest_words(highest: Option<ExtendedSequenceNumber>) -> Highest
    ensures { result ≡ highest_told (highest_answer highest) }
{
    match highest {
        None => Highest::default(),
        Some(n) => Highest {
            refusal: 0,
            has_number: 1,
            number: n.0,
        },
    }
}

pub fn highest_told(answer: Result<Option<ExtendedSequenceNumber>, Refusal>) -> Highest
    ensures { result ≡ highest_told (said highest_answer answer) }
{
    match answer {
        Ok(highest) => highest_words(highest),
        Err(e) => highest_refused(e),
    }
}

pub fn figures_refused(refusal: Refusal) -> Figures
    ensures { result ≡ no_figures (number refusal) }
{
    Figures {
        refusal: refusal.number(),
        ..Figures::default()
    }
}

pub fn numbers_told(answer: Result<usize, Refusal>) -> ReadNumbers
    ensures { result ≡ numbers_told (numbered answer) }
{
    match answer {
        Ok(numbers) => ReadNumbers {
            refusal: 0,
            numbers,
        },
        Err(e) => ReadNumbers {
            refusal: e.number(),
            numbers: 0,
        },
    }
}
