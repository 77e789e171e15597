// A session and its settings written as words.
#![tactic(auto, unfolding(crate::specs::Words::flag, crate::specs::Words::config_words, crate::specs::Words::last_words, crate::specs::Words::returned_words, crate::specs::Words::rtt_words, crate::specs::Told::opt_words, crate::specs::Words::words_of, crate::specs::Words::no_config, crate::specs::Words::no_session))]

ghost use Rattle.std.specs.Prelude.{◌≡◌};
ghost use Rattle.ffi_words.specs.Words as Words;

use super::answers::opt_words;
use super::{ConfigWords, SessionWords};
use model::{Config, Received, Session};
use rtp::ExtendedSequenceNumber;
use rtx_state::RtxRtt;
use std::num::{f32_to_bits_with_nan, f64_to_bits_with_nan};

// Stays: a part of `words_of`: `From` would be an impl whose `from_gives` says what the contract says here, for one call.
fn config_words(c: Config) -> ConfigWords
    ensures { result ≡ Words.config_words c }
{
    let settings = c.settings;
    let mode = settings.mode;
    let dynamic = mode.dynamic();
    let senders = c.senders;
    ConfigWords {
        delay: settings.delay,
        initial_nack_delay: settings.initial_nack_delay,
        default_nack_resend_delay: settings.default_nack_resend_delay,
        min_delay: dynamic.min,
        max_delay: dynamic.max,
        target_recovery: dynamic.target_recovery,
        max_entries: settings.max_entries,
        max_gaps: settings.max_gaps,
        clock_rate: settings.clock_rate,
        max_nack_attempts: settings.max_nack_attempts,
        mode: mode.number(),
        has_rtx: u32::from(senders.has_rtx),
        ssrc: senders.ssrc.0,
        rtx_ssrc: senders.rtx_ssrc.0,
        pt: senders.pt,
        rtx_pt: senders.rtx_pt,
    }
}

// Each a flag and what stands beside it.
// Stays: the words go into fields of the struct that the C interface names; a struct of them would be taken apart at once.
fn last_words(last: Option<Received>) -> (u64, u64, u64, u64)
    ensures { result ≡ Words.last_words last }
{
    last.map_or((0, 0, 0, 0), |r| {
        (1, r.instant, r.timestamp.0, r.number.0)
    })
}

fn returned_words(returned: Option<ExtendedSequenceNumber>) -> (u64, u64)
    ensures { result ≡ Words.returned_words returned }
{
    opt_words(returned.map(|n| n.0))
}

fn rtt_words(rtt: Option<RtxRtt>) -> (u64, u64, u64)
    ensures { result ≡ Words.rtt_words rtt }
{
    rtt.map_or((0, 0, 0), |e| (1, e.srtt, e.variation))
}

// Stays: the contracts of answers.rt and of `ffi` cite `words_of`, which `From` would give through `from_gives`, one step further.
pub fn words_of(s: Session) -> SessionWords
    ensures { result ≡ Words.words_of s }
{
    let q = s.queue;
    let (has_last, last_instant, last_timestamp, last_number) = last_words(q.last);
    let (has_returned, returned) = returned_words(q.returned);
    let (has_rtt, srtt, variation) = rtt_words(q.rtx.rtt);
    // One NaN's bits stand for all; no sound session holds one.
    let jitter_clock_rate_bits = f64_to_bits_with_nan(q.jitter.clock_rate);
    let jitter_bits = f64_to_bits_with_nan(q.jitter.jitter);
    let loss_bits = f32_to_bits_with_nan(q.loss.loss);
    SessionWords {
        config: config_words(q.config),
        clock: q.clock,
        has_last,
        last_instant,
        last_timestamp,
        last_number,
        has_returned,
        returned,
        has_rtt,
        srtt,
        variation,
        rtx_in_time: q.rtx.received_in_time,
        rtx_too_late: q.rtx.received_too_late,
        rtx_redundant: q.rtx.received_redundant,
        rtx_bytes: q.rtx.bytes_received,
        dropped: q.counters.dropped,
        received: q.counters.received,
        bytes: q.counters.bytes,
        lost: q.counters.lost,
        jitter_clock_rate_bits,
        jitter_bits,
        entries: s.entries,
        gaps: s.gaps,
        remembered: s.remembered,
        loss_bits,
    }
}

// What a refused opening gives in place of a session.
pub fn no_session() -> SessionWords
    ensures { result ≡ Words.no_session }
{
    SessionWords::default()
}
