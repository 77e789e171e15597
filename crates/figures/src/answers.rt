// What the functions answer that are not given a line's numbers as they are; none where they do not take them.
ghost use Rattle.std.specs.Prelude.{◌≤◌, IfSome};

use crate::line::Numbers;
use config::{LONGEST, NackTimings, RtpInboundQueueMode, Settings};
use durations::LARGEST;
use handout::SortedQueue;
use jitter::Jitter;
use packet_loss::PacketLoss;
use rtp::ExtendedRtpTimestamp;
use rtx_state::{RtxRtt, RtxState};
use stats::RtpInboundRtxStats;
use std::num::{f32_from_bits_with_nan, f64_from_bits_with_nan};

// A number's low half.
fn low(n: u64) -> u32 {
    (n % (1 << 32)) as u32
}

// Stays: the line has the sign apart.
pub(crate) fn signed(is_negative: bool, ns: u64) -> Option<f64> {
    if LARGEST < ns {
        return None;
    }
    let ns = ns as i64;
    let signed = if is_negative { -ns } else { ns };
    Some(durations::signed_seconds(signed))
}

pub(crate) fn packet_loss(bits: u64) -> PacketLoss {
    PacketLoss {
        loss: f32_from_bits_with_nan(low(bits)),
    }
}

// The jitter, and its duration where it has one.
pub(crate) fn jitter(numbers: Numbers) -> Option<(f64, Option<u64>)> {
    let [clock_rate, jitter, now, timestamp, last, last_timestamp] = numbers;
    let clock_rate = low(clock_rate);
    if clock_rate == 0 {
        return None;
    }
    let updated = Jitter {
        jitter: f64_from_bits_with_nan(jitter),
        ..Jitter::new(clock_rate)
    }
    .update(
        now,
        ExtendedRtpTimestamp(timestamp),
        last,
        ExtendedRtpTimestamp(last_timestamp),
    );
    let duration = updated.in_range(clock_rate).then(|| updated.get());
    Some((updated.jitter, duration))
}

pub(crate) fn resend_delay(rtt: RtxRtt) -> Option<u64> {
    rtt.in_range().then(|| rtt.nack_resend_delay())
}

pub(crate) fn timings(numbers: Numbers) -> Option<NackTimings> {
    let [
        initial_nack_delay,
        default_nack_resend_delay,
        has_estimate,
        srtt,
        variation,
        _,
    ] = numbers;
    let settings = Settings {
        mode: RtpInboundQueueMode::Passthrough,
        clock_rate: 8000,
        max_entries: 1024,
        max_gaps: 1024,
        delay: 0,
        initial_nack_delay,
        default_nack_resend_delay,
        max_nack_attempts: 3,
    };
    let rtt = (has_estimate == 1).then_some(RtxRtt { srtt, variation });
    rtx_state::opt_in_range(rtt).then(|| settings.nack_timings(rtt))
}

// After a repair in time, one that is redundant, one too late, and a sample of the round trip.
pub(crate) fn stats(numbers: Numbers) -> RtpInboundRtxStats {
    let [
        received_in_time,
        received_too_late,
        received_redundant,
        bytes_received,
        size,
        sample,
    ] = numbers;
    RtxState {
        rtt: None,
        received_in_time,
        received_too_late,
        received_redundant,
        bytes_received,
    }
    .record_in_time(size)
    .record_redundant()
    .record_too_late()
    .update_rtt(sample)
    .stats()
}

// A sorted queue with these numbers, where a session that check 16 passed can hold them.
fn sorted_queue(last: u64, timestamp: u64, clock_rate: u64, delay: u64) -> Option<SortedQueue>
    ensures { IfSome result (λ q. (1 ≤ q.clock_rate) × (q.clock_rate ≤ 1000000)) }
{
    let in_range = last <= LARGEST
        && timestamp <= LARGEST
        && (1..=1000000).contains(&clock_rate)
        && delay <= LONGEST;
    if !in_range {
        return None;
    }
    Some(SortedQueue {
        last_instant: last,
        last_timestamp: ExtendedRtpTimestamp(timestamp),
        clock_rate: clock_rate as u32,
        delay,
    })
}

pub(crate) fn limit(numbers: Numbers) -> Option<Option<ExtendedRtpTimestamp>> {
    let [last, timestamp, clock_rate, delay, now, _] = numbers;
    if LARGEST < now {
        return None;
    }
    let queue = sorted_queue(last, timestamp, clock_rate, delay)?;
    Some(queue.max_timestamp(now))
}

pub(crate) fn timeout(numbers: Numbers) -> Option<u64> {
    let [last, timestamp, earliest, clock_rate, delay, now] = numbers;
    if LARGEST < earliest || LARGEST < now {
        return None;
    }
    let queue = sorted_queue(last, timestamp, clock_rate, delay)?;
    Some(queue.timeout_receive(ExtendedRtpTimestamp(earliest), now))
}
