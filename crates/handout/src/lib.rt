// Hand-out of a sorted queue (000): up to which timestamp packets are handed out, and when the next is due.
#![tactic(auto)]

ghost use Rattle.std.specs.Prelude.{◌≡◌, ◌≤◌, ◌<◌, ◌^◌, pos, ◌+ℤ◌};
ghost use Rattle.std.specs.Int.Signed.{mag};
ghost use Rattle.rtp.specs.Opt.{timestamp_of};
ghost use Rattle.std.specs.Float.Ieee.{to_signed};
ghost use Rattle.durations.specs.Seconds.{largest, from_secs_f64};
ghost use Rattle.config.specs.Valid.{longest};
ghost use Rattle.handout.specs.Limit.{delta_in_rtp_timesteps, as_timestamp, map_instant_to_rtp_timestamp, max_timestamp};
ghost use Rattle.handout.specs.Bits.{Below52, exponent_of, whole_of, with_sign};
ghost use Rattle.handout.specs.Timeout.{behind, remaining_of, timeout_receive};

use rtp::ExtendedRtpTimestamp;

// Nanoseconds, 2^53: a front packet that was sent longer than this before the last one is due (01, "Hand-out").
const LONGEST_DELTA: u64 = 9007199254740992;

// Of an f64's bits: the weight of the sign, and that of the digit before the 52 that are stored.
const SIGN: u64 = 9223372036854775808;

const LEADING_DIGIT: u64 = 4503599627370496;

// A sorted queue as hand-out sees it: the packet with the highest number, the clock's ticks in a second, and how long a packet is kept.
#[derive(Clone, Copy)]
pub struct SortedQueue {
    pub last_instant: u64,
    pub last_timestamp: ExtendedRtpTimestamp,
    pub clock_rate: u32,
    pub delay: u64,
    ghost instant_in_range: { last_instant ≤ largest },
    ghost timestamp_in_range: { last_timestamp.0 ≤ largest },
    ghost delay_in_range: { delay ≤ longest },
}

impl SortedQueue {
    // The limit: packets of at most this timestamp are handed out at `now`; where there is none, nothing is.
    // Stays: `now` is of one call and any u64 until the clock's check; a type with its bound would be built for each call.
    #[tactic(auto, using(crate::proofs::Signed::passed), unfolding(crate::specs::Limit::max_timestamp))]
    pub fn max_timestamp(self, now: u64) -> Option<ExtendedRtpTimestamp>
        requires { (self.clock_rate ≤ 1000000) × (now ≤ largest) }
        ensures { timestamp_of result ≡ max_timestamp self.last_instant self.last_timestamp.0 self.clock_rate self.delay now }
    {
        let pop_earliest = (now as i64) - (self.delay as i64);
        self.map_instant_to_rtp_timestamp(pop_earliest)
    }

    // The timestamp that stands at `instant`, which may be below 0; none where it would be negative.
    #[tactic(auto, using(crate::proofs::Signed::since), unfolding(crate::specs::Limit::map_instant_to_rtp_timestamp))]
    fn map_instant_to_rtp_timestamp(self, instant: i64) -> Option<ExtendedRtpTimestamp>
        requires { (self.clock_rate ≤ 1000000) × (mag instant < 2 ^ 53) }
        ensures { timestamp_of result ≡ map_instant_to_rtp_timestamp self.last_instant self.last_timestamp.0 self.clock_rate instant }
    {
        let delta = instant - (self.last_instant as i64);
        self.add_timesteps(delta_in_rtp_timesteps(delta, self.clock_rate))
    }

    // The last timestamp and the steps together; none below 0.
    #[tactic(auto, using(crate::proofs::Signed::added), unfolding(rtp::specs::Opt::timestamp_of))]
    fn add_timesteps(self, steps: i64) -> Option<ExtendedRtpTimestamp>
        requires { mag steps < 2 ^ 62 }
        ensures { timestamp_of result ≡ as_timestamp (pos self.last_timestamp.0 +ℤ steps) }
    {
        let sum = (self.last_timestamp.0 as i64) + steps;
        if sum < 0 {
            return None;
        }
        let limit = sum as u64;
        Some(ExtendedRtpTimestamp(limit))
    }

    // Nanoseconds until the front packet, whose timestamp 000 takes for the earliest, is due.
    // Stays: `now` is of one call, and the front packet's timestamp from lent words; a type with their bound would be built each time.
    #[tactic(auto, using(durations::proofs::Bound::nanos_are, durations::proofs::Bound::refused_past, crate::proofs::Behind::behind_nonneg), unfolding(crate::specs::Timeout::timeout_receive, crate::specs::Timeout::remaining_of))]
    pub fn timeout_receive(self, earliest_timestamp: ExtendedRtpTimestamp, now: u64) -> u64
        requires { (earliest_timestamp.0 ≤ largest) × (1 ≤ self.clock_rate) × (now ≤ largest) }
        ensures { result ≡ timeout_receive self.last_instant self.last_timestamp.0 earliest_timestamp.0 self.clock_rate self.delay now }
    {
        self.delta(earliest_timestamp)
            .map_or(0, |ns| self.remaining(ns, now))
    }

    // How long before the last packet the front one was sent.
    // Stays: the front packet's timestamp comes from lent words, whose type cannot hold the bound.
    #[tactic(auto, using(float_laws::proofs::Upto::counted), unfolding(crate::specs::Timeout::behind))]
    fn delta(self, earliest_timestamp: ExtendedRtpTimestamp) -> Option<u64>
        requires { earliest_timestamp.0 ≤ largest }
        ensures { result ≡ from_secs_f64 (behind self.last_timestamp.0 earliest_timestamp.0 self.clock_rate) }
    {
        let delta = (self.last_timestamp.0 as f64) - (earliest_timestamp.0 as f64);
        // Stays: `max` of the library leaves open which of two zeros it answers.
        let max = if delta > 0.0 { delta } else { 0.0 };
        durations::from_secs_f64(max / (self.clock_rate as f64))
    }

    // What is left at `now` until delta before the last instant, plus the delay.
    // Stays: `now` is of one call, as at `max_timestamp`.
    #[tactic(auto, unfolding(crate::specs::Timeout::remaining_of))]
    fn remaining(self, delta: u64, now: u64) -> u64
        requires { now ≤ largest }
        ensures { result ≡ remaining_of self.last_instant delta self.delay now }
    {
        if delta > LONGEST_DELTA {
            return 0;
        }
        let due = self.last_instant + self.delay;
        let passed = delta + now;
        due.saturating_sub(passed)
    }
}

// A signed number of nanoseconds in the clock's units, cut toward zero.
#[tactic(auto, using(crate::proofs::Signed::steps), unfolding(crate::specs::Limit::delta_in_rtp_timesteps))]
fn delta_in_rtp_timesteps(delta: i64, clock_rate: u32) -> i64
    requires { (mag delta < 2 ^ 54) × (clock_rate ≤ 1000000) }
    ensures { (result ≡ delta_in_rtp_timesteps delta clock_rate) × (mag result < 2 ^ 62) }
{
    truncated(durations::signed_seconds(delta) * (clock_rate as f64))
}

// A float below 2^52 in size, cut toward zero: sign and whole part come from its bits.
// Stays: `saturating_f64_to_i64` of the library is one line and was proved here too, but the law asks for "negative tick counts from the
// float's bits".
#[tactic(auto, using(crate::proofs::Cut::cut))]
fn truncated(x: f64) -> i64
    requires { Below52 x }
    ensures { result ≡ to_signed 63 x }
{
    let bits = f64::to_bits(x);
    with_sign(bits / SIGN == 1, whole_part(bits))
}

// The whole part of the size: digits / 2^(1075 - exponent). Below an exponent of 1023 the size is below 1.
#[tactic(auto, using(crate::proofs::Cut::unit), unfolding(crate::specs::Bits::whole_of))]
fn whole_part(bits: u64) -> u64
    requires { exponent_of bits ≤ 1074 }
    ensures { result ≡ whole_of bits }
{
    let exponent = bits / LEADING_DIGIT % 2048;
    if exponent < 1023 {
        return 0;
    }
    let digits = bits % LEADING_DIGIT + LEADING_DIGIT;
    digits / (1u64 << (1075 - exponent))
}

#[tactic(auto, using(crate::proofs::Signed::signed), unfolding(crate::specs::Bits::with_sign))]
fn with_sign(negative: bool, whole: u64) -> i64
    requires { whole < 2 ^ 53 }
    ensures { result ≡ with_sign negative whole }
{
    let size = whole as i64;
    if negative { 0 - size } else { size }
}
