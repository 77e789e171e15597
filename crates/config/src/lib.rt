// Settings (003) of a session, flat: the opening checks every field, whether the mode uses it or not (01, refusal 1).
#![tactic(auto)]

ghost use Rattle.std.specs.Prelude.{◌≡◌, T};
ghost use Rattle.packet_loss.specs.Loss.{loss_in_range};
ghost use Rattle.rtx_state.specs.RoundTrip.{opt_rtt_in_range};
ghost use Rattle.config.specs.Timings.{nack_timings};
ghost use Rattle.config.specs.Delay.{target_delay};
ghost use Rattle.config.specs.Claims.{DelayLaws, NeverRefused};
ghost use Rattle.config.specs.Mode.{mode_of, mode_number, dynamic_of};
ghost use Rattle.config.specs.Valid.{depth_valid, gaps_valid, most_attempts, mode_valid, dynamic_valid, settings_valid, senders_valid};

use jitter::Jitter;
use packet_loss::PacketLoss;
use rtp::Ssrc;
use rtx_state::RtxRtt;

mod dynamic;

// The ranges of refusal 1 (01, "Where a call is turned back").

// Ticks of the RTP clock in a second.
const MAX_CLOCK_RATE: u32 = 1000000;

// The largest D: entries.
pub const MAX_DEPTH: usize = 1024;

// The least and the largest G: gaps.
const MIN_GAPS: usize = 999;

pub const MAX_GAPS: usize = 4096;

// The longest duration of a setting, a minute in nanoseconds.
pub const LONGEST: u64 = 60000000000;

const MAX_ATTEMPTS: u32 = 255;

// Those of a dynamic delay (02, point 7).
const MAX_DYNAMIC_ATTEMPTS: u32 = 4;

// Ten thousandths.
const MAX_TARGET_RECOVERY: u64 = 9999;

// Seven bits (RFC 3550, 5.1).
const MAX_PAYLOAD_TYPE: u8 = 127;

#[derive(Clone, Copy)]
pub enum RtpInboundQueueMode {
    // Packets are handed out at once.
    Passthrough,
    // Packets are put in order and kept for a while.
    SortedQueue(RtpInboundStreamSortedQueueMode),
}

#[derive(Clone, Copy)]
pub enum RtpInboundStreamSortedQueueMode {
    // For the delay of the settings.
    Fixed,
    // For as long as jitter, loss and round trip ask for.
    Dynamic(RtpInboundStreamDynamicConfig),
}

// Durations are nanoseconds.
#[derive(Clone, Copy, Default)]
pub struct RtpInboundStreamDynamicConfig {
    pub min: u64,
    pub max: u64,
    // 02's t: how many of ten thousand losses the attempts should repair.
    pub target_recovery: u64,
}

// Durations are nanoseconds.
#[derive(Clone, Copy)]
pub struct Settings {
    pub mode: RtpInboundQueueMode,
    pub clock_rate: u32,
    // 01's D.
    pub max_entries: usize,
    // 01's G.
    pub max_gaps: usize,
    // How long a sorted queue keeps a packet where its delay is fixed.
    pub delay: u64,
    // How long to wait before a gap is NACKed.
    pub initial_nack_delay: u64,
    // How long to wait before it is NACKed again, as long as no round trip was measured.
    pub default_nack_resend_delay: u64,
    pub max_nack_attempts: u32,
}

// Whose packets the session takes.
// Stays: the law checks `rtx_pt` also in a session without RTX, so it is there either way.
#[derive(Clone, Copy)]
pub struct Senders {
    pub pt: u8,
    pub ssrc: Ssrc,
    pub has_rtx: bool,
    pub rtx_pt: u8,
    pub rtx_ssrc: Ssrc,
}

#[derive(Clone, Copy)]
pub struct NackTimings {
    pub initial: u64,
    pub resend: u64,
}

// The mode that a trace or a word at the boundary names by 0, 1 or 2, with what mode 2 alone has; the reader of either refuses another number.
// Stays: the definition is total and four readers cite it; each refuses another number by a test of its own (a line by its version).
#[tactic(auto, unfolding(crate::specs::Mode::mode_of))]
pub fn mode_of(number: u64, dynamic: RtpInboundStreamDynamicConfig) -> RtpInboundQueueMode
    ensures { result ≡ mode_of number dynamic }
{
    match number {
        0 => RtpInboundQueueMode::Passthrough,
        1 => RtpInboundQueueMode::SortedQueue(RtpInboundStreamSortedQueueMode::Fixed),
        _ => RtpInboundQueueMode::SortedQueue(RtpInboundStreamSortedQueueMode::Dynamic(dynamic)),
    }
}

// "D outside 1 to 1,024" is refused.
pub fn depth_valid(depth: usize) -> bool
    ensures { result ≡ depth_valid depth }
{
    (1..=MAX_DEPTH).contains(&depth)
}

// "G outside 999 to 4,096" is refused.
pub fn gaps_valid(gaps: usize) -> bool
    ensures { result ≡ gaps_valid gaps }
{
    (MIN_GAPS..=MAX_GAPS).contains(&gaps)
}

impl RtpInboundStreamDynamicConfig {
    // A min within max is within the longest duration too.
    #[tactic(auto, unfolding(crate::specs::Valid::dynamic_valid))]
    fn is_valid(self) -> bool
        ensures { result ≡ dynamic_valid self }
    {
        (self.min <= self.max)
            & (self.max <= LONGEST)
            & (self.target_recovery <= MAX_TARGET_RECOVERY)
    }
}

impl RtpInboundQueueMode {
    // What `mode_of` reads.
    // Stays: two enums within one another, of which the second has fields; an `as` takes neither.
    #[tactic(auto, unfolding(crate::specs::Mode::mode_number))]
    pub fn number(self) -> u32
        ensures { result ≡ mode_number self }
    {
        match self {
            RtpInboundQueueMode::Passthrough => 0,
            RtpInboundQueueMode::SortedQueue(RtpInboundStreamSortedQueueMode::Fixed) => 1,
            RtpInboundQueueMode::SortedQueue(RtpInboundStreamSortedQueueMode::Dynamic(_)) => 2,
        }
    }

    // What a dynamic delay has, and zeros in another mode.
    #[tactic(auto, unfolding(crate::specs::Mode::dynamic_of, crate::specs::Mode::no_dynamic))]
    pub fn dynamic(self) -> RtpInboundStreamDynamicConfig
        ensures { result ≡ dynamic_of self }
    {
        match self {
            RtpInboundQueueMode::SortedQueue(RtpInboundStreamSortedQueueMode::Dynamic(d)) => d,
            _ => RtpInboundStreamDynamicConfig::default(),
        }
    }

    #[tactic(auto, unfolding(crate::specs::Valid::most_attempts))]
    fn max_attempts(self) -> u32
        ensures { result ≡ most_attempts self }
    {
        match self {
            RtpInboundQueueMode::SortedQueue(RtpInboundStreamSortedQueueMode::Dynamic(_)) =>
                MAX_DYNAMIC_ATTEMPTS,
            _ => MAX_ATTEMPTS,
        }
    }

    #[tactic(auto, unfolding(crate::specs::Valid::mode_valid))]
    fn is_valid(self) -> bool
        ensures { result ≡ mode_valid self }
    {
        match self {
            RtpInboundQueueMode::SortedQueue(RtpInboundStreamSortedQueueMode::Dynamic(d)) =>
                d.is_valid(),
            _ => true,
        }
    }
}

impl Settings {
    #[tactic(auto, unfolding(crate::specs::Timings::nack_timings, crate::specs::Timings::resend_delay_of))]
    pub fn nack_timings(self, rtt: Option<RtxRtt>) -> NackTimings
        ensures { result ≡ nack_timings self rtt }
    {
        NackTimings {
            initial: self.initial_nack_delay,
            resend: rtt.map_or(self.default_nack_resend_delay, |e| e.nack_resend_delay()),
        }
    }

    // How long a packet is kept.
    // Stays: a session's words may hold any settings, loss and round trip until check 16 (the C interface); no type holds the range.
    #[tactic(auto, using(crate::proofs::Facts::usable, crate::proofs::Bounds::own, crate::proofs::Bounds::few), unfolding(crate::specs::Delay::delay_in))]
    pub fn target_delay(self, jitter: Jitter, loss: PacketLoss, rtt: Option<RtxRtt>) -> u64
        requires { T (settings_valid self) × T (loss_in_range loss) × T (opt_rtt_in_range rtt) }
        ensures { result ≡ target_delay self jitter loss rtt }
    {
        match self.mode {
            RtpInboundQueueMode::Passthrough => 0,
            RtpInboundQueueMode::SortedQueue(RtpInboundStreamSortedQueueMode::Fixed) => self.delay,
            RtpInboundQueueMode::SortedQueue(RtpInboundStreamSortedQueueMode::Dynamic(d)) => {
                dynamic::delay(d, self.max_nack_attempts, jitter, loss, rtt)
            }
        }
    }

    // Refusal 1's test.
    #[tactic(auto, unfolding(crate::specs::Valid::settings_valid))]
    pub fn is_valid(self) -> bool
        ensures { result ≡ settings_valid self }
    {
        let mode = self.mode;
        // Stays: with `contains` of a range here too the proof of the conjunction did not close.
        ((1 <= self.clock_rate) & (self.clock_rate <= MAX_CLOCK_RATE))
            & depth_valid(self.max_entries)
            & gaps_valid(self.max_gaps)
            & (self.delay <= LONGEST)
            & (self.initial_nack_delay <= LONGEST)
            & (self.default_nack_resend_delay <= LONGEST)
            & ((1 <= self.max_nack_attempts) & (self.max_nack_attempts <= mode.max_attempts()))
            & mode.is_valid()
    }
}

impl Senders {
    // Refusal 1's test.
    #[tactic(auto, unfolding(crate::specs::Valid::senders_valid))]
    pub fn is_valid(self) -> bool
        ensures { result ≡ senders_valid self }
    {
        (self.pt <= MAX_PAYLOAD_TYPE) & (self.rtx_pt <= MAX_PAYLOAD_TYPE)
    }
}

// ---- theorems

#[tactic(auto, using(crate::proofs::Bounds::within, crate::proofs::Bounds::grows, crate::proofs::Bounds::jitter_alone))]
fn delay_laws()
    ensures { DelayLaws }
{}

#[tactic(auto, using(crate::proofs::Spread::spread_is))]
fn never_refused()
    ensures { NeverRefused }
{}
