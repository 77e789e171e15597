// The delay of a dynamic queue (003, `target_delay`; 02, point 7), in nanoseconds.
ghost use Rattle.std.specs.Prelude.{◌≡◌, ◌≤◌, T};
ghost use Rattle.packet_loss.specs.Loss.{loss_in_range};
ghost use Rattle.rtx_state.specs.RoundTrip.{rtt_in_range, opt_rtt_in_range};
ghost use Rattle.config.specs.Delay.{jitter_delay, nack_delay, dynamic_delay};

use super::RtpInboundStreamDynamicConfig;
use jitter::Jitter;
use packet_loss::PacketLoss;
use rtx_state::RtxRtt;

// What the jitter asks for.
#[tactic(auto, unfolding(crate::specs::Delay::jitter_delay))]
fn jitter_delay(jitter: Jitter) -> u64
    ensures { result ≡ jitter_delay jitter }
{
    let seconds = durations::as_secs_f64(jitter.get());
    durations::nanos_from_secs(seconds * 2.5)
}

// What repairs ask for: twice as long as the attempts take.
// Stays: a session's words may hold any float as its loss until check 16 (the C interface), so that its type cannot hold the range.
#[tactic(auto, using(crate::proofs::Bounds::repairs_lt, nack_attempts::proofs::Powers::loss_most), unfolding(packet_loss::specs::Loss::loss_in_range, crate::specs::Delay::nack_delay))]
fn nack_delay(target: u64, most: u32, loss: PacketLoss, e: RtxRtt) -> u64
    requires target_and_most_in_range { (target ≤ 9999) × (1 ≤ most) × (most ≤ 4) }
    requires loss_and_estimate_in_range { T (loss_in_range loss) × T (rtt_in_range e) }
    ensures { result ≡ nack_delay target most loss e }
{
    let k = nack_attempts::loss_of(loss.get());
    let n = nack_attempts::attempts_of(k, target, u64::from(most));
    e.nack_resend_delay() * n * 2
}

// Stays: check 16 bounds the loss, and its type cannot, as at `nack_delay`.
#[tactic(auto, using(crate::proofs::Bounds::clamp_is), unfolding(rtx_state::specs::RoundTrip::opt_rtt_in_range, crate::specs::Delay::dynamic_delay, crate::specs::Delay::with_repairs))]
pub(crate) fn delay(
    d: RtpInboundStreamDynamicConfig,
    most: u32,
    jitter: Jitter,
    loss: PacketLoss,
    rtt: Option<RtxRtt>,
) -> u64
    requires min_within_max { d.min ≤ d.max }
    requires target_and_most_in_range { (d.target_recovery ≤ 9999) × (1 ≤ most) × (most ≤ 4) }
    requires loss_and_estimate_in_range { T (loss_in_range loss) × T (opt_rtt_in_range rtt) }
    ensures { result ≡ dynamic_delay d most jitter loss rtt }
{
    let spread = jitter_delay(jitter);
    match rtt {
        None => spread.clamp(d.min, d.max),
        Some(e) => {
            let repairs = nack_delay(d.target_recovery, most, loss, e);
            spread.max(repairs).clamp(d.min, d.max)
        }
    }
}
