// What `poll` and `poll_nack` make of the records that go by value (01, "Hand-out" and "Gap").
#![tactic(auto, unfolding(model::specs::Poll::ready_in, rtp::specs::Opt::at_most, rtp::specs::Opt::timestamp_of, model::specs::Poll::delay_of))]

ghost use Rattle.refusals.specs.Refusals.{refusal_of};
ghost use Rattle.std.specs.Prelude.{◌≡◌, [], ◌∷◌, ◌+◌, ◌≤◌, ◌<◌, ◌^◌, T};
ghost use Rattle.durations.specs.Seconds.{largest};
ghost use Rattle.rtx_state.specs.RoundTrip.{opt_rtt_in_range};
ghost use Rattle.packet_loss.specs.Loss.{loss_in_range};
ghost use Rattle.config.specs.Valid.{longest, settings_valid};
ghost use Rattle.model.specs.Records as Records;
ghost use Rattle.model.specs.Poll as Poll;
ghost use Rattle.model.specs.Valid as Valid;
ghost use Rattle.model.specs.Table as Table;

use config::RtpInboundQueueMode;
use model::Queue;
use refusals::Refusal;
use rtp::{ExtendedRtpTimestamp, ExtendedSequenceNumber};

// 14, for the numbers lost.
pub fn check_lost(q: Queue, lost: u64) -> Result<(), Refusal>
    ensures { refusal_of result ≡ Table.count_refusal ((q.counters.lost + lost) ∷ []) }
{
    super::push::check_sum(q.counters.lost, lost)
}

// The clock, and the numbers that are given up before anything else is done.
// Stays: the queue comes back with the instant in it, so a type of both would be made at each call and taken apart here; and the bound is
// of a queue and one call's number, and a queue that C hands over need not meet it.
pub fn drained(q: Queue, now: u64, lost: u64) -> Queue
    requires { q.counters.lost + lost < 2 ^ 64 }
    ensures { result ≡ Poll.lose lost (Records.with_clock q now) }
{
    super::lose(Queue { clock: now, ..q }, lost)
}

// The entry of the number goes out, and the gaps below it are lost.
// Stays: a bound of a queue and one call's number, which check 16 gives; a queue that C hands over need not meet it.
pub fn handed_out(q: Queue, lost: u64, number: ExtendedSequenceNumber) -> Queue
    requires { q.counters.lost + lost < 2 ^ 64 }
    ensures { result ≡ Poll.queue_handed_out number.0 lost q }
{
    Queue {
        returned: Some(number),
        ..super::lose(q, lost)
    }
}

// How long a packet is kept.
pub fn target_delay(q: Queue) -> u64
    requires { T (settings_valid q.config.settings) × T (loss_in_range q.loss) × T (opt_rtt_in_range q.rtx.rtt) }
    ensures { (result ≡ Poll.delay_of q) × (result ≤ longest) }
{
    let estimate = super::nack::estimate_of(q);
    q.config.settings.target_delay(q.jitter, q.loss, estimate)
}

// Whether an entry of the timestamp goes out where it is the first and packets are kept for the delay.
// Stays: the instant is of the call, the timestamp of lent words and the delay of the session; a type of two would be built for each call.
pub fn ready(q: Queue, delay: u64, now: u64, timestamp: ExtendedRtpTimestamp) -> bool
    requires in_time { (q.clock ≤ now) × (now ≤ largest) × (delay ≤ longest) }
    requires valid_settings { T (settings_valid q.config.settings) }
    requires sound_last { T (Valid.last_sound q.clock q.last) }
    ensures { result ≡ Poll.ready_in q.config.settings.mode q.config.settings.clock_rate delay q.last now timestamp.0 }
{
    let settings = q.config.settings;
    match settings.mode {
        RtpInboundQueueMode::Passthrough => true,
        RtpInboundQueueMode::SortedQueue(_) => match q.last {
            None => false,
            Some(r) => {
                let sorted = handout::SortedQueue {
                    last_instant: r.instant,
                    last_timestamp: r.timestamp,
                    clock_rate: settings.clock_rate,
                    delay,
                };
                sorted
                    .max_timestamp(now)
                    .is_some_and(|max| timestamp <= max)
            }
        },
    }
}
