// The parts of the queue (000) that need no storage: what a call makes of the records that go by value, and which check turns it back by
// the values that it works out. Each function is one definition of `model`. Functions and not methods: `Queue` is of `model`, and an
// inherent impl stands in its type's crate.
#![tactic(auto, unfolding(model::specs::Push::extended_number, model::specs::Push::extended_timestamp, model::specs::Records::highest_of, model::specs::Records::last_timestamp_of, model::specs::Rules::extended, model::specs::Push::heard, model::specs::Push::jitter_after, model::specs::Poll::lose, model::specs::Poll::count_lost))]

ghost use Rattle.std.specs.Prelude.{◌≡◌, ◌+◌, ◌<◌, ◌^◌};
ghost use Rattle.rtp.specs.Opt as Opt;
ghost use Rattle.model.specs.Push as Push;
ghost use Rattle.model.specs.Poll as Poll;

use model::{Counters, Queue, Received};
use rtp::{ExtendedRtpTimestamp, ExtendedSequenceNumber, RtpTimestamp, SequenceNumber};

pub mod nack;
pub mod poll;
pub mod push;
pub mod rtx;

// 02, point 2: the first packet is in cycle 1, so that what is under half a cycle behind it reads as earlier.
const FIRST_NUMBER_CYCLE: u64 = 65536;

const FIRST_TIMESTAMP_CYCLE: u64 = 4294967296;

// The number that `got` stands for; before the first media packet its own, in the first cycle.
// Stays: the two kinds of number are types of their own; what they share is in `rtp`.
pub fn extended_number(q: Queue, got: SequenceNumber) -> ExtendedSequenceNumber
    ensures { result.0 ≡ Push.extended_number q got.0 }
{
    match q.last {
        None => ExtendedSequenceNumber(FIRST_NUMBER_CYCLE + got.0 as u64),
        Some(r) => r.number.guess_extended(got),
    }
}

pub fn extended_timestamp(q: Queue, got: RtpTimestamp) -> ExtendedRtpTimestamp
    ensures { result.0 ≡ Push.extended_timestamp q got.0 }
{
    match q.last {
        None => ExtendedRtpTimestamp(FIRST_TIMESTAMP_CYCLE + got.0 as u64),
        Some(r) => r.timestamp.guess_extended(got),
    }
}

// Whether a sorted queue has passed the number.
pub fn passed(q: Queue, number: ExtendedSequenceNumber) -> bool
    ensures { result ≡ Push.passed q.config.settings.mode (Opt.number_of q.returned) number.0 }
{
    let bounds = packet_gaps::check::bounds_of(q);
    !packet_gaps::check::above(bounds.passed, number)
}

// The clock and the jitter follow every media packet, also one that is then dropped.
// Stays: the queue goes by value and comes back changed by this; a type of both would be made at each call and taken apart here.
pub fn heard(q: Queue, got: Received) -> Queue
    ensures { result ≡ Push.heard got.instant got.timestamp.0 q }
{
    let now = got.instant;
    match q.last {
        None => Queue { clock: now, ..q },
        Some(r) => Queue {
            clock: now,
            jitter: q.jitter.update(now, got.timestamp, r.instant, r.timestamp),
            ..q
        },
    }
}

// n numbers became lost.
// Stays: a bound of a queue and one call's number, which check 16 gives; a queue that C hands over need not meet it.
pub fn lose(q: Queue, n: u64) -> Queue
    requires { q.counters.lost + n < 2 ^ 64 }
    ensures { result ≡ Poll.lose n q }
{
    Queue {
        counters: Counters {
            lost: q.counters.lost + n,
            ..q.counters
        },
        loss: q.loss.record_lost(n),
        ..q
    }
}
