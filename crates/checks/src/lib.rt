// The checks of 01's table that look at the session alone, a function for each row.
#![tactic(auto, unfolding(model::specs::Table::rtx_refusal, model::specs::Table::media_first_refusal, model::specs::Table::no_media_of, model::specs::Table::config_valid, model::specs::Table::clock_refusal, refusals::specs::Refusals::refuse_if, model::specs::Valid::last_sound, model::specs::Valid::returned_sound, model::specs::Valid::counters_sound, model::specs::Valid::queue_sound, model::specs::Records::highest_of, rtp::specs::Opt::number_of, rtp::specs::Opt::at_most))]

ghost use Rattle.refusals.specs.Refusals.{refusal_of};
ghost use Rattle.std.specs.Prelude.{◌≡◌};
ghost use Rattle.rtp.specs.Opt as Opt;
ghost use Rattle.model.specs.Records as Records;
ghost use Rattle.model.specs.Valid as Valid;
ghost use Rattle.model.specs.Table as Table;

use durations::fits;
use model::{Config, Counters, Queue, Received};
use refusals::Refusal;
use rtp::ExtendedSequenceNumber;

// 8: "instant above 2^52 − 1, or before the latest accepted one".
// Stays: the instant is one call's; a type of queue and instant would be made at each call, for this test alone.
pub fn check_clock(q: Queue, now: u64) -> Result<(), Refusal>
    ensures { refusal_of result ≡ Table.clock_refusal q now }
{
    if !fits(now) || now < q.clock {
        return Err(Refusal::Clock);
    }
    Ok(())
}

// 9: "session without RTX".
pub fn check_rtx(q: Queue) -> Result<(), Refusal>
    ensures { refusal_of result ≡ Table.rtx_refusal q }
{
    if q.config.senders.has_rtx {
        Ok(())
    } else {
        Err(Refusal::NoRtx)
    }
}

// 10: "no media packet yet".
pub fn check_media_first(q: Queue) -> Result<(), Refusal>
    ensures { refusal_of result ≡ Table.media_first_refusal q }
{
    match q.last {
        None => Err(Refusal::NoMedia),
        Some(_) => Ok(()),
    }
}

// 1: the settings and the senders.
pub fn config_valid(c: Config) -> bool
    ensures { result ≡ Table.config_valid c }
{
    c.settings.is_valid() & c.senders.is_valid()
}

// Row 16 for the records that go by value.

fn last_sound(clock: u64, last: Option<Received>) -> bool
    ensures { result ≡ Valid.last_sound clock last }
{
    last.is_none_or(|r| (r.instant <= clock) & fits(r.timestamp.0) & fits(r.number.0))
}

fn returned_sound(last: Option<Received>, returned: Option<ExtendedSequenceNumber>) -> bool
    ensures { result ≡ Valid.returned_sound (Records.highest_of last) (Opt.number_of returned) }
{
    match (returned, last) {
        (None, _) => true,
        (Some(_), None) => false,
        (Some(n), Some(r)) => n <= r.number,
    }
}

fn counters_sound(c: Counters) -> bool
    ensures { result ≡ Valid.counters_sound c }
{
    fits(c.dropped) & fits(c.received) & fits(c.bytes) & fits(c.lost)
}

pub fn queue_sound(q: Queue) -> bool
    ensures { result ≡ Valid.queue_sound q }
{
    last_sound(q.clock, q.last)
        & returned_sound(q.last, q.returned)
        & counters_sound(q.counters)
        & q.rtx.in_range()
        & q.jitter.in_range(q.config.settings.clock_rate)
        & q.loss.in_range()
}
