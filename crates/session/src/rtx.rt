// `push_rtx` (000) on the records that go by value: what is counted and sampled, and which check turns a repair back.
#![tactic(auto, using(crate::proofs::Counts::counts), unfolding(crate::specs::Place::fate, model::specs::Rules::sampled_at, rtx_state::specs::Repair::update_rtt, model::specs::Table::fate_values))]

ghost use Rattle.refusals.specs.Refusals.{refusal_of};
ghost use Rattle.std.specs.Prelude.{◌≡◌, ◌∷◌};
ghost use Rattle.model.specs.Push as Push;
ghost use Rattle.model.specs.Table as Table;
ghost use Rattle.session.specs.Place as Spec;

use super::push::{check_entry, check_next_count, check_sum};
use model::Queue;
use refusals::Refusal;
use rtp::{ExtendedRtpTimestamp, ExtendedSequenceNumber};
use rtx_state::RtxState;

// What becomes of a repair.
#[derive(Clone, Copy)]
pub enum Fate {
    TooLate,
    Recovered,
    Redundant,
}

// One more sample, if the number was NACKed just once, at this instant.
// Stays: a type of the two instants would be made by both callers, and this function is all that takes it.
fn sampled(state: RtxState, now: u64, nacked: Option<u64>) -> RtxState
    ensures { result ≡ Push.sampled now nacked state }
{
    nacked.map_or(state, |i| state.update_rtt(now.saturating_sub(i)))
}

// The queue after a repair that came too late.
// Stays: the queue goes by value and comes back with the instant in it; a type of both would be made at each call and taken apart here.
pub fn too_late(q: Queue, now: u64, nacked: Option<u64>) -> Queue
    ensures { result ≡ Push.queue_too_late now nacked q }
{
    Queue {
        clock: now,
        rtx: sampled(q.rtx.record_too_late(), now, nacked),
        ..q
    }
}

// The queue after a repair of a number that was not missing.
// Stays: the queue goes by value and comes back with the instant in it; a type of both would be made at each call and taken apart here.
pub fn redundant(q: Queue, now: u64) -> Queue
    ensures { result ≡ Push.queue_redundant now q }
{
    Queue {
        clock: now,
        rtx: q.rtx.record_redundant(),
        ..q
    }
}

// The queue after a repair that filled its gap.
// Stays: the queue goes by value and comes back with the instant in it; a type of both would be made at each call and taken apart here.
pub fn recovered(q: Queue, now: u64, nacked: Option<u64>, size: u64) -> Queue
    ensures { result ≡ Push.queue_recovered now nacked size q }
{
    Queue {
        clock: now,
        rtx: sampled(q.rtx.record_in_time(size), now, nacked),
        loss: q.loss.record_lost(1),
        ..q
    }
}

// 14 for what a repair would raise.
fn check_counters(rtx: RtxState, size: u64, fate: Fate) -> Result<(), Refusal>
    ensures { refusal_of result ≡ Table.count_refusal (Table.fate_values rtx size (Spec.fate fate)) }
{
    match fate {
        Fate::TooLate => check_next_count(rtx.received_too_late),
        Fate::Redundant => check_next_count(rtx.received_redundant),
        Fate::Recovered => {
            check_next_count(rtx.received_in_time)?;
            check_sum(rtx.bytes_received, size)
        }
    }
}

// 14 for what a repair works out, its timestamp and number, and for the counters that it would raise.
// Stays: `entries::Entry` has both, which stands above this crate; a type of the two would be made at each call and taken apart here.
pub fn check_counts(
    rtx: RtxState,
    timestamp: ExtendedRtpTimestamp,
    number: ExtendedSequenceNumber,
    size: u64,
    fate: Fate,
) -> Result<(), Refusal>
    ensures { refusal_of result ≡ Table.count_refusal (timestamp.0 ∷ number.0 ∷ Table.fate_values rtx size (Spec.fate fate)) }
{
    check_entry(timestamp, number)?;
    check_counters(rtx, size, fate)
}
