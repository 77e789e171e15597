// `push` (000) on the records that go by value: what is counted, and which check turns a media packet back.
#![tactic(auto, using(crate::proofs::Counts::counts), unfolding(crate::specs::Place::place, model::specs::Rules::waits, model::specs::Push::last_after, model::specs::Push::count_dropped, model::specs::Push::count_received, model::specs::Push::heard, model::specs::Table::too_many_gaps, model::specs::Table::media_values, refusals::specs::Refusals::refuse_if))]

ghost use Rattle.refusals.specs.Refusals.{refusal_of};
ghost use Rattle.std.specs.Prelude.{◌≡◌, ◌&&◌, [], ◌∷◌, ◌+◌, ◌-◌, ◌<◌, ◌≤◌, leb, ltb};
ghost use Rattle.durations.specs.Seconds.{largest};
ghost use Rattle.refusals.specs.Refusals as Refusals;
ghost use Rattle.model.specs.Rules as Rules;
ghost use Rattle.model.specs.Push as Push;
ghost use Rattle.model.specs.Table as Table;
ghost use Rattle.session.specs.Place as Spec;

use config::Settings;
use durations::LARGEST;
use model::{Counters, Queue, Received};
use refusals::Refusal;
use rtp::{ExtendedRtpTimestamp, ExtendedSequenceNumber};

// Where a media number stands: before any other packet, above the highest by at most 1,000 or by more, in an open gap, or elsewhere.
#[derive(Clone, Copy)]
pub enum Place {
    First,
    Near(ExtendedSequenceNumber),
    Far(ExtendedSequenceNumber),
    Fills,
    Other,
}

// Whether the packet is queued.
pub fn waits(place: Place) -> bool
    ensures { result ≡ Rules.waits (Spec.place place) }
{
    !matches!(place, Place::Other)
}

// Forward progress only.
fn last_after(last: Option<Received>, got: Received, place: Place) -> Option<Received>
    ensures { result ≡ Push.last_after got.instant got.timestamp.0 got.number.0 (Spec.place place) last }
{
    match place {
        Place::First | Place::Near(_) | Place::Far(_) => Some(got),
        Place::Fills | Place::Other => last,
    }
}

fn count_dropped(c: Counters) -> Counters
    requires { c.dropped < largest }
    ensures { result ≡ Push.count_dropped c }
{
    Counters {
        dropped: c.dropped + 1,
        ..c
    }
}

fn count_received(c: Counters, size: u64) -> Counters
    requires { (c.received < largest) × (c.bytes + size ≤ largest) }
    ensures { result ≡ Push.count_received size c }
{
    Counters {
        received: c.received + 1,
        bytes: c.bytes + size,
        ..c
    }
}

// The queue after a packet that is dropped.
// Stays: the queue goes by value and comes back changed by this; a type of both would be made at each call and taken apart here.
pub fn dropped(q: Queue, got: Received) -> Queue
    requires { q.counters.dropped < largest }
    ensures { result ≡ Push.queue_dropped got.instant got.timestamp.0 q }
{
    let heard = super::heard(q, got);
    Queue {
        counters: count_dropped(q.counters),
        ..heard
    }
}

// The queue after a packet that is queued.
// Stays: the queue goes by value and comes back changed by this; a type of both would be made at each call and taken apart here.
pub fn queued(q: Queue, got: Received, size: u64, place: Place) -> Queue
    requires { (q.counters.received < largest) × (q.counters.bytes + size ≤ largest) }
    ensures { result ≡ Push.queue_queued got.instant got.timestamp.0 got.number.0 size (Spec.place place) q }
{
    Queue {
        last: last_after(q.last, got, place),
        counters: count_received(q.counters, size),
        loss: q.loss.record_received(),
        ..super::heard(q, got)
    }
}

// The queue after its front entry, of this number, was pushed out.
pub fn pushed_out(q: Queue, number: ExtendedSequenceNumber) -> Queue
    requires { q.counters.dropped < largest }
    ensures { result ≡ Push.queue_pushed_out number.0 q }
{
    Queue {
        returned: Some(number),
        counters: count_dropped(q.counters),
        ..q
    }
}

// 14, "would pass 2^52 − 1", for one value.
pub fn check_count(value: u64) -> Result<(), Refusal>
    ensures { refusal_of result ≡ Table.count_refusal (value ∷ []) }
{
    if LARGEST < value {
        return Err(Refusal::Count);
    }
    Ok(())
}

// 14 for a counter that would go up by one.
pub fn check_next_count(value: u64) -> Result<(), Refusal>
    ensures { refusal_of result ≡ Table.count_refusal ((value + 1) ∷ []) }
{
    if LARGEST <= value {
        return Err(Refusal::Count);
    }
    Ok(())
}

// 14 for a sum. One past 64 bits is past the largest as well.
pub fn check_sum(count: u64, more: u64) -> Result<(), Refusal>
    ensures { refusal_of result ≡ Table.count_refusal ((count + more) ∷ []) }
{
    if LARGEST < count.saturating_add(more) {
        return Err(Refusal::Count);
    }
    Ok(())
}

// 14 for what a packet would raise; `full` says that the front entry would be pushed out.
// Stays: a packet that waits and a full queue are what the law counts by.
fn check_counters(c: Counters, size: u64, waits: bool, full: bool) -> Result<(), Refusal>
    ensures { refusal_of result ≡ Table.count_refusal (Table.media_values c size waits full) }
{
    if waits {
        check_next_count(c.received)?;
        check_sum(c.bytes, size)?;
        if !full {
            return Ok(());
        }
    }
    check_next_count(c.dropped)
}

// 14 for what a packet or a repair works out, its timestamp and number.
// Stays: `entries::Entry` has both, which stands above this crate; a type of the two would be made at each call and taken apart here.
pub(crate) fn check_entry(
    timestamp: ExtendedRtpTimestamp,
    number: ExtendedSequenceNumber,
) -> Result<(), Refusal>
    ensures { refusal_of result ≡ Table.count_refusal (timestamp.0 ∷ number.0 ∷ []) }
{
    check_count(timestamp.0)?;
    check_count(number.0)
}

// 14 for what a packet works out, its timestamp and number, and for the counters that it would raise.
// Stays: `entries::Entry` has both, which stands above this crate; a type of the two would be made at each call and taken apart here.
pub fn check_counts(
    c: Counters,
    timestamp: ExtendedRtpTimestamp,
    number: ExtendedSequenceNumber,
    size: u64,
    waits: bool,
    full: bool,
) -> Result<(), Refusal>
    ensures { refusal_of result ≡ Table.count_refusal (timestamp.0 ∷ number.0 ∷ Table.media_values c size waits full) }
{
    check_entry(timestamp, number)?;
    check_counters(c, size, waits, full)
}

// 12 with so many gaps open and a step of s above the highest.
fn check_room(max_gaps: usize, opened: usize, s: u64) -> Result<(), Refusal>
    requires { opened ≤ max_gaps }
    ensures { refusal_of result ≡ Refusals.refuse_if (ltb max_gaps (opened + (s - 1)) && leb 2 s) Refusals.gaps_full }
{
    if s < 2 {
        return Ok(());
    }
    let left = max_gaps - opened;
    if (left as u64) < s - 1 {
        return Err(Refusal::GapsFull);
    }
    Ok(())
}

// 12, with so many gaps open.
pub fn check_gaps(
    settings: Settings,
    opened: usize,
    number: ExtendedSequenceNumber,
    place: Place,
) -> Result<(), Refusal>
    requires { opened ≤ settings.max_gaps }
    ensures { refusal_of result ≡ Refusals.refuse_if (Table.too_many_gaps settings opened number.0 (Spec.place place)) Refusals.gaps_full }
{
    match place {
        Place::Near(h) => { check_room(settings.max_gaps, opened, number.0.saturating_sub(h.0)) }
        Place::First | Place::Far(_) | Place::Fills | Place::Other => Ok(()),
    }
}
