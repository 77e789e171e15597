// `poll` (000; 01, "Hand-out"): the gaps given up, then the front entry, if its time has come.
#![tactic(auto)]

ghost use Rattle.std.specs.Prelude.{◌≡◌, true, List, [], ◌∷◌, ℕ, ◌+◌, ◌*◌, ◌≤◌, ◌<◌, ◌^◌, length, unwrap_or};
ghost use Rattle.words.specs.Blocks.{laid};
ghost use Rattle.words.specs.Order.{ascends};
ghost use Rattle.words.specs.Words.{over};
ghost use Rattle.refusals.specs.Refusals.{refusal_of, or_else};
ghost use Rattle.model.specs.Records.{gap_numbers};
ghost use Rattle.model.specs.Rules.{max_lost_nacked, remembered_after, given_up_of, lost_below_of};
ghost use Rattle.model.specs.Poll.{delay_of, drained, hands_out, hand_out};
ghost use Rattle.model.specs.Storage.{payload_bytes, gap_words, remembered_words, remembered_words_of, gaps_of, remembered_of, parse, write};
ghost use Rattle.lost_nacked.specs.Remembered.{RememberedIn};
ghost use Rattle.model.specs.Calls as Calls;
ghost use Rattle.model.specs.Table as Table;
ghost use Rattle.model.specs.Table.{output_refusal, clock_refusal};
ghost use Rattle.model.specs.Did.{accepted};
ghost use Rattle.model.specs.Calls.{handed, payload_out};
ghost use Rattle.entries.specs.Entries.{entry};
ghost use Rattle.poll.specs.Answers as Answers;
ghost use Rattle.model.specs.Contract.{Does};
ghost use Rattle.storage.specs.Held.{held, SameSlices};
ghost use Rattle.storage.specs.Settled.{Settled};
ghost use Rattle.poll.specs.Steps.{entries_in, gaps_in, front, Polling, Handing, Leaves, effect_for};

use config::RtpInboundQueueMode;
use entries::Entry;
use model::{Queue, Session};
use refusals::Refusal;
use rtp::{ExtendedSequenceNumber, RtpTimestamp, SequenceNumber, Ssrc};
use storage::Held;

pub mod nack;
pub mod wire;

// A packet as `poll` hands it out: its own fields, the instant it came (none for a repair) and the delay; `size` bytes of the output
// are its payload.
// Stays: the payload lies in the lent output, and this has its length.
#[derive(Clone, Copy)]
pub struct HandedOut {
    pub pt: u8,
    pub sequence_number: SequenceNumber,
    pub timestamp: RtpTimestamp,
    pub ssrc: Ssrc,
    pub marker: bool,
    pub received_at: Option<u64>,
    pub delay: u64,
    pub size: usize,
}

// What a `poll` does: how many gaps at the front are given up, how long packets are kept, and, where the front entry goes out, how many
// gaps are lost below it.
#[derive(Clone, Copy)]
struct Effect {
    given: usize,
    delay: u64,
    lost: Option<usize>,
}

// 15: the output has less room than the call needs.
fn check_output(needed: usize, room: usize) -> Result<(), Refusal>
    ensures { refusal_of result ≡ output_refusal needed room }
{
    if room < needed {
        return Err(Refusal::Output);
    }
    Ok(())
}

// 15, then 8
pub(crate) fn check_output_and_clock(
    q: Queue,
    instant: u64,
    needed: usize,
    room: usize,
) -> Result<(), Refusal>
    ensures { refusal_of result ≡ or_else (output_refusal needed room) (clock_refusal q instant) }
{
    check_output(needed, room)?;
    checks::check_clock(q, instant)
}

// How many gaps at the front are given up.
// Stays: a type of a session that check 16 passed would be made anew after each write (`settle`, `drain`), for a clause of one line.
pub(crate) fn given_up(q: &Held) -> usize
    requires { gap_words * q.now.session.gaps ≤ length q.now.gaps.now }
    ensures { result ≡ length (given_up_of q.now.session.queue.config.settings (gaps_in (held q.now))) }
{
    let settings = q.session.queue.config.settings;
    match settings.mode {
        RtpInboundQueueMode::Passthrough => {
            packet_gaps::nacks::count_lost(q.gaps, q.session.gaps, settings.max_nack_attempts)
        }
        RtpInboundQueueMode::SortedQueue(_) => 0,
    }
}

// The clock, then `drain_lost`: the gaps that are given up go.
// Stays: a type that says settled would not hold here between the gaps' write and the session's.
pub(crate) fn drain(q: &mut Held, given: usize, instant: u64)
    requires settled { Settled (held q.old) }
    requires given_value { given ≡ length (given_up_of q.old.session.queue.config.settings (gaps_in (held q.old))) }
    ensures same_slices { SameSlices q.old q.new }
    ensures drained { held q.new ≡ write (drained instant (parse (held q.old))) }
{
    let s = q.session;
    let queue = session::poll::drained(s.queue, instant, given as u64);
    packet_gaps::drain(q.gaps, s.gaps, given);
    q.session = Session {
        queue,
        gaps: s.gaps - given,
        ..s
    };
}

// How many gaps become lost as the entry of the number goes out.
// Stays: a type of a session that check 16 passed would be made anew after each write (`settle`, `drain`), for a clause of one line.
fn lost_below(q: &Held, number: ExtendedSequenceNumber) -> usize
    requires gaps_room { gap_words * q.now.session.gaps ≤ length q.now.gaps.now }
    requires ascend { ascends (gap_numbers (gaps_in (held q.now))) ≡ true }
    ensures { result ≡ length (lost_below_of q.now.session.queue.config.settings.mode number.0 (gaps_in (held q.now))) }
{
    match q.session.queue.config.settings.mode {
        RtpInboundQueueMode::Passthrough => 0,
        RtpInboundQueueMode::SortedQueue(_) => {
            packet_gaps::count_below(q.gaps, q.session.gaps, number)
        }
    }
}

// Remembers the first `lost` gaps, where the session has RTX; the answer is how many are remembered then.
// Stays: with `q: &mut Held` it would lend `q.remembered` and read `q.gaps` in one call, for which the borrow checker has no rule yet;
// and `RememberedIn` holds at this step alone, of a session that C may hand over damaged.
fn remember(q: Queue, remembered: &mut [u64], n: usize, gaps: &[u64], lost: usize) -> usize
    requires remembered_in { RememberedIn remembered.old n }
    requires n_bound { (n ≤ max_lost_nacked) × (remembered_words * max_lost_nacked ≤ length remembered.old) }
    requires lost_in_bounds { gap_words * lost ≤ length gaps.now }
    ensures value { result ≡ length (remembered_after q.config.senders.has_rtx (gaps_of gaps.now lost) (remembered_of remembered.old n)) }
    ensures remembered_after { remembered.new ≡ laid remembered_words_of (length remembered.old) (remembered_after q.config.senders.has_rtx (gaps_of gaps.now lost) (remembered_of remembered.old n)) }
{
    if q.config.senders.has_rtx {
        lost_nacked::note_lost(remembered, n, gaps, lost)
    } else {
        n
    }
}

// Whether the front entry goes out, by the queue's delay.
#[tactic(auto, using(session::proofs::Bounds::delay_bound))]
fn goes_out(q: &Held, delay: u64, instant: u64) -> bool
    requires polling { Polling instant (held q.now) }
    requires delay_value { delay ≡ delay_of q.now.session.queue }
    ensures { result ≡ hands_out instant q.now.session.queue (entries_in (held q.now)) }
{
    // With `&&` the first entry would be read within the test.
    if q.session.entries == 0 {
        return false;
    }
    let first = entries::read(q.entries, 0);
    session::poll::ready(q.session.queue, delay, instant, first.timestamp)
}

// What a `poll` at this instant does.
// Stays: the instant is one call's; a type of session and instant would lend the session on, for this function alone.
fn effect_at(q: &Held, instant: u64) -> Effect
    requires { Polling instant (held q.now) }
    ensures { result ≡ effect_for instant (parse (held q.now)) }
{
    let given = given_up(q);
    let delay = session::poll::target_delay(q.session.queue);
    let lost = if goes_out(q, delay, instant) {
        let first = entries::read(q.entries, 0);
        Some(lost_below(q, first.number))
    } else {
        None
    };
    Effect { given, delay, lost }
}

// 14, for the numbers that become lost.
fn check_count(q: Queue, effect: Effect) -> Result<(), Refusal>
    requires { q.counters.lost + (effect.given + unwrap_or effect.lost 0) < 2 ^ 64 }
    ensures { refusal_of result ≡ Table.count_refusal ((q.counters.lost + (effect.given + unwrap_or effect.lost 0)) ∷ []) }
{
    session::poll::check_lost(q, (effect.given + effect.lost.unwrap_or(0)) as u64)
}

fn packet(q: Queue, delay: u64, e: Entry) -> HandedOut
    requires { delay ≡ delay_of q }
    ensures { (payload : List ℕ) → length payload ≡ e.size → Answers.packet_of result ≡ Calls.packet_of q (entry e payload) }
{
    let senders = q.config.senders;
    HandedOut {
        pt: senders.pt,
        sequence_number: e.number.truncated(),
        timestamp: e.timestamp.truncated(),
        ssrc: senders.ssrc,
        marker: e.marker,
        received_at: e.arrival,
        delay,
        size: e.size,
    }
}

// The front entry goes out, and the first `lost` gaps, those below it in a sorted queue, are lost.
// Stays: C lends the output, which may be longer; an array of 320 bytes would have to be cut from it, and the rest would have no name.
fn hand_out(q: &mut Held, lost: usize, delay: u64, out: &mut [u8]) -> HandedOut
    requires handing { Handing lost delay (held q.old) }
    requires in_bounds { payload_bytes ≤ length out.old }
    ensures same_slices { SameSlices q.old q.new }
    ensures leaves { Leaves (hand_out (front (held q.old)) (parse (held q.old))) (held q.old).storage (held q.new) }
    ensures answer_value { Answers.front_answer (Some result) ≡ handed q.old.session.queue (front (held q.old)) }
    ensures out_after { out.new ≡ over (payload_out (front (held q.old))) out.old }
{
    let s = q.session;
    let queue = s.queue;
    let e = entries::pop_front(q.entries, q.payloads, s.entries, out);
    // A borrow of its own, since the borrow checker has no rule yet for `q.gaps` read beside `q.remembered` in one call.
    let gaps = &mut *q.gaps;
    let remembered = remember(queue, q.remembered, s.remembered, gaps, lost);
    packet_gaps::drain(gaps, s.gaps, lost);
    q.session = Session {
        queue: session::poll::handed_out(queue, lost as u64, e.number),
        entries: s.entries - 1,
        gaps: s.gaps - lost,
        remembered,
    };
    packet(queue, delay, e)
}

// What `poll` does to a settled session.
// Stays: the instant is one call's; a type that says settled would not hold between `drain` and `hand_out`; and C lends an output
// that may be longer than the bound.
fn accept(q: &mut Held, instant: u64, effect: Effect, out: &mut [u8]) -> Option<HandedOut>
    requires settled { Settled (held q.old) }
    requires effect_value { effect ≡ effect_for instant (parse (held q.old)) }
    requires in_bounds { payload_bytes ≤ length out.old }
    ensures same_slices { SameSlices q.old q.new }
    ensures accepted_as { accepted (Calls.poll instant out.old) (parse (held q.old)) ≡ record { answer = Answers.front_answer result; stored = held q.new; output = out.new } }
{
    drain(q, effect.given, instant);
    let lost = effect.lost?;
    Some(hand_out(q, lost, effect.delay, out))
}

// Hands out the front entry, if its time has come: its payload goes to the front of `out`.
// Stays: the session is lent and outlives the call, and the instant is this call's alone (the C interface has both as parameters).
#[tactic(auto, using(storage::proofs::Settled::passed_16))]
pub fn poll(q: &mut Held, now: u64, out: &mut [u8]) -> Result<Option<HandedOut>, Refusal>
    ensures same_slices { SameSlices q.old q.new }
    ensures does { Does (Calls.poll now out.old) (held q.old) (Answers.poll_answer result) (held q.new) out.new }
{
    q.check_session()?;
    let queue = q.session.queue;
    check_output_and_clock(queue, now, rtp_packet::LARGEST_PAYLOAD, out.len())?;
    let effect = effect_at(q, now);
    check_count(queue, effect)?;
    q.settle();
    Ok(accept(q, now, effect, out))
}
