// The calls that leave the session as it is: the two timeouts, the figures of repairs and the highest number. An accepted one still puts
// zeros into the unused places.
ghost use Rattle.model.specs.Lists.{every?};
ghost use Rattle.packet_gaps.specs.Gaps.{instants_fit, Small};
ghost use Rattle.std.specs.Prelude.{◌≡◌, true, List, [], ◌∷◌, ℕ, ◌*◌, ◌≤◌, ◌<◌, T, length, take};
ghost use Rattle.rtp.specs.Opt.{number_of};
ghost use Rattle.durations.specs.Seconds.{largest};
ghost use Rattle.config.specs.declared.RtpInboundStreamSortedQueueMode.{RtpInboundStreamSortedQueueMode};
ghost use Rattle.config.specs.declared.RtpInboundQueueMode.TheVariants.{SortedQueue};
ghost use Rattle.rtx_state.specs.RoundTrip.{opt_rtt_in_range};
ghost use Rattle.packet_loss.specs.Loss.{loss_in_range};
ghost use Rattle.config.specs.Valid.{longest, settings_valid};
ghost use Rattle.model.specs.Records.{Entry, highest_of};
ghost use Rattle.model.specs.Poll as Poll;
ghost use Rattle.model.specs.Valid.{last_sound};
ghost use Rattle.model.specs.Storage.{entry_words, gap_words, entry_of, parse};
ghost use Rattle.model.specs.Calls as Calls;
ghost use Rattle.queue.specs.Answers.{highest_answer};
ghost use Rattle.model.specs.Contract.{said, Does};
ghost use Rattle.storage.specs.Held.{held, SameSlices};

use config::RtpInboundQueueMode;
use model::{Queue, Received};
use refusals::Refusal;
use rtp::{ExtendedRtpTimestamp, ExtendedSequenceNumber};
use stats::RtpInboundRtxStats;
use storage::Held;

// Nanoseconds until the front entry of a sorted queue, which has this timestamp, is due.
// Stays: the bounds are those of the struct that is built here, of a call's instant, a session's delay and a timestamp in lent words.
#[tactic(auto, unfolding(model::specs::Poll::timeout_in))]
fn until_front(
    rate: u32,
    delay: u64,
    last: Option<Received>,
    timestamp: ExtendedRtpTimestamp,
    now: u64,
) -> Option<u64>
    requires { (1 ≤ rate) × (delay ≤ longest) × T (last_sound now last) × (timestamp.0 ≤ largest) × (now ≤ largest) }
    ensures { (sorted : RtpInboundStreamSortedQueueMode) (e : Entry) (es : List Entry) → e.timestamp ≡ timestamp.0 → result ≡ Poll.timeout_in (SortedQueue sorted) rate delay last (e ∷ es) now }
{
    match last {
        None => None,
        Some(r) => {
            let sorted = handout::SortedQueue {
                last_instant: r.instant,
                last_timestamp: r.timestamp,
                clock_rate: rate,
                delay,
            };
            Some(sorted.timeout_receive(timestamp, now))
        }
    }
}

// Nanoseconds until the front entry is due.
// Stays: the instant is of the call and the session outlives it; a struct of both, or one of an instant in range, would be built for this call.
fn receive_timeout(q: &Held, now: u64) -> Option<u64>
    requires sound { T (settings_valid q.now.session.queue.config.settings) × T (last_sound now q.now.session.queue.last) × (now ≤ largest) }
    requires in_range { T (loss_in_range q.now.session.queue.loss) × T (opt_rtt_in_range q.now.session.queue.rtx.rtt) }
    requires n_in_bounds { entry_words * q.now.session.entries ≤ length q.now.entries.now }
    requires front_fits { 0 < q.now.session.entries → (p : List ℕ) → (entry_of (take entry_words q.now.entries.now) p).timestamp ≤ largest }
    ensures { result ≡ Poll.receive_timeout_of q.now.session.queue (parse (held q.now)).entries now }
{
    let session = q.session;
    if session.entries == 0 {
        return None;
    }
    let queue = session.queue;
    let set = queue.config.settings;
    match set.mode {
        RtpInboundQueueMode::Passthrough => Some(0),
        RtpInboundQueueMode::SortedQueue(_) => {
            let delay = session::poll::target_delay(queue);
            let front = entries::read(q.entries, 0);
            until_front(set.clock_rate, delay, queue.last, front.timestamp, now)
        }
    }
}

// Nanoseconds until `poll` should be called; it may hand out nothing then (docs/USING.md, "Driving it").
// Stays: the session is lent and outlives the call, and the instant is this call's alone (the C interface has both as parameters).
pub fn timeout_receive(q: &mut Held, now: u64) -> Result<Option<u64>, Refusal>
    ensures same_slices { SameSlices q.old q.new }
    ensures same_session { q.new.session ≡ q.old.session }
    ensures does { Does (Calls.timeout_receive now) (held q.old) (said Calls.timeout result) (held q.new) [] }
{
    q.check_session_and_clock(now)?;
    q.settle();
    Ok(receive_timeout(q, now))
}

// Nanoseconds until a gap is due.
// Stays: the instant is one call's; a type of a session that check 16 passed would be made anew after `settle`, for a clause of one line.
#[tactic(auto, unfolding(model::specs::Storage::parse))]
fn nack_timeout(q: &Held, now: u64) -> Option<u64>
    requires in_bounds { gap_words * q.now.session.gaps ≤ length q.now.gaps.now }
    requires fit { every? instants_fit (parse (held q.now)).gaps ≡ true }
    requires small { Small (Poll.timings_of q.now.session.queue) }
    ensures { result ≡ Poll.nack_timeout_of (Poll.timings_of q.now.session.queue) now (parse (held q.now)).gaps }
{
    let session = q.session;
    let timings = session::nack::nack_timings(session.queue);
    packet_gaps::nacks::timeout_nacks(q.gaps, session.gaps, now, timings)
}

// Nanoseconds until `poll_nack` should be called; it may give a number up in the place of a NACK. What it shares with `timeout_receive` is
// the check and `settle`: a function of the two would take the reading as a closure, and its contract would say what every closure leaves.
// Stays: the session is lent and outlives the call, and the instant is this call's alone (the C interface has both as parameters).
pub fn timeout_nack(q: &mut Held, now: u64) -> Result<Option<u64>, Refusal>
    ensures same_slices { SameSlices q.old q.new }
    ensures same_session { q.new.session ≡ q.old.session }
    ensures does { Does (Calls.timeout_nack now) (held q.old) (said Calls.timeout result) (held q.new) [] }
{
    q.check_session_and_clock(now)?;
    q.settle();
    Ok(nack_timeout(q, now))
}

#[tactic(auto, unfolding(model::specs::Poll::repair_figures_of))]
fn figures(q: Queue) -> Option<RtpInboundRtxStats>
    ensures { result ≡ Poll.repair_figures_of q }
{
    q.config.senders.has_rtx.then(|| q.rtx.stats())
}

// The figures of repairs, which a session without RTX has none of.
#[tactic(auto, using(storage::proofs::Settled::passed_16))]
pub fn rtx_stats(q: &mut Held) -> Result<Option<RtpInboundRtxStats>, Refusal>
    ensures same_slices { SameSlices q.old q.new }
    ensures same_session { q.new.session ≡ q.old.session }
    ensures does { Does Calls.rtx_stats (held q.old) (said Calls.stats result) (held q.new) [] }
{
    q.check_session()?;
    q.settle();
    Ok(figures(q.session.queue))
}

#[tactic(auto, unfolding(rtp::specs::Opt::number_of, model::specs::Records::highest_of))]
fn highest(last: Option<Received>) -> Option<ExtendedSequenceNumber>
    ensures { number_of result ≡ highest_of last }
{
    last.map(|r| r.number)
}

// The highest number that a media packet had.
#[tactic(auto, using(storage::proofs::Settled::passed_16))]
pub fn highest_sequence_number_received(
    q: &mut Held,
) -> Result<Option<ExtendedSequenceNumber>, Refusal>
    ensures same_slices { SameSlices q.old q.new }
    ensures same_session { q.new.session ≡ q.old.session }
    ensures does { Does Calls.highest_received (held q.old) (said highest_answer result) (held q.new) [] }
{
    q.check_session()?;
    q.settle();
    Ok(highest(q.session.queue.last))
}
