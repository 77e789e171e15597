// `poll_nack` (000; 01, "Gap"): the gaps given up, then a NACK for each gap that is due.
ghost use Rattle.std.specs.Prelude.{◌≡◌, ◌≤◌};
ghost use Rattle.durations.specs.Seconds.{largest};
ghost use Rattle.refusals.specs.Refusals.{refusal_of, numbered};
ghost use Rattle.model.specs.Poll.{timings_of};
ghost use Rattle.model.specs.Calls as Calls;
ghost use Rattle.model.specs.Table.{nacks_refusal};
ghost use Rattle.poll.specs.Answers as Answers;
ghost use Rattle.model.specs.Contract.{Does};
ghost use Rattle.storage.specs.Held.{held, SameSlices};
ghost use Rattle.poll.specs.Steps.{gaps_in};
ghost use Rattle.poll.specs.Nacking.{Judging, found_in, judged_by, later_refusal, nack_refusal, drained_by};

use config::NackTimings;
use refusals::Refusal;
use storage::Held;

// What a `poll_nack` finds: how many gaps at the front are given up, and the timings by which the others are due.
#[derive(Clone, Copy)]
struct Found {
    given: usize,
    timings: NackTimings,
}

// 14: the numbers lost, then a NACK count.
fn check_count(q: &Held, found: Found, instant: u64) -> Result<(), Refusal>
    requires judging { Judging (held q.now) }
    requires found_value { found ≡ found_in (held q.now) }
    requires clock { q.now.session.queue.clock ≤ largest }
    ensures { refusal_of result ≡ nacks_refusal instant q.now.session.queue (gaps_in (held q.now)) }
{
    session::poll::check_lost(q.session.queue, found.given as u64)?;
    if packet_gaps::nacks::any_full(q.gaps, found.given, q.session.gaps, instant, found.timings) {
        return Err(Refusal::Count);
    }
    Ok(())
}

// 15, 8, then 14 of a `poll_nack` with an output of so many places, in a session that check 16 passes.
// Stays: instant and places are one call's; a type of them would be made at each call and taken apart by the first check.
fn judge(q: &Held, instant: u64, places: usize) -> Result<Found, Refusal>
    requires { Judging (held q.now) }
    ensures { numbered result ≡ judged_by (later_refusal places instant (held q.now)) (found_in (held q.now)) }
{
    let s = q.session;
    let needed = s.queue.config.settings.max_gaps;
    super::check_output_and_clock(s.queue, instant, needed, places)?;
    let found = Found {
        given: super::given_up(q),
        timings: session::nack::nack_timings(s.queue),
    };
    check_count(q, found, instant)?;
    Ok(found)
}

// The steps that a list and the wire share: check 16, the other checks, and, where none catches the call, zeros in the unused places, the
// clock and `drain_lost`. The answer is the timings by which the gaps that are left are due.
// Stays: instant and places are one call's; a type of them would be made at each call and taken apart by the first check.
#[tactic(auto, using(storage::proofs::Settled::passed_16))]
pub(crate) fn begin(q: &mut Held, instant: u64, places: usize) -> Result<NackTimings, Refusal>
    ensures same_slices { SameSlices q.old q.new }
    ensures value { numbered result ≡ judged_by (nack_refusal places instant (held q.old)) (timings_of q.old.session.queue) }
    ensures session_value { held q.new ≡ drained_by (nack_refusal places instant (held q.old)) instant (held q.old) }
{
    q.check_session()?;
    let found = judge(q, instant, places)?;
    q.settle();
    super::drain(q, found.given, instant);
    Ok(found.timings)
}

// NACKs each gap that is due: their numbers go to the front of `out`, and the answer is how many they are.
// Stays: the session is lent and outlives the call, and the instant is this call's alone (the C interface has both as parameters).
pub fn poll_nack(q: &mut Held, now: u64, out: &mut [u16]) -> Result<Option<usize>, Refusal>
    ensures same_slices { SameSlices q.old q.new }
    ensures does { Does (Calls.poll_nack now out.old) (held q.old) (Answers.nack_answer result) (held q.new) out.new }
{
    let timings = begin(q, now, out.len())?;
    let count = packet_gaps::nacks::poll_nacks(q.gaps, q.session.gaps, now, timings, out);
    Ok((0 < count).then_some(count))
}
