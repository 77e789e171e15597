// 02, point 4: a burst handed over together. One call takes the datagrams of a buffer, told apart by their ends, as single media calls at one
// instant. Check 16 is made once, and the unused places are cleared once, before the first datagram that is accepted: what an accepted call
// leaves, check 16 passes (`StaysSound`, crate `model`).
#![tactic(auto)]

ghost use Rattle.std.specs.Prelude.{◌≡◌, true, [], ◌≤◌, ◌<◌, length, take};
ghost use Rattle.refusals.specs.Refusals.{refusal_of};
ghost use Rattle.words.specs.Words.{over};
ghost use Rattle.model.specs.Lists.{some?};
ghost use Rattle.model.specs.Calls.{media};
ghost use Rattle.model.specs.Contract.{Does};
ghost use Rattle.storage.specs.Held.{held, SameSlices};
ghost use Rattle.storage.specs.Settled.{Settled};
ghost use Rattle.push.specs.Answers.{media_answer};
ghost use Rattle.burst.specs.Burst.{datagrams, pushed, answer_number, is_accepted, answer_numbers, ends_fit, burst_refusal, written, did_burst};
ghost use Rattle.burst.specs.Standing.{Stands, after_sound};
ghost use Rattle.burst.specs.Runs.{EveryRunWithBursts};

use push::Media;
use refusals::Refusal;
use storage::Held;

// The answer number of a packet that is dropped.
// Stays: the law gives this number; a list of answers is bytes, over the boundary too.
const DROPPED: u8 = 255;

// How a session stands between two datagrams: check 16 catches it, or passes it, or zeros stand in its unused places too.
#[derive(Clone, Copy)]
enum Standing {
    Damaged,
    Sound,
    Settled,
}

// What a datagram was answered, and how the session stands after it.
#[derive(Clone, Copy)]
struct Stepped {
    answer: Result<Media, Refusal>,
    standing: Standing,
}

// Whether no end is below the one before it or past the buffer, of so many bytes. The first that is ends the search, so that a refused list
// costs no more than its ends up to there, however long it is.
#[tactic(auto, using(crate::proofs::Ends::ending))]
fn ends_fit(bytes: usize, ends: &[u64]) -> bool
    ensures { result ≡ ends_fit bytes 0 ends.now }
{
    let mut from = 0;
    for &end in ends {
        if end < from || (bytes as u64) < end {
            return false;
        }
        from = end;
    }
    true
}

// 15, for the whole call.
#[tactic(auto, using(crate::proofs::Ends::no_ends, crate::proofs::Ends::no_places, crate::proofs::Ends::none_refused))]
fn check_burst(bytes: usize, ends: &[u64], places: usize) -> Result<(), Refusal>
    ensures { refusal_of result ≡ burst_refusal bytes ends.now places }
{
    if !ends_fit(bytes, ends) {
        return Err(Refusal::Output);
    }
    if places < ends.len() {
        return Err(Refusal::Output);
    }
    Ok(())
}

// 0 queued, 255 dropped, else the refusal.
// Stays: the law gives the numbers, and a byte of the list is not a `Media` that was converted.
#[tactic(auto, unfolding(crate::specs::Burst::answer_number))]
fn answer_number(answer: Result<Media, Refusal>) -> u8
    ensures { result ≡ answer_number (media_answer answer) }
{
    match answer {
        Ok(Media::Queued) => 0,
        Ok(Media::Dropped) => DROPPED,
        Err(refusal) => refusal as u8,
    }
}

// By check 16.
// Stays: `From` would have the same body, and its name would not say that check 16 is made.
#[tactic(auto, using(crate::proofs::Steps::damaged_is), unfolding(crate::specs::Standing::Stands))]
fn standing_of(q: &Held) -> Standing
    ensures { Stands result (held q.now) }
{
    if !q.session_sound() {
        return Standing::Damaged;
    }
    Standing::Sound
}

fn after_sound(answer: Result<Media, Refusal>) -> Standing
    ensures { result ≡ after_sound answer }
{
    match answer {
        Ok(_) => Standing::Settled,
        Err(_) => Standing::Sound,
    }
}

// The single media call on what is settled, which leaves the remembered numbers alone.
// Stays: the instant is one call's, a datagram is that of one turn; and a type that says settled would not hold within the call.
fn push_settled(q: &mut Held, instant: u64, datagram: &[u8]) -> Result<Media, Refusal>
    requires { Settled (held q.old) }
    ensures same_slices { SameSlices q.old q.new }
    ensures does { Does (media instant datagram.now) (held q.old) (media_answer result) (held q.new) [] }
{
    // By variables: of a field that is lent on from here itself, no more than its length would be known afterwards.
    let session = &mut q.session;
    let entries = &mut *q.entries;
    let payloads = &mut *q.payloads;
    let gaps = &mut *q.gaps;
    let remembered = &mut *q.remembered;
    push::push_settled(
        session, entries, payloads, gaps, remembered, instant, datagram,
    )
}

// One datagram: the single media call, without the checks and the zeros that are behind the session already.
// Stays: the instant is one call's, a datagram is that of one turn; a type of them would be made by `push_each` at each turn.
fn push_next(q: &mut Held, standing: Standing, instant: u64, datagram: &[u8]) -> Stepped
    requires { Stands standing (held q.old) }
    ensures same_slices { SameSlices q.old q.new }
    ensures does { Does (media instant datagram.now) (held q.old) (media_answer result.answer) (held q.new) [] }
    ensures stands { Stands result.standing (held q.new) }
{
    // Stays: the two calls ask for different things (`session_sound`, `Settled`), which one closure could not.
    match standing {
        Standing::Damaged => Stepped {
            answer: Err(Refusal::Session),
            standing,
        },
        Standing::Sound => {
            let answer = push::push_checked(q, instant, datagram);
            let standing = after_sound(answer);
            Stepped { answer, standing }
        }
        Standing::Settled => {
            let answer = push_settled(q, instant, datagram);
            Stepped { answer, standing }
        }
    }
}

// The datagrams one after the other, each on what the one before left, with their answers.
// Stays: C lends buffer, ends and answers; a type that has them and the bound would be made by `push_burst`, for this function alone.
fn push_each(
    q: &mut Held,
    first: Standing,
    instant: u64,
    buffer: &[u8],
    ends: &[u64],
    answers: &mut [u8],
)
    requires stands { Stands first (held q.old) }
    requires ends_value { (ends_fit (length buffer.now) 0 ends.now ≡ true) × (length ends.now ≤ length answers.old) }
    ensures same_slices { SameSlices q.old q.new }
    ensures left { held q.new ≡ pushed instant (datagrams buffer.now ends.now) (held q.old) }
    ensures answers_after { answers.new ≡ over (answer_numbers instant (datagrams buffer.now ends.now) (held q.old)) answers.old }
{
    let mut standing = first;
    let mut from = 0;
    for (i, end) in ends.iter().enumerate() {
        let end = *end as usize;
        let done = push_next(q, standing, instant, &buffer[from..end]);
        standing = done.standing;
        answers[i] = answer_number(done.answer);
        from = end;
    }
}

// Media packets in datagrams that came together, at this instant: the first from byte 0 of the buffer to the first end, each further one from
// there to the next. One answer number is written for each: 0 queued, 255 dropped, else the refusal. The result says how many were written.
// Stays: the exported function has these parameters (the C interface).
pub fn push_burst(
    q: &mut Held,
    now: u64,
    buffer: &[u8],
    ends: &[u64],
    answers: &mut [u8],
) -> Result<usize, Refusal>
    ensures same_slices { SameSlices q.old q.new }
    ensures does { did_burst now buffer.now ends.now answers.old (held q.old) ≡ record { refusal = refusal_of result; count = written result; stored = held q.new; output = answers.new } }
{
    check_burst(buffer.len(), ends, answers.len())?;
    let first = standing_of(q);
    push_each(q, first, now, buffer, ends, answers);
    Ok(ends.len())
}

// Whether one of the first n answers is no refusal.
// Stays: `take n` is total; to hand over a part of the list, the caller would have to show that no more were written than it holds.
pub fn any_accepted(answers: &[u8], n: usize) -> bool
    ensures { result ≡ some? is_accepted (take n answers.now) }
{
    answers
        .iter()
        .take(n)
        .any(|number| *number == 0 || *number == DROPPED)
}

// Demand 3 over lists of calls with bursts among them: a burst counts as its single media calls.
#[tactic(auto, using(crate::proofs::Runs::every_run_with_bursts))]
pub fn every_run_with_bursts()
    ensures { EveryRunWithBursts }
{}
