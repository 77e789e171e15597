// The library for C and Rust: the opening, the calls, the burst, two readings, the reader of NACK entries and the version, on words that the caller
// keeps and storage that it lends; in settings.rt the line of settings. Crate `ffi_c` exports each function whose name begins with bizhgemu_.
// No function asks anything of its caller but live slices of the lengths passed, none of which overlaps another that is written.
#![tactic(auto, using(crate::proofs::Given::not_read), unfolding(model::specs::Calls::output_of))]

ghost use Rattle.std.specs.Prelude.{◌≡◌, []};
ghost use Rattle.model.specs.Calls as Calls;
ghost use Rattle.model.specs.Contract.{lent, left};
ghost use Rattle.ffi_words.specs.Told as Told;
ghost use Rattle.ffi.specs.Exported as Exported;
ghost use Rattle.ffi.specs.Exported.{Gives, alone, opened_words};
ghost use Rattle.ffi.specs.Follows.{Follows};
ghost use Rattle.ffi.specs.Burst.{session_in, called_burst, BurstFollows};
ghost use Rattle.ffi.specs.Runs.{EveryRunInWords};

use entries::{ENTRY_WORDS, PAYLOAD_BYTES};
use ffi_words::answers::{Opened, Polled, PolledNack, PolledWire, Pushed, PushedBurst};
use ffi_words::figures::{Figures, Highest, Lengths, ReadNumbers, RtxStats, Timeout};
use ffi_words::{ConfigWords, SessionWords, answers, figures, writing};
use lost_nacked::{MAX_LOST_NACKED, REMEMBERED_WORDS};
use model::{Queue, Session};
use nack_pairs::read;
use packet_gaps::GAP_WORDS;
use poll::{nack, wire};
use push::rtx;
use queue::{open, reading};
use refusals::Refusal;
use storage::Held;

pub mod settings;

// The version of this library, as 1,000,000 · major + 1,000 · minor + patch; docs/VERSIONS.md says what changes it.
pub const VERSION: u64 = 3000;

// A refused opening gives a session of zeros.
// Stays: the header's parameters, here and below, which `ffi_c` hands on: a struct built there would only move its literal to that crate.
#[tactic(auto, unfolding(crate::specs::Exported::opened_words, crate::specs::Exported::opened_by))]
pub fn bizhgemu_open(
    config: ConfigWords,
    entries: &mut [u64],
    payloads: &mut [u8],
    gaps: &mut [u64],
    remembered: &mut [u64],
) -> Opened
    ensures { opened_words config (lent entries payloads gaps remembered) ≡ record { value = result; storage = left entries payloads gaps remembered; output = [] } }
{
    if !ffi_words::config_readable(config) {
        return answers::open_refused(Refusal::Settings);
    }
    let opening = open::open(
        ffi_words::config_of(config),
        entries,
        payloads,
        gaps,
        remembered,
    );
    answers::open_told(opening)
}

// In this and each later call: words that cannot be read are refused under 16, and a refused call gives the words back as they came.
// Stays: each exported name has its call, and the C interface wants each as a function.
pub fn bizhgemu_push(
    session: SessionWords,
    entries: &mut [u64],
    payloads: &mut [u8],
    gaps: &mut [u64],
    remembered: &mut [u64],
    now: u64,
    datagram: &[u8],
) -> Pushed
    ensures { Gives Told.pushed (Calls.media now datagram.now) session (lent entries payloads gaps remembered) result (left entries payloads gaps remembered) [] }
{
    let Some(read) = ffi_words::read(session) else {
        return answers::push_refused(Refusal::Session, session);
    };
    // Stays: `Held` in full, here and below. Of a slice lent to a function that puts it into a `Held`, the checker knows no more than its
    // length when this function returns: a `held(..)` with the slices' ghost names in its contract was proved, its callers were not.
    let mut q = Held {
        session: read,
        entries,
        payloads,
        gaps,
        remembered,
    };
    let answer = push::push(&mut q, now, datagram);
    answers::media_told(answer, session, q.session)
}

// Words that cannot be read stand for a session of zeros, which check 16 refuses.
#[tactic(auto, unfolding(crate::specs::Burst::session_in, ffi_words::specs::Words::read))]
fn session_in(words: SessionWords) -> Session
    ensures { result ≡ session_in words }
{
    ffi_words::read(words).unwrap_or_else(|| ffi_words::session_of(writing::no_session()))
}

// 02, point 4: a burst of media datagrams. The words come back as they came where no datagram was accepted.
// Stays: the header's parameters; the struct of session and storage is `Held`, and is built here.
pub fn bizhgemu_push_burst(
    session: SessionWords,
    entries: &mut [u64],
    payloads: &mut [u8],
    gaps: &mut [u64],
    remembered: &mut [u64],
    now: u64,
    buffer: &[u8],
    ends: &[u64],
    numbers: &mut [u8],
) -> PushedBurst
    ensures { called_burst now buffer.now ends.now numbers.old session (lent entries payloads gaps remembered) ≡ record { value = result; storage = left entries payloads gaps remembered; output = numbers.new } }
{
    let mut q = Held {
        session: session_in(session),
        entries,
        payloads,
        gaps,
        remembered,
    };
    let done = burst::push_burst(&mut q, now, buffer, ends, numbers);
    let accepted = burst::any_accepted(numbers, done.unwrap_or(0));
    answers::burst_told(done, accepted, session, q.session)
}

// Stays: the header's parameters, as above.
pub fn bizhgemu_push_rtx(
    session: SessionWords,
    entries: &mut [u64],
    payloads: &mut [u8],
    gaps: &mut [u64],
    remembered: &mut [u64],
    now: u64,
    datagram: &[u8],
) -> Pushed
    ensures { Gives Told.pushed (Calls.repair now datagram.now) session (lent entries payloads gaps remembered) result (left entries payloads gaps remembered) [] }
{
    let Some(read) = ffi_words::read(session) else {
        return answers::push_refused(Refusal::Session, session);
    };
    let mut q = Held {
        session: read,
        entries,
        payloads,
        gaps,
        remembered,
    };
    let answer = rtx::push_rtx(&mut q, now, datagram);
    answers::repair_told(answer, session, q.session)
}

// Stays: each exported name has its call and its output, and the C interface wants each as a function.
pub fn bizhgemu_poll(
    session: SessionWords,
    entries: &mut [u64],
    payloads: &mut [u8],
    gaps: &mut [u64],
    remembered: &mut [u64],
    now: u64,
    out: &mut [u8],
) -> Polled
    ensures { Gives Told.polled (Calls.poll now out.old) session (lent entries payloads gaps remembered) result (left entries payloads gaps remembered) out.new }
{
    let Some(read) = ffi_words::read(session) else {
        return answers::poll_refused(Refusal::Session, session);
    };
    let mut q = Held {
        session: read,
        entries,
        payloads,
        gaps,
        remembered,
    };
    let answer = poll::poll(&mut q, now, out);
    answers::poll_told(answer, session, q.session)
}

// Stays: the header's parameters, as above.
pub fn bizhgemu_poll_nack(
    session: SessionWords,
    entries: &mut [u64],
    payloads: &mut [u8],
    gaps: &mut [u64],
    remembered: &mut [u64],
    now: u64,
    out: &mut [u16],
) -> PolledNack
    ensures { Gives Told.polled_nack (Calls.poll_nack now out.old) session (lent entries payloads gaps remembered) result (left entries payloads gaps remembered) out.new }
{
    let Some(read) = ffi_words::read(session) else {
        return answers::nack_refused(Refusal::Session, session);
    };
    let mut q = Held {
        session: read,
        entries,
        payloads,
        gaps,
        remembered,
    };
    let answer = nack::poll_nack(&mut q, now, out);
    answers::nack_told(answer, session, q.session)
}

// Stays: the header's parameters, as above.
pub fn bizhgemu_nack_wire(
    session: SessionWords,
    entries: &mut [u64],
    payloads: &mut [u8],
    gaps: &mut [u64],
    remembered: &mut [u64],
    now: u64,
    out: &mut [u8],
) -> PolledWire
    ensures { Gives Told.polled_wire (Calls.nack_wire now out.old) session (lent entries payloads gaps remembered) result (left entries payloads gaps remembered) out.new }
{
    let Some(read) = ffi_words::read(session) else {
        return answers::wire_refused(Refusal::Session, session);
    };
    let mut q = Held {
        session: read,
        entries,
        payloads,
        gaps,
        remembered,
    };
    let answer = wire::nack_wire(&mut q, now, out);
    answers::wire_told(answer, session, q.session)
}

// The 16-bit numbers that the entries of a generic NACK name. No session is needed.
#[tactic(auto, unfolding(crate::specs::Exported::read_nacks))]
pub fn bizhgemu_read_nacks(entries: &[u8], out: &mut [u16]) -> ReadNumbers
    ensures { Exported.read_nacks entries.now out.old ≡ record { value = result; list = out.new } }
{
    figures::numbers_told(read::read(entries, out))
}

// Stays: each exported name has its call, and the C interface wants each as a function.
pub fn bizhgemu_timeout_receive(
    session: SessionWords,
    entries: &mut [u64],
    payloads: &mut [u8],
    gaps: &mut [u64],
    remembered: &mut [u64],
    now: u64,
) -> Timeout
    ensures { Gives (alone Told.timeout_told) (Calls.timeout_receive now) session (lent entries payloads gaps remembered) result (left entries payloads gaps remembered) [] }
{
    let Some(read) = ffi_words::read(session) else {
        return figures::timeout_refused(Refusal::Session);
    };
    let mut q = Held {
        session: read,
        entries,
        payloads,
        gaps,
        remembered,
    };
    let answer = reading::timeout_receive(&mut q, now);
    figures::timeout_told(answer)
}

// Stays: the header's parameters, as above.
pub fn bizhgemu_timeout_nack(
    session: SessionWords,
    entries: &mut [u64],
    payloads: &mut [u8],
    gaps: &mut [u64],
    remembered: &mut [u64],
    now: u64,
) -> Timeout
    ensures { Gives (alone Told.timeout_told) (Calls.timeout_nack now) session (lent entries payloads gaps remembered) result (left entries payloads gaps remembered) [] }
{
    let Some(read) = ffi_words::read(session) else {
        return figures::timeout_refused(Refusal::Session);
    };
    let mut q = Held {
        session: read,
        entries,
        payloads,
        gaps,
        remembered,
    };
    let answer = reading::timeout_nack(&mut q, now);
    figures::timeout_told(answer)
}

// Stays: each exported name has its call, and the C interface wants each as a function.
pub fn bizhgemu_rtx_stats(
    session: SessionWords,
    entries: &mut [u64],
    payloads: &mut [u8],
    gaps: &mut [u64],
    remembered: &mut [u64],
) -> RtxStats
    ensures { Gives (alone Told.stats_told) Calls.rtx_stats session (lent entries payloads gaps remembered) result (left entries payloads gaps remembered) [] }
{
    let Some(read) = ffi_words::read(session) else {
        return figures::stats_refused(Refusal::Session);
    };
    let mut q = Held {
        session: read,
        entries,
        payloads,
        gaps,
        remembered,
    };
    let answer = reading::rtx_stats(&mut q);
    figures::stats_told(answer)
}

// Stays: the header's parameters, as above.
pub fn bizhgemu_highest_sequence_number_received(
    session: SessionWords,
    entries: &mut [u64],
    payloads: &mut [u8],
    gaps: &mut [u64],
    remembered: &mut [u64],
) -> Highest
    ensures { Gives (alone Told.highest_told) Calls.highest_received session (lent entries payloads gaps remembered) result (left entries payloads gaps remembered) [] }
{
    let Some(read) = ffi_words::read(session) else {
        return figures::highest_refused(Refusal::Session);
    };
    let mut q = Held {
        session: read,
        entries,
        payloads,
        gaps,
        remembered,
    };
    let answer = reading::highest_sequence_number_received(&mut q);
    figures::highest_told(answer)
}

// Stays: a `From` would have to stand in a crate of the two types, `model` or `ffi_words`, and neither imports the checks that this asks.
#[tactic(auto, unfolding(crate::specs::Exported::queue_figures, crate::specs::Exported::figures_of))]
fn figures_told(q: Queue) -> Figures
    ensures { result ≡ Exported.queue_figures q }
{
    let config = q.config;
    if !(checks::config_valid(config) && checks::queue_sound(q)) {
        return figures::figures_refused(Refusal::Session);
    }
    let counters = q.counters;
    let jitter = q.jitter;
    let loss = q.loss;
    Figures {
        refusal: 0,
        packets_received: counters.received,
        packets_dropped: counters.dropped,
        packets_lost: counters.lost,
        bytes_received: counters.bytes,
        jitter: jitter.get(),
        loss: loss.get(),
    }
}

// The inbound stream; refused under 16 where the settings or the session's own records do not pass it.
#[tactic(auto, using(crate::proofs::Given::is_unread), unfolding(crate::specs::Exported::figures))]
pub fn bizhgemu_figures(session: SessionWords) -> Figures
    ensures { result ≡ Exported.figures session }
{
    match ffi_words::read(session) {
        Some(s) => figures_told(s.queue),
        None => figures::figures_refused(Refusal::Session),
    }
}

fn no_lengths() -> Lengths
    ensures { result ≡ Exported.no_lengths }
{
    Lengths {
        refusal: Refusal::Settings.number(),
        ..Lengths::default()
    }
}

// How long the lent slices are to be, by D and G.
#[tactic(auto, unfolding(crate::specs::Exported::lengths))]
pub fn bizhgemu_lengths(max_entries: usize, max_gaps: usize) -> Lengths
    ensures { result ≡ Exported.lengths max_entries max_gaps }
{
    if !(config::depth_valid(max_entries) && config::gaps_valid(max_gaps)) {
        return no_lengths();
    }
    let places = 2 * max_entries;
    Lengths {
        refusal: 0,
        entries: ENTRY_WORDS * places,
        payloads: PAYLOAD_BYTES * places,
        gaps: GAP_WORDS * max_gaps,
        remembered: REMEMBERED_WORDS * MAX_LOST_NACKED,
    }
}

// So that a program can tell an archive that is not its header's.
pub fn bizhgemu_version() -> u64
    ensures { result ≡ Exported.VERSION }
{
    VERSION
}

// What the caller has after one call, the next one takes up.
#[tactic(auto, using(crate::proofs::Follows::follows))]
pub fn calls_follow()
    ensures { Follows }
{}

// Demand 3 of every run of exported calls, each on the words and the storage that the last one left.
#[tactic(auto, using(crate::proofs::Runs::every_run_in_words))]
pub fn every_run()
    ensures { EveryRunInWords }
{}

// A burst counts as its media calls in such a run.
#[tactic(auto, using(crate::proofs::Burst::burst_follows))]
pub fn burst_follows()
    ensures { BurstFollows }
{}
