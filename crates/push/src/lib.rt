// `push` (000): a media packet, from the datagram's bytes to its place in the storage.
#![tactic(auto)]

ghost use Rattle.std.specs.Prelude.{◌≡◌, true, List, [], ℕ, suc, ◌+◌, ◌≤◌, ◌<◌, Ok};
ghost use Rattle.refusals.specs.Refusals.{refusal_of};
ghost use Rattle.model.specs.Rules as Rules;
ghost use Rattle.model.specs.Push as Push;
ghost use Rattle.model.specs.Storage.{parse, write};
ghost use Rattle.model.specs.Calls.{media, placed_answer, answered, taken};
ghost use Rattle.model.specs.Table.{session_sound, packet_refusal};
ghost use Rattle.entries.specs.Entries.{entry};
ghost use Rattle.session.specs.Place as Spec;
ghost use Rattle.push.specs.Answers.{media_answer};
ghost use Rattle.model.specs.Contract.{stored, Does};
ghost use Rattle.storage.specs.Held.{held, SameSlices};
ghost use Rattle.push.specs.Receiving.{receiving, SameParts};
ghost use Rattle.push.specs.Media.{Readable, Read, FoundIn, JudgedAs, Fit, Waiting, received, placed_by};
ghost use Rattle.storage.specs.Settled.{Settled};

use entries::Entry;
use model::{Queue, Received, Session};
use refusals::Refusal;
use rtp::SequenceNumber;
use rtp_packet::RtpPacket;
use session::push::Place;
use storage::Held;

mod place;
pub mod rtx;

// What becomes of a media packet that no check turns back.
#[derive(Clone, Copy)]
pub enum Media {
    Queued,
    Dropped,
}

// A session with the slices that are lent for it, as a media packet needs them: the remembered numbers it leaves alone, so they are lent to be
// read.
#[derive(Drop)]
struct Receiving<'a> {
    session: &'a mut Session,
    entries: &'a mut [u64],
    payloads: &'a mut [u8],
    gaps: &'a mut [u64],
    remembered: &'a [u64],
}

// What was found of a datagram that no check turns back: its packet, the entry that it becomes, and where its number stands.
#[derive(Clone, Copy)]
pub struct Found {
    pub instant: u64,
    pub packet: RtpPacket,
    pub entry: Entry,
    pub place: Place,
}

// An accepted packet, and its payload.
#[derive(Clone, Copy)]
struct Accepted<'a> {
    found: Found,
    payload: &'a [u8],
}

// The entry that a packet becomes, without its payload; the number is the packet's own, or the original one of a repair.
#[tactic(auto, unfolding(model::specs::Push::extended_entry))]
fn extended_entry(
    q: Queue,
    arrival: Option<u64>,
    p: RtpPacket,
    number: SequenceNumber,
    size: usize,
) -> Entry
    ensures by_index { (payload : List ℕ) → entry result payload ≡ Push.extended_entry q arrival p.timestamp.0 number.0 p.marker payload }
    ensures size_value { (result.size ≡ size) × (result.arrival ≡ arrival) }
{
    let extended = session::extended_number(q, number);
    let timestamp = session::extended_timestamp(q, p.timestamp);
    Entry {
        arrival,
        timestamp,
        number: extended,
        marker: p.marker,
        size,
    }
}

// Whether one more entry would be beyond the depth.
#[tactic(auto, using(crate::proofs::Queueing::full_is))]
fn is_full(s: Session) -> bool
    ensures { result ≡ Rules.overfull s.queue.config.settings (suc s.entries) }
{
    s.queue.config.settings.max_entries <= s.entries
}

// 14, then 12, in a session that check 16 passes.
fn check_packet(s: Session, e: Entry, place: Place) -> Result<(), Refusal>
    requires { s.gaps ≤ s.queue.config.settings.max_gaps }
    ensures { refusal_of result ≡ packet_refusal s.queue s.entries s.gaps e.timestamp.0 e.number.0 e.size (Spec.place place) }
{
    let q = s.queue;
    let settings = q.config.settings;
    let full = is_full(s);
    let waits = session::push::waits(place);
    session::push::check_counts(
        q.counters,
        e.timestamp,
        e.number,
        e.size as u64,
        waits,
        full,
    )?;
    session::push::check_gaps(settings, s.gaps, e.number, place)
}

impl Accepted<'_> {
    // Its instant, timestamp and number.
    fn received(&self) -> Received
        ensures { result ≡ received self.now }
    {
        let f = self.found;
        Received {
            instant: f.instant,
            timestamp: f.entry.timestamp,
            number: f.entry.number,
        }
    }

    // Queues it below the depth.
    fn insert(&self, q: &mut Receiving)
        requires waiting { Waiting self.now (receiving q.old) }
        requires below { q.old.session.now.entries < q.old.session.now.queue.config.settings.max_entries }
        ensures same_parts { SameParts q.old q.new }
        ensures placed { receiving q.new ≡ placed_by self.now (receiving q.old) }
    {
        let s = *q.session;
        let f = self.found;
        let e = f.entry;
        let queue = session::push::queued(s.queue, self.received(), e.size as u64, f.place);
        entries::insert(q.entries, q.payloads, s.entries, e, self.payload);
        let open = place::gaps_after(q.gaps, s.gaps, f.place, e.number, f.instant);
        *q.session = Session {
            queue,
            entries: s.entries + 1,
            gaps: open,
            ..s
        };
    }

    // Queues it at the depth or above: the front one is pushed out, and the gaps below that go.
    fn push_out(&self, q: &mut Receiving)
        requires waiting { Waiting self.now (receiving q.old) }
        requires full { q.old.session.now.queue.config.settings.max_entries ≤ q.old.session.now.entries }
        ensures same_parts { SameParts q.old q.new }
        ensures placed { receiving q.new ≡ placed_by self.now (receiving q.old) }
    {
        let s = *q.session;
        let f = self.found;
        let e = f.entry;
        let queued = session::push::queued(s.queue, self.received(), e.size as u64, f.place);
        let front = entries::push_out(q.entries, q.payloads, s.entries, e, self.payload);
        let open = place::gaps_after(q.gaps, s.gaps, f.place, e.number, f.instant);
        let left = place::gaps_from(q.gaps, open, front);
        let queue = session::push::pushed_out(queued, front);
        *q.session = Session {
            queue,
            gaps: left,
            ..s
        };
    }

    // Drops it or queues it.
    #[tactic(auto, using(crate::proofs::Queueing::full_is, crate::proofs::Queueing::dropped_fits, crate::proofs::Queueing::dropped_packet), unfolding(model::specs::Calls::placed_answer))]
    fn place(&self, q: &mut Receiving) -> Media
        requires { Fit self.now (receiving q.old) }
        ensures same_parts { SameParts q.old q.new }
        ensures answer_value { media_answer (Ok result) ≡ placed_answer (Spec.place self.now.found.place) }
        ensures placed { receiving q.new ≡ placed_by self.now (receiving q.old) }
    {
        if !session::push::waits(self.found.place) {
            let queue = session::push::dropped(q.session.queue, self.received());
            q.session.queue = queue;
            return Media::Dropped;
        }
        if is_full(*q.session) {
            self.push_out(q);
        } else {
            self.insert(q);
        }
        Media::Queued
    }
}

// 14, then 12, of the packet that the datagram holds; or what was found of it.
// Stays: instant and datagram are one call's and the session outlives it; a type of the two would be made at each call and taken apart here.
// And a type that says `Readable` would be made anew after each write to a session, for these two functions.
fn judge_packet(
    s: Session,
    gaps: &[u64],
    instant: u64,
    datagram: &[u8],
    packet: RtpPacket,
) -> Result<Found, Refusal>
    requires readable { Readable s gaps.now }
    requires read { Read instant datagram.now packet s.queue }
    ensures { (entries payloads remembered : List ℕ) → JudgedAs instant datagram.now (parse (stored s entries payloads gaps.now remembered)) result }
{
    let payload = rtp_packet::payload(datagram, packet);
    let entry = extended_entry(
        s.queue,
        Some(instant),
        packet,
        packet.sequence_number,
        payload.len(),
    );
    let place = place::media_place(s, gaps, entry.number);
    check_packet(s, entry, place)?;
    Ok(Found {
        instant,
        packet,
        entry,
        place,
    })
}

// The checks of a media packet after 16, in a datagram that came at this instant. Of the storage the gaps alone are read.
// Stays: as `judge_packet`; and a `Held` would ask for the other three slices too, all of them exclusive.
pub fn judge(s: Session, gaps: &[u64], instant: u64, datagram: &[u8]) -> Result<Found, Refusal>
    requires { Readable s gaps.now }
    ensures { (entries payloads remembered : List ℕ) → JudgedAs instant datagram.now (parse (stored s entries payloads gaps.now remembered)) result }
{
    checks::check_clock(s.queue, instant)?;
    let senders = s.queue.config.senders;
    let packet = rtp_packet::parse_media(datagram, senders.pt, senders.ssrc)?;
    judge_packet(s, gaps, instant, datagram, packet)
}

// What an accepted packet makes of the session, in storage that is settled. It cannot refuse.
// Stays: the remembered numbers are lent to be read, where a `Held` would ask for them to be written; a struct of the others that is made
// beside a `Held` has no rule yet. And a type that says settled would not hold between the writes to entries, gaps and session that this makes.
pub fn apply(
    session: &mut Session,
    entries: &mut [u64],
    payloads: &mut [u8],
    gaps: &mut [u64],
    remembered: &[u64],
    found: Found,
    datagram: &[u8],
) -> Media
    requires settled { Settled (stored session.old entries.old payloads.old gaps.old remembered.now) }
    requires found_in { FoundIn found datagram.now (parse (stored session.old entries.old payloads.old gaps.old remembered.now)) }
    ensures answer_value { media_answer (Ok result) ≡ answered (media found.instant datagram.now) (parse (stored session.old entries.old payloads.old gaps.old remembered.now)) }
    ensures left { stored session.new entries.new payloads.new gaps.new remembered.now ≡ write (taken (media found.instant datagram.now) (parse (stored session.old entries.old payloads.old gaps.old remembered.now))) }
{
    let payload = rtp_packet::payload(datagram, found.packet);
    let accepted = Accepted { found, payload };
    let mut receiving = Receiving {
        session,
        entries,
        payloads,
        gaps,
        remembered,
    };
    accepted.place(&mut receiving)
}

// A media packet in a session that check 16 passes: judge, settle, apply.
// Stays: instant and datagram are one call's, as of `judge`; and a type that says sound would not hold of the session that `settle` changes here.
pub fn push_checked(q: &mut Held, instant: u64, datagram: &[u8]) -> Result<Media, Refusal>
    requires { session_sound (held q.old) ≡ true }
    ensures same_slices { SameSlices q.old q.new }
    ensures does { Does (media instant datagram.now) (held q.old) (media_answer result) (held q.new) [] }
{
    // By variables, here and below: of a field that is lent on from here itself, no more than its length would be known afterwards.
    let gaps = &mut *q.gaps;
    let found = judge(q.session, gaps, instant, datagram)?;
    q.settle();
    let session = &mut q.session;
    let entries = &mut *q.entries;
    let payloads = &mut *q.payloads;
    let gaps = &mut *q.gaps;
    let remembered = &mut *q.remembered;
    Ok(apply(
        session, entries, payloads, gaps, remembered, found, datagram,
    ))
}

// The same where zeros stand in the unused places already: judge, apply.
// Stays: as `apply`; instant and datagram are one call's, as of `judge`.
pub fn push_settled(
    session: &mut Session,
    entries: &mut [u64],
    payloads: &mut [u8],
    gaps: &mut [u64],
    remembered: &[u64],
    instant: u64,
    datagram: &[u8],
) -> Result<Media, Refusal>
    requires { Settled (stored session.old entries.old payloads.old gaps.old remembered.now) }
    ensures { Does (media instant datagram.now) (stored session.old entries.old payloads.old gaps.old remembered.now) (media_answer result) (stored session.new entries.new payloads.new gaps.new remembered.now) [] }
{
    let found = judge(*session, gaps, instant, datagram)?;
    Ok(apply(
        session, entries, payloads, gaps, remembered, found, datagram,
    ))
}

// A media packet, in a datagram that came at this instant.
// Stays: the session is lent and outlives the call, and the instant is this call's alone (the C interface has both as parameters).
#[tactic(auto, using(storage::proofs::Settled::passed_16, crate::proofs::Pushing::push_damaged))]
pub fn push(q: &mut Held, now: u64, datagram: &[u8]) -> Result<Media, Refusal>
    ensures same_slices { SameSlices q.old q.new }
    ensures does { Does (media now datagram.now) (held q.old) (media_answer result) (held q.new) [] }
{
    q.check_session()?;
    push_checked(q, now, datagram)
}
