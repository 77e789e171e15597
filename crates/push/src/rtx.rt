// `push_rtx` (000): a repair (RFC 4588), from the datagram's bytes to the gap that it fills.
ghost use Rattle.std.specs.Prelude.{◌≡◌, true, [], ℕ, ◌*◌, ◌≤◌, ◌<◌, length, None, Some};
ghost use Rattle.words.specs.Order.{ascends};
ghost use Rattle.refusals.specs.Refusals.{refusal_of, entries_full, refuse_if};
ghost use Rattle.rtp_packet.specs.Datagram.{largest_payload, largest_repair};
ghost use Rattle.model.specs.Records as Records;
ghost use Rattle.model.specs.Push as Push;
ghost use Rattle.model.specs.Storage.{gap_words, gaps_of};
ghost use Rattle.model.specs.Calls.{repair};
ghost use Rattle.model.specs.Table.{session_sound, no_place, fate_refusal};
ghost use Rattle.entries.specs.Entries.{entry};
ghost use Rattle.session.specs.Place as Spec;
ghost use Rattle.push.specs.Answers.{repair_answer};
ghost use Rattle.model.specs.Contract.{Does};
ghost use Rattle.storage.specs.Held.{held, SameSlices};
ghost use Rattle.storage.specs.Settled.{Settled};
ghost use Rattle.push.specs.Repair.{FitRepair, left_after, repaired_by, did_repair, did_original};

use entries::Entry;
use model::Session;
use refusals::Refusal;
use rtp::{ExtendedSequenceNumber, SequenceNumber};
use rtp_packet::RtpPacket;
use session::rtx::Fate;
use storage::Held;

// A repair that no check turns back: when it came, the entry that it becomes where it fills a gap, and its payload.
#[derive(Clone, Copy)]
struct Repair<'a> {
    instant: u64,
    entry: Entry,
    payload: &'a [u8],
}

// What becomes of a repair of the number x.
// Stays: a type of a session that check 16 passed would be made anew after each write (`settle`, `apply`), for clauses of one line; and
// with the number it would be one more, made for this call.
#[tactic(auto, unfolding(session::specs::Place::fate, model::specs::Push::fate_in))]
fn repair_fate(q: &Held, x: ExtendedSequenceNumber) -> Fate
    requires n_in_bounds { gap_words * q.now.session.gaps ≤ length q.now.gaps.now }
    requires n_value { ascends (Records.gap_numbers (gaps_of q.now.gaps.now q.now.session.gaps)) ≡ true }
    ensures { Spec.fate result ≡ Push.fate_in q.now.session.queue (gaps_of q.now.gaps.now q.now.session.gaps) x.0 }
{
    let s = q.session;
    if session::passed(s.queue, x) {
        return Fate::TooLate;
    }
    if packet_gaps::contains(q.gaps, s.gaps, x) {
        return Fate::Recovered;
    }
    Fate::Redundant
}

// 13: "repair would be inserted with 2 · D entries held".
#[tactic(auto, unfolding(session::specs::Place::fate, model::specs::Table::no_place, refusals::specs::Refusals::refuse_if))]
fn check_entries(places: usize, n: usize, fate: Fate) -> Result<(), Refusal>
    ensures { refusal_of result ≡ refuse_if (no_place places n (Spec.fate fate)) entries_full }
{
    if matches!(fate, Fate::Recovered) && places <= n {
        return Err(Refusal::EntriesFull);
    }
    Ok(())
}

// 14, then 13, in a session that check 16 passes.
fn check_fate(s: Session, e: Entry, fate: Fate) -> Result<(), Refusal>
    requires { s.queue.config.settings.max_entries ≤ 1024 }
    ensures { refusal_of result ≡ fate_refusal s.queue s.entries e.timestamp.0 e.number.0 e.size (Spec.fate fate) }
{
    let q = s.queue;
    let settings = q.config.settings;
    session::rtx::check_counts(q.rtx, e.timestamp, e.number, e.size as u64, fate)?;
    check_entries(2 * settings.max_entries, s.entries, fate)
}

// How many are left of n, where `taken` says whether one went.
#[tactic(auto, unfolding(crate::specs::Repair::left_after))]
fn left_after(n: usize, taken: Option<u64>) -> usize
    requires { (i : ℕ) → taken ≡ Some i → 0 < n }
    ensures { result ≡ left_after n taken }
{
    match taken {
        None => n,
        Some(_) => n - 1,
    }
}

impl Repair<'_> {
    // It comes too late: the number is remembered no longer, and yields a sample if it was.
    // Stays: a type that says settled would not hold here between the write to the remembered numbers and those to the session.
    fn too_late(&self, q: &mut Held)
        requires { Settled (held q.old) }
        ensures same_slices { SameSlices q.old q.new }
        ensures left { held q.new ≡ repaired_by self.now Fate.TooLate (held q.old) }
    {
        let s = q.session;
        let nacked = lost_nacked::forget(q.remembered, s.remembered, self.entry.number);
        let queue = session::rtx::too_late(s.queue, self.instant, nacked);
        let left = left_after(s.remembered, nacked);
        q.session.queue = queue;
        q.session.remembered = left;
    }

    // It fills its gap.
    fn recover(&self, q: &mut Held)
        requires { FitRepair self.now Fate.Recovered (held q.old) }
        ensures same_slices { SameSlices q.old q.new }
        ensures left { held q.new ≡ repaired_by self.now Fate.Recovered (held q.old) }
    {
        let s = q.session;
        let e = self.entry;
        let nacked = packet_gaps::remove(q.gaps, s.gaps, e.number);
        entries::insert(q.entries, q.payloads, s.entries, e, self.payload);
        let queue = session::rtx::recovered(s.queue, self.instant, nacked, e.size as u64);
        q.session = Session {
            queue,
            entries: s.entries + 1,
            gaps: s.gaps - 1,
            ..s
        };
    }

    // What becomes of it.
    #[tactic(auto, using(crate::proofs::Repaired::redundant_is), unfolding(session::specs::Place::fate))]
    fn apply(&self, q: &mut Held, fate: Fate)
        requires { FitRepair self.now fate (held q.old) }
        ensures same_slices { SameSlices q.old q.new }
        ensures left { held q.new ≡ repaired_by self.now fate (held q.old) }
    {
        // Stays: three closures would each hold the session and the repair.
        match fate {
            Fate::TooLate => self.too_late(q),
            Fate::Recovered => self.recover(q),
            Fate::Redundant => {
                let queue = session::rtx::redundant(q.session.queue, self.instant);
                q.session.queue = queue;
            }
        }
    }
}

// A repair of this number that no check before 14 turns back.
// Stays: the instant is one call's; and a type that says sound would not hold of the session that `settle` changes here.
fn push_original(
    q: &mut Held,
    instant: u64,
    p: RtpPacket,
    number: SequenceNumber,
    payload: &[u8],
) -> Result<Fate, Refusal>
    requires sound { session_sound (held q.old) ≡ true }
    requires payload_len_bound { length payload.now ≤ largest_payload }
    ensures same_slices { SameSlices q.old q.new }
    ensures does { did_repair instant (Push.extended_entry q.old.session.queue None p.timestamp.0 number.0 p.marker payload.now) (held q.old) ≡ record { answer = repair_answer result; stored = held q.new; output = [] } }
{
    let s = q.session;
    let e = super::extended_entry(s.queue, None, p, number, payload.len());
    let fate = repair_fate(q, e.number);
    check_fate(s, e, fate)?;
    q.settle();
    let repair = Repair {
        instant,
        entry: e,
        payload,
    };
    repair.apply(q, fate);
    Ok(fate)
}

// A repair that no check before 10 turns back; its payload begins with the original number.
// Stays: the instant is one call's; and a type that says sound would not hold of the session that `push_original` changes.
fn push_repair(q: &mut Held, instant: u64, p: RtpPacket, payload: &[u8]) -> Result<Fate, Refusal>
    requires sound { session_sound (held q.old) ≡ true }
    requires payload_len_bound { length payload.now ≤ largest_repair }
    ensures same_slices { SameSlices q.old q.new }
    ensures does { did_original instant p payload.now (held q.old) ≡ record { answer = repair_answer result; stored = held q.new; output = [] } }
{
    checks::check_media_first(q.session.queue)?;
    let number = rtp_packet::original_number(payload)?;
    let rest = rtp_packet::original_payload(payload);
    push_original(q, instant, p, number, rest)
}

// A repair, in a datagram that came at this instant.
// Stays: the session is lent and outlives the call, and the instant is this call's alone (the C interface has both as parameters).
pub fn push_rtx(q: &mut Held, now: u64, datagram: &[u8]) -> Result<Fate, Refusal>
    ensures same_slices { SameSlices q.old q.new }
    ensures does { Does (repair now datagram.now) (held q.old) (repair_answer result) (held q.new) [] }
{
    q.check_session_and_clock(now)?;
    let queue = q.session.queue;
    checks::check_rtx(queue)?;
    let senders = queue.config.senders;
    let p = rtp_packet::parse_repair(datagram, senders.rtx_pt, senders.rtx_ssrc)?;
    let payload = rtp_packet::payload(datagram, p);
    push_repair(q, now, p, payload)
}
