// 01's check 16 on the session and the lent slices, which every call makes first, and the zeros that an accepted call leaves in the places
// that are not used.
#![tactic(auto, unfolding(model::specs::Valid::counts_fit, model::specs::Storage::lengths_fit, model::specs::Table::session_refusal, refusals::specs::Refusals::refuse_if))]

ghost use Rattle.std.specs.Prelude.{◌≡◌, true, List, ℕ, ◌*◌, ◌≤◌, length};
ghost use Rattle.refusals.specs.Refusals.{refusal_of, or_else};
ghost use Rattle.model.specs.Valid.{counts_fit, lists_sound};
ghost use Rattle.model.specs.Storage.{entry_words, gap_words, remembered_words, lengths_fit, parse, write};
ghost use Rattle.model.specs.Table.{session_sound, session_refusal, clock_refusal};
ghost use Rattle.model.specs.Contract.{storage, stored};
ghost use Rattle.storage.specs.Held.{held, SameSlices};

use config::Settings;
use entries::{ENTRY_WORDS, PAYLOAD_BYTES};
use lost_nacked::{MAX_LOST_NACKED, REMEMBERED_WORDS};
use model::Session;
use packet_gaps::GAP_WORDS;
use refusals::Refusal;

// A session, and the slices that the caller lends for it.
#[derive(Drop)]
pub struct Held<'a> {
    pub session: Session,
    pub entries: &'a mut [u64],
    pub payloads: &'a mut [u8],
    pub gaps: &'a mut [u64],
    pub remembered: &'a mut [u64],
}

// Whether the slices have the lengths that the settings ask for.
// Stays: C lends the four slices, and the opening asks this of them before there is a session that a `Held` could have.
pub fn lengths_fit(
    set: Settings,
    entries: &[u64],
    payloads: &[u8],
    gaps: &[u64],
    remembered: &[u64],
) -> bool
    requires { (set.max_entries ≤ 1024) × (set.max_gaps ≤ 4096) }
    ensures { result ≡ lengths_fit set (storage entries.now payloads.now gaps.now remembered.now) }
{
    let places = 2 * set.max_entries;
    (entries.len() == ENTRY_WORDS * places)
        & (payloads.len() == PAYLOAD_BYTES * places)
        & (gaps.len() == GAP_WORDS * set.max_gaps)
        & (remembered.len() == REMEMBERED_WORDS * MAX_LOST_NACKED)
}

// "more than 2 · D entries, G gaps or 1,024 remembered"
fn counts_fit(s: Session) -> bool
    requires { s.queue.config.settings.max_entries ≤ 1024 }
    ensures { result ≡ counts_fit s.queue.config.settings s.entries s.gaps s.remembered }
{
    let set = s.queue.config.settings;
    (s.entries <= 2 * set.max_entries)
        & (s.gaps <= set.max_gaps)
        & (s.remembered <= MAX_LOST_NACKED)
}

// Row 16 for the three lists. The payloads' bytes are not looked at.
// Stays: `session_sound` hands them on, and has shared slices.
fn lists_sound(s: Session, entries: &[u64], gaps: &[u64], remembered: &[u64]) -> bool
    requires { (entry_words * s.entries ≤ length entries.now) × (gap_words * s.gaps ≤ length gaps.now) × (remembered_words * s.remembered ≤ length remembered.now) }
    ensures { (payloads : List ℕ) → result ≡ lists_sound (parse (stored s entries.now payloads gaps.now remembered.now)) }
{
    let bounds = packet_gaps::check::bounds_of(s.queue);
    // Stays: with `&&` in place of these returns the check left goals open that were not closed by hand either.
    if !packet_gaps::check::are_sound(gaps, s.gaps, bounds) {
        return false;
    }
    if !entries::check::are_sound(entries, s.entries, bounds, gaps, s.gaps) {
        return false;
    }
    lost_nacked::are_sound(remembered, s.remembered, s.queue.clock)
}

// Row 16 whole.
// Stays: nothing is written, so shared slices do; a `Held` would ask for exclusive ones.
pub fn session_sound(
    s: Session,
    entries: &[u64],
    payloads: &[u8],
    gaps: &[u64],
    remembered: &[u64],
) -> bool
    ensures { result ≡ session_sound (stored s entries.now payloads.now gaps.now remembered.now) }
{
    let set = s.queue.config.settings;
    // Stays: as above; each requirement rests on the tests before it.
    if !checks::config_valid(s.queue.config) {
        return false;
    }
    if !lengths_fit(set, entries, payloads, gaps, remembered) {
        return false;
    }
    if !counts_fit(s) {
        return false;
    }
    if !checks::queue_sound(s.queue) {
        return false;
    }
    lists_sound(s, entries, gaps, remembered)
}

// 16: session or storage damaged.
// Stays: as `session_sound`.
pub fn check_session(
    s: Session,
    entries: &[u64],
    payloads: &[u8],
    gaps: &[u64],
    remembered: &[u64],
) -> Result<(), Refusal>
    ensures { refusal_of result ≡ session_refusal (stored s entries.now payloads.now gaps.now remembered.now) }
{
    if session_sound(s, entries, payloads, gaps, remembered) {
        return Ok(());
    }
    Err(Refusal::Session)
}

// 16, then 8: the first checks of a call with an instant and no output.
// Stays: as `session_sound`.
pub fn check_session_and_clock(
    s: Session,
    entries: &[u64],
    payloads: &[u8],
    gaps: &[u64],
    remembered: &[u64],
    instant: u64,
) -> Result<(), Refusal>
    ensures { refusal_of result ≡ or_else (session_refusal (stored s entries.now payloads.now gaps.now remembered.now)) (clock_refusal s.queue instant) }
{
    check_session(s, entries, payloads, gaps, remembered)?;
    checks::check_clock(s.queue, instant)
}

// The same checks of a session with the slices that are lent for it.
impl Held<'_> {
    // Row 16 whole.
    // Stays: each of these hands session and slices on to the check of its name; one body for all would be given the check as a closure.
    pub fn session_sound(&self) -> bool
        ensures { result ≡ session_sound (held self.now) }
    {
        session_sound(
            self.session,
            self.entries,
            self.payloads,
            self.gaps,
            self.remembered,
        )
    }

    // 16: session or storage damaged.
    pub fn check_session(&self) -> Result<(), Refusal>
        ensures { refusal_of result ≡ session_refusal (held self.now) }
    {
        check_session(
            self.session,
            self.entries,
            self.payloads,
            self.gaps,
            self.remembered,
        )
    }

    // 16, then 8.
    pub fn check_session_and_clock(&self, instant: u64) -> Result<(), Refusal>
        ensures { refusal_of result ≡ or_else (session_refusal (held self.now)) (clock_refusal self.now.session.queue instant) }
    {
        check_session_and_clock(
            self.session,
            self.entries,
            self.payloads,
            self.gaps,
            self.remembered,
            instant,
        )
    }

    // Zeros in every place of the storage that the session does not use.
    pub fn settle(&mut self)
        requires { session_sound (held self.old) ≡ true }
        ensures same_slices { SameSlices self.old self.new }
        ensures same_session { self.new.session ≡ self.old.session }
        ensures settled { held self.new ≡ write (parse (held self.old)) }
    {
        let s = self.session;
        entries::check::tidy(self.entries, self.payloads, s.entries);
        packet_gaps::check::tidy(self.gaps, s.gaps);
        lost_nacked::tidy(self.remembered, s.remembered);
    }
}
