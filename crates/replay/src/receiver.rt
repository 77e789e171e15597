// A session beside the storage that it is lent, and the calls on it.
use config::{MAX_DEPTH, MAX_GAPS, Settings};
use entries::{ENTRY_WORDS, PAYLOAD_BYTES};
use lost_nacked::{MAX_LOST_NACKED, REMEMBERED_WORDS};
use model::{Config, Session};
use packet_gaps::GAP_WORDS;
use refusals::Refusal;
use std::alloc::{AllocError, Global};
use storage::Held;

// The first `places` of a part of the storage, or of an output, as far as there are.
pub(crate) fn lend<T>(output: &mut [T], places: usize) -> &mut [T] {
    let size = places.min(output.len());
    &mut output[..size]
}

// What is lent to sessions: as much as the largest asks for, of which each one has the front.
#[derive(Drop)]
pub struct Storage {
    pub entries: Vec<u64>,
    pub payloads: Vec<u8>,
    pub gaps: Vec<u64>,
    pub remembered: Vec<u64>,
}

impl Storage {
    pub(crate) fn new(alloc: Global) -> Result<Self, AllocError> {
        Ok(Storage {
            entries: vec![in alloc; 0u64; 2 * MAX_DEPTH * ENTRY_WORDS]?,
            payloads: vec![in alloc; 0u8; 2 * MAX_DEPTH * PAYLOAD_BYTES]?,
            gaps: vec![in alloc; 0u64; MAX_GAPS * GAP_WORDS]?,
            remembered: vec![in alloc; 0u64; MAX_LOST_NACKED * REMEMBERED_WORDS]?,
        })
    }

    // The parts that the settings ask for; of a D or a G over the largest, which the opening refuses, as much as that asks for.
    fn parts(&mut self, settings: Settings) -> (&mut [u64], &mut [u8], &mut [u64], &mut [u64]) {
        // Each one of D asks for two places of an entry.
        let places = 2 * settings.max_entries.min(MAX_DEPTH);
        let gaps = settings.max_gaps.min(MAX_GAPS);
        (
            lend(&mut self.entries, places * ENTRY_WORDS),
            lend(&mut self.payloads, places * PAYLOAD_BYTES),
            lend(&mut self.gaps, gaps * GAP_WORDS),
            &mut self.remembered,
        )
    }

    // A refused opening leaves the storage as it was, which the session that is open is lent.
    pub(crate) fn open(&mut self, config: Config) -> Result<Session, Refusal> {
        let (entries, payloads, gaps, remembered) = self.parts(config.settings);
        queue::open::open(config, entries, payloads, gaps, remembered)
    }

    // A session, and what it is lent.
    fn held(&mut self, session: Session) -> Held<'_> {
        let (entries, payloads, gaps, remembered) = self.parts(session.queue.config.settings);
        Held {
            session,
            entries,
            payloads,
            gaps,
            remembered,
        }
    }
}

// The session that is open, and the storage of which it is lent a part.
#[derive(Drop)]
pub struct Receiver<'a> {
    pub session: &'a mut Session,
    pub storage: &'a mut Storage,
}

impl Receiver<'_> {
    // A call on the session, which keeps what the call leaves of it.
    pub(crate) fn call<A, F: FnOnce(&mut Held<'_>) -> A>(&mut self, call: F) -> A
        requires { F.IsAlwaysCallable call }
    {
        let mut held = self.storage.held(*self.session);
        let answer = call(&mut held);
        *self.session = held.session;
        answer
    }
}
