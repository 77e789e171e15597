// What the opening and the calls that change a session answer. `refusal` is 01's number, or 0; what is not told (refused, or its flag is
// 0) is 0.
#![tactic(auto, unfolding(crate::specs::Told::pushed, crate::specs::Told::polled, crate::specs::Told::polled_nack, crate::specs::Told::polled_wire, crate::specs::Told::session_after, crate::specs::Told::refusal_told, crate::specs::Told::refusal_in, crate::specs::Told::number_in, crate::specs::Told::fate_number, session::specs::Place::fate, crate::specs::Told::packet_in, crate::specs::Told::opt_words, crate::specs::Told::packet_words, crate::specs::Words::flag, poll::specs::Answers::packet_of, crate::specs::Told::open_told, crate::specs::Told::burst_told))]

ghost use Rattle.std.specs.Prelude.{◌≡◌, [], ◌∷◌};
ghost use Rattle.std.specs.Result.{result_unwrap_or};
ghost use Rattle.refusals.specs.Refusals.{number, refusal_of};
ghost use Rattle.model.specs.Calls as Calls;
ghost use Rattle.model.specs.Did as Did;
ghost use Rattle.queue.specs.Answers.{opening_answer};
ghost use Rattle.push.specs.Answers.{media_answer, repair_answer};
ghost use Rattle.poll.specs.Answers.{packet_of, poll_answer, nack_answer, wire_answer};
ghost use Rattle.ffi_words.specs.Words.{words_of};
ghost use Rattle.ffi_words.specs.Told.{refusal_told, session_after, opt_words, packet_words, back, pushed, polled, polled_nack, polled_wire, burst_told, open_told};

use super::SessionWords;
use model::Session;
use poll::HandedOut;
use push::Media;
use refusals::Refusal;
use session::rtx::Fate;

// Stays: of the C interface.
#[repr(C)]
#[derive(Clone, Copy)]
pub struct Opened {
    pub refusal: u64,
    pub session: SessionWords,
}

// Of media: 0 queued, 1 dropped. Of a repair: 0 recovered, 1 redundant, 2 too late.
// Stays: of the C interface.
#[repr(C)]
#[derive(Clone, Copy)]
pub struct Pushed {
    pub refusal: u64,
    pub answer: u64,
    pub session: SessionWords,
}

// 02, point 4: how many answer numbers stand in the list, one for each datagram.
// Stays: of the C interface.
#[repr(C)]
#[derive(Clone, Copy)]
pub struct PushedBurst {
    pub refusal: u64,
    pub answers: usize,
    pub session: SessionWords,
}

// `size` bytes of the output are the payload; a repair has no `received_at`.
// Stays: of the C interface.
#[repr(C)]
#[derive(Clone, Copy, Default)]
pub struct Packet {
    pub has_received_at: u64,
    pub received_at: u64,
    pub delay: u64,
    pub size: usize,
    pub timestamp: u32,
    pub ssrc: u32,
    pub sequence_number: u16,
    pub pt: u8,
    pub marker: u8,
}

// Stays: of the C interface.
#[repr(C)]
#[derive(Clone, Copy)]
pub struct Polled {
    pub refusal: u64,
    pub has_packet: u64,
    pub packet: Packet,
    pub session: SessionWords,
}

// How many numbers stand in the output: 0 where none is due.
// Stays: of the C interface.
#[repr(C)]
#[derive(Clone, Copy)]
pub struct PolledNack {
    pub refusal: u64,
    pub count: usize,
    pub session: SessionWords,
}

// How many bytes of the output are entries of a generic NACK: 0 where nothing is due.
// Stays: of the C interface.
#[repr(C)]
#[derive(Clone, Copy)]
pub struct PolledWire {
    pub refusal: u64,
    pub bytes: usize,
    pub session: SessionWords,
}

// A number that may be missing, as a flag and a value.
// Stays: both go into fields of a struct that the C interface names; a struct of the two would be taken apart at once.
pub fn opt_words(o: Option<u64>) -> (u64, u64)
    ensures { result ≡ opt_words o }
{
    o.map_or((0, 0), |x| (1, x))
}

pub fn no_packet() -> Packet
    ensures { result ≡ packet_words [] }
{
    Packet::default()
}

// Stays: the definition is of a list, with `no_packet` for the empty one; `From` would give it through `from_gives`, one step further.
pub fn packet_words(h: HandedOut) -> Packet
    ensures { result ≡ packet_words (packet_of h ∷ []) }
{
    let (has_received_at, received_at) = opt_words(h.received_at);
    Packet {
        has_received_at,
        received_at,
        delay: h.delay,
        size: h.size,
        timestamp: h.timestamp.0,
        ssrc: h.ssrc.0,
        sequence_number: h.sequence_number.0,
        pt: h.pt,
        marker: u8::from(h.marker),
    }
}

// ---- what a call came to, with the words that the session was given in and the session that is left

pub fn open_refused(refusal: Refusal) -> Opened
    ensures { result ≡ open_told (Did.refused (number refusal)) }
{
    Opened {
        refusal: refusal.number(),
        session: super::writing::no_session(),
    }
}

pub fn open_told(opening: Result<Session, Refusal>) -> Opened
    ensures { result ≡ open_told (opening_answer opening) }
{
    match opening {
        Ok(s) => Opened {
            refusal: 0,
            session: super::writing::words_of(s),
        },
        Err(e) => open_refused(e),
    }
}

// The words that go back: those of the session that is left, or of a refused call those that came.
// Stays: `given` and `left`, here and below: a struct of the two would be made at each call only to be taken apart here, where one of them goes.
pub fn words_back<T>(
    answer: &Result<T, Refusal>,
    given: SessionWords,
    left: Session,
) -> SessionWords
    ensures { result ≡ session_after (refusal_told answer.now) given left }
{
    match answer {
        Ok(_) => super::writing::words_of(left),
        Err(_) => given,
    }
}

// Stays: each fills the struct of its exported call, and so do the three below.
pub fn push_refused(refusal: Refusal, given: SessionWords) -> Pushed
    ensures { result ≡ pushed (Calls.refused (number refusal)) given }
{
    Pushed {
        refusal: refusal.number(),
        answer: 0,
        session: given,
    }
}

// Stays: the numbers are the C interface's, and the list of a burst has 255 for the dropped packet, so `Media` has no numbers of its own.
pub fn media_told(answer: Result<Media, Refusal>, given: SessionWords, left: Session) -> Pushed
    ensures { result ≡ back pushed (media_answer answer) given left }
{
    let session = words_back(&answer, given, left);
    let (refusal, answer) = match answer {
        Ok(Media::Queued) => (0, 0),
        Ok(Media::Dropped) => (0, 1),
        Err(e) => (e.number(), 0),
    };
    Pushed {
        refusal,
        answer,
        session,
    }
}

// Stays: the numbers are the C interface's; as discriminants they would stand in `session`, which knows no number of an answer.
pub fn repair_told(answer: Result<Fate, Refusal>, given: SessionWords, left: Session) -> Pushed
    ensures { result ≡ back pushed (repair_answer answer) given left }
{
    let session = words_back(&answer, given, left);
    let (refusal, answer) = match answer {
        Ok(Fate::Recovered) => (0, 0),
        Ok(Fate::Redundant) => (0, 1),
        Ok(Fate::TooLate) => (0, 2),
        Err(e) => (e.number(), 0),
    };
    Pushed {
        refusal,
        answer,
        session,
    }
}

// Stays: as `push_refused`.
pub fn poll_refused(refusal: Refusal, given: SessionWords) -> Polled
    ensures { result ≡ polled (Calls.refused (number refusal)) given }
{
    Polled {
        refusal: refusal.number(),
        has_packet: 0,
        packet: no_packet(),
        session: given,
    }
}

// Stays: as `words_back`.
pub fn poll_told(
    answer: Result<Option<HandedOut>, Refusal>,
    given: SessionWords,
    left: Session,
) -> Polled
    ensures { result ≡ back polled (poll_answer answer) given left }
{
    let session = words_back(&answer, given, left);
    let (refusal, has_packet, packet) = match answer {
        Ok(None) => (0, 0, no_packet()),
        Ok(Some(h)) => (0, 1, packet_words(h)),
        Err(e) => (e.number(), 0, no_packet()),
    };
    Polled {
        refusal,
        has_packet,
        packet,
        session,
    }
}

// Stays: as `push_refused`.
pub fn nack_refused(refusal: Refusal, given: SessionWords) -> PolledNack
    ensures { result ≡ polled_nack (Calls.refused (number refusal)) given }
{
    PolledNack {
        refusal: refusal.number(),
        count: 0,
        session: given,
    }
}

// Stays: as `words_back`.
pub fn nack_told(
    answer: Result<Option<usize>, Refusal>,
    given: SessionWords,
    left: Session,
) -> PolledNack
    ensures { result ≡ back polled_nack (nack_answer answer) given left }
{
    let session = words_back(&answer, given, left);
    let (refusal, count) = match answer {
        Ok(None) => (0, 0),
        Ok(Some(n)) => (0, n),
        Err(e) => (e.number(), 0),
    };
    PolledNack {
        refusal,
        count,
        session,
    }
}

// Stays: as `push_refused`.
pub fn wire_refused(refusal: Refusal, given: SessionWords) -> PolledWire
    ensures { result ≡ polled_wire (Calls.refused (number refusal)) given }
{
    PolledWire {
        refusal: refusal.number(),
        bytes: 0,
        session: given,
    }
}

// Stays: as `words_back`.
pub fn wire_told(answer: Result<usize, Refusal>, given: SessionWords, left: Session) -> PolledWire
    ensures { result ≡ back polled_wire (wire_answer answer) given left }
{
    let session = words_back(&answer, given, left);
    let (refusal, bytes) = match answer {
        Ok(n) => (0, n),
        Err(e) => (e.number(), 0),
    };
    PolledWire {
        refusal,
        bytes,
        session,
    }
}

// The words as they came where no datagram was accepted.
// Stays: whether one was accepted stands in the answers that were written, which the caller has; a closure would only wrap the `if`.
pub fn burst_told(
    done: Result<usize, Refusal>,
    accepted: bool,
    given: SessionWords,
    left: Session,
) -> PushedBurst
    ensures { result ≡ burst_told (refusal_of done) (result_unwrap_or done 0) accepted given left }
{
    let (refusal, answers) = match done {
        Ok(n) => (0, n),
        Err(e) => (e.number(), 0),
    };
    let session = if accepted {
        super::writing::words_of(left)
    } else {
        given
    };
    PushedBurst {
        refusal,
        answers,
        session,
    }
}
