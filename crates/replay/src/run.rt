// Line by line: read, made, answered.
use crate::answer::{Answer, front};
use crate::call::{Call, Lent, Reading, SessionCall};
use crate::field::ReadError;
use crate::input::LINE;
use crate::receiver::{Receiver, Storage, lend};
use crate::state::State;
use crate::{call, input};
use best_effort::BestEffort;
use config::Settings;
use model::{Config, Session};
use poll::{nack, wire};
use push::rtx;
use queue::reading;
use refusals::Refusal;
use std::alloc::{AllocError, Global};
use std::io;
use std::io::{BufReader, BufWriter, Stdin, Stdout, Write};

// Input is read, and answers are written, in blocks of as many bytes.
const BLOCK: usize = 65536;

// An answer for each end that a line can have; four bytes for each of the largest G are fewer.
const OCTETS: usize = LINE / 2;

// Of a line's HEX each eight digits name up to seventeen numbers.
const NUMBERS: usize = 17 * LINE / 8;

// What calls write their answers into.
#[derive(Drop)]
struct Outputs {
    octets: Vec<u8>,
    numbers: Vec<u16>,
}

#[derive(Drop)]
struct Replay {
    session: Option<Session>,
    storage: Storage,
    outputs: Outputs,
}

impl Replay {
    fn new(alloc: Global) -> Result<Self, AllocError> {
        Ok(Replay {
            session: None,
            storage: Storage::new(alloc)?,
            outputs: Outputs {
                octets: vec![in alloc; 0u8; OCTETS]?,
                numbers: vec![in alloc; 0u16; NUMBERS]?,
            },
        })
    }

    fn open(&mut self, config: Option<Config>) -> Result<Answer<'_>, Refusal> {
        let config = config.ok_or(Refusal::Settings)?;
        let session = self.storage.open(config)?;
        self.session = Some(session);
        Ok(Answer::Opened)
    }

    fn read_nacks(&mut self, places: u64, entries: &[u8]) -> Result<Answer<'_>, Refusal> {
        let numbers = lend(&mut self.outputs.numbers, places as usize);
        let count = nack_pairs::read::read(entries, numbers)?;
        Ok(Answer::ReadNacks(front(numbers, count)))
    }

    fn write_settings(
        &mut self,
        places: u64,
        settings: Option<Settings>,
    ) -> Result<Answer<'_>, Refusal> {
        let settings = settings.ok_or(Refusal::Settings)?;
        let octets = lend(&mut self.outputs.octets, places as usize);
        let size = settings_line::write_line(settings, octets)?;
        Ok(Answer::WriteSettings(front(octets, size)))
    }

    fn of_session(&mut self, call: SessionCall<'_>) -> Result<Answer<'_>, Refusal> {
        let Some(session) = &mut self.session else {
            return Ok(Answer::NoSession);
        };
        let storage = &mut self.storage;
        on(Receiver { session, storage }, &mut self.outputs, call)
    }

    fn make(&mut self, call: Call<'_>) -> Result<Answer<'_>, Refusal> {
        // Stays: the reader of a line hands the enum on before there is a session; closures would each hold what the line lends.
        match call {
            Call::Open(config) => self.open(config),
            Call::ReadNacks { places, entries } => self.read_nacks(places, entries),
            Call::ReadSettings(line) => read_settings(line),
            Call::WriteSettings { places, settings } => self.write_settings(places, settings),
            Call::OfSession(call) => self.of_session(call),
        }
    }

    // A line that was read; none where it is passed over.
    fn answer(&mut self, line: &[u8], lent: &mut Lent) -> io::Result<Option<Answer<'_>>> {
        if matches!(line.first(), None | Some(b'#')) {
            return Ok(None);
        }
        if LINE <= line.len() {
            return Ok(Some(Answer::Unreadable));
        }
        match call::read(line, lent) {
            Ok(call) => Ok(Some(match self.make(call) {
                Ok(answer) => answer,
                Err(refusal) => Answer::Refused(refusal),
            })),
            Err(ReadError::Unreadable) => Ok(Some(Answer::Unreadable)),
            Err(ReadError::OutOfMemory) => Err(io::ErrorKind::OutOfMemory.into()),
        }
    }
}

fn read_settings<'a>(line: &[u8]) -> Result<Answer<'a>, Refusal> {
    let settings = settings_line::read_line(line)?;
    Ok(Answer::ReadSettings(settings))
}

// A call on an open session.
fn on<'a>(
    mut receiver: Receiver<'a>,
    outputs: &'a mut Outputs,
    call: SessionCall<'_>,
) -> Result<Answer<'a>, Refusal> {
    // Stays: as in `make`.
    match call {
        SessionCall::Media { now, datagram } => {
            let answer = receiver.call(|q| push::push(q, now, datagram))?;
            Ok(Answer::Media(answer))
        }
        SessionCall::Burst {
            now,
            places,
            buffer,
            ends,
        } => {
            let answers = lend(&mut outputs.octets, places as usize);
            let count = receiver.call(|q| burst::push_burst(q, now, buffer, ends, answers))?;
            Ok(Answer::Burst(front(answers, count)))
        }
        SessionCall::Repair { now, datagram } => {
            let fate = receiver.call(|q| rtx::push_rtx(q, now, datagram))?;
            Ok(Answer::Repair(fate))
        }
        SessionCall::Poll { now } => {
            let octets = outputs.octets.as_mut_slice();
            let packet = receiver.call(|q| poll::poll(q, now, octets))?;
            Ok(Answer::Poll(packet, octets))
        }
        SessionCall::PollNack { now } => {
            let numbers = outputs.numbers.as_mut_slice();
            let count = receiver.call(|q| nack::poll_nack(q, now, numbers))?;
            Ok(Answer::PollNack(front(numbers, count.unwrap_or(0))))
        }
        SessionCall::NackWire { now, places } => {
            let octets = lend(&mut outputs.octets, places as usize);
            let size = receiver.call(|q| wire::nack_wire(q, now, octets))?;
            Ok(Answer::NackWire(front(octets, size)))
        }
        SessionCall::Reading(call) => look(receiver, call),
    }
}

fn look<'a>(mut receiver: Receiver<'a>, call: Reading) -> Result<Answer<'a>, Refusal> {
    match call {
        Reading::TimeoutReceive { now } => {
            let timeout = receiver.call(|q| reading::timeout_receive(q, now))?;
            Ok(Answer::Timeout(timeout))
        }
        Reading::TimeoutNack { now } => {
            let timeout = receiver.call(|q| reading::timeout_nack(q, now))?;
            Ok(Answer::Timeout(timeout))
        }
        Reading::RtxStats => {
            let stats = receiver.call(|q| reading::rtx_stats(q))?;
            Ok(Answer::RtxStats(stats))
        }
        Reading::Highest => {
            let highest = receiver.call(|q| reading::highest_sequence_number_received(q))?;
            Ok(Answer::Highest(highest))
        }
        Reading::State => {
            let Receiver { session, storage } = receiver;
            Ok(Answer::State(State { session, storage }))
        }
    }
}

// The line that is read, and what its fields are read into.
#[derive(Drop)]
struct Input {
    line: Vec<u8>,
    lent: Lent,
}

impl Input {
    fn new(alloc: Global) -> Result<Self, AllocError> {
        Ok(Input {
            line: Vec::with_capacity(alloc, LINE)?,
            lent: Lent::new(alloc)?,
        })
    }
}

// Every line of the input.
fn lines<W: Write>(
    replay: &mut Replay,
    read: &mut Input,
    input: &mut BufReader<Stdin>,
    out: &mut W,
) -> io::Result<()> {
    for _ in 0..u64::MAX {
        let more = input::next_line(input, out, &mut read.line)?;
        if let Some(answer) = replay.answer(&read.line, &mut read.lent)? {
            answer.write(out)?;
        }
        if !more {
            break;
        }
    }
    out.flush()
}

pub(crate) fn run(alloc: Global, stdin: Stdin, stdout: Stdout) -> io::Result<()> {
    let mut replay = Replay::new(alloc)?;
    let mut read = Input::new(alloc)?;
    let mut input = BufReader::with_capacity(alloc, BLOCK, stdin)?;
    let mut out = BufWriter::with_capacity(alloc, BLOCK, BestEffort::new(stdout))?;
    lines(&mut replay, &mut read, &mut input, &mut out)
}
