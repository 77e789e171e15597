// Answers as docs/TRACE.md has them ("Calls").
use crate::digits;
use crate::digits::{AT_ONCE, FIELDS};
use crate::state::State;
use config::Settings;
use entries::PAYLOAD_BYTES;
use poll::HandedOut;
use push::Media;
use refusals::Refusal;
use rtp::ExtendedSequenceNumber;
use session::rtx::Fate;
use stats::RtpInboundRtxStats;
use std::io;
use std::io::Write;

// Fields of numbers, with the blank before each.
pub(crate) fn fields<W: Write, N: Copy + Into<u64>>(out: &mut W, numbers: &[N]) -> io::Result<()> {
    let mut text = [0u8; FIELDS];
    for some in numbers.chunks(AT_ONCE) {
        out.write_all(digits::fields(&mut text, some))?;
    }
    Ok(())
}

// A field of a number, or of a dash where it is missing.
pub(crate) fn or_dash<W: Write>(out: &mut W, n: Option<u64>) -> io::Result<()> {
    match n {
        Some(n) => fields(out, &[n]),
        None => out.write_all(b" -"),
    }
}

// The digits of the longest payload: as many are made at once.
pub const PAYLOAD_DIGITS: usize = 2 * PAYLOAD_BYTES;

// A field of HEX, with the blank before it. Its digits are made in `text`, which is lent, so that all entries of `state` share one.
pub(crate) fn hex<W: Write>(
    out: &mut W,
    bytes: &[u8],
    text: &mut [u8; PAYLOAD_DIGITS],
) -> io::Result<()> {
    if bytes.is_empty() {
        return out.write_all(b" -");
    }
    out.write_all(b" ")?;
    for chunk in bytes.chunks(PAYLOAD_BYTES) {
        let made = &mut text[..2 * chunk.len()];
        digits::hex(chunk, made);
        out.write_all(made)?;
    }
    Ok(())
}

// A word and numbers, or `nothing` where there are none.
fn list<W: Write, N: Copy + Into<u64>>(out: &mut W, word: &str, numbers: &[N]) -> io::Result<()> {
    if numbers.is_empty() {
        return nothing(out);
    }
    out.write_all(word.as_bytes())?;
    fields(out, numbers)?;
    out.write_all(b"\n")
}

// A word and HEX, or `nothing` where there are no bytes.
fn word_and_hex<W: Write>(out: &mut W, word: &str, bytes: &[u8]) -> io::Result<()> {
    if bytes.is_empty() {
        return nothing(out);
    }
    out.write_all(word.as_bytes())?;
    hex(out, bytes, &mut [0; PAYLOAD_DIGITS])?;
    out.write_all(b"\n")
}

fn nothing<W: Write>(out: &mut W) -> io::Result<()> {
    out.write_all(b"nothing\n")
}

fn media<W: Write>(out: &mut W, answer: Media) -> io::Result<()> {
    match answer {
        Media::Queued => out.write_all(b"queued\n"),
        Media::Dropped => out.write_all(b"dropped\n"),
    }
}

fn repair<W: Write>(out: &mut W, fate: Fate) -> io::Result<()> {
    match fate {
        Fate::Recovered => out.write_all(b"recovered\n"),
        Fate::Redundant => out.write_all(b"redundant\n"),
        Fate::TooLate => out.write_all(b"too late\n"),
    }
}

// The first of an output, as many as were written.
// Stays: this makes the slice of a buffer and a count; a call answers a count, since the boundary cannot give back a part of what C lends.
pub(crate) fn front<T>(output: &[T], count: usize) -> &[T] {
    &output[..count.min(output.len())]
}

fn packet<W: Write>(out: &mut W, p: HandedOut, octets: &[u8]) -> io::Result<()> {
    let (pt, number, timestamp, ssrc) = (p.pt, p.sequence_number.0, p.timestamp.0, p.ssrc.0);
    let marker = u8::from(p.marker);
    write!(out, "packet {pt} {number} {timestamp} {ssrc} {marker}")?;
    or_dash(out, p.received_at)?;
    fields(out, &[p.delay])?;
    hex(out, front(octets, p.size), &mut [0; PAYLOAD_DIGITS])?;
    out.write_all(b"\n")
}

fn figures<W: Write>(out: &mut W, s: RtpInboundRtxStats) -> io::Result<()> {
    let (in_time, too_late) = (s.packets_received_in_time, s.packets_received_too_late);
    let (redundant, bytes) = (s.packets_received_redundant, s.bytes_received);
    write!(out, "rtx {in_time} {too_late} {redundant} {bytes}")?;
    or_dash(out, s.rtt)?;
    out.write_all(b"\n")
}

fn settings<W: Write>(out: &mut W, s: Settings) -> io::Result<()> {
    let (mode, clock_rate, depth, gaps) = (
        s.mode.number(),
        s.clock_rate,
        s.max_entries,
        s.max_gaps,
    );
    let (delay, initial) = (s.delay, s.initial_nack_delay);
    let (resend, attempts) = (s.default_nack_resend_delay, s.max_nack_attempts);
    let dynamic = s.mode.dynamic();
    let (min, max, target) = (dynamic.min, dynamic.max, dynamic.target_recovery);
    write!(
        out,
        "settings {mode} {clock_rate} {depth} {gaps} {delay} {initial}"
    )?;
    writeln!(out, " {resend} {attempts} {min} {max} {target}")
}

// What a line is answered, and with it the part of an output that its call has written.
#[derive(Clone, Copy)]
pub enum Answer<'a> {
    Unreadable,
    NoSession,
    Refused(Refusal),
    Opened,
    Media(Media),
    Burst(&'a [u8]),
    Repair(Fate),
    // None where no packet is handed out.
    Poll(Option<HandedOut>, &'a [u8]),
    PollNack(&'a [u16]),
    NackWire(&'a [u8]),
    ReadNacks(&'a [u16]),
    Timeout(Option<u64>),
    RtxStats(Option<RtpInboundRtxStats>),
    Highest(Option<ExtendedSequenceNumber>),
    State(State<'a>),
    ReadSettings(Settings),
    WriteSettings(&'a [u8]),
}

impl Answer<'_> {
    pub(crate) fn write<W: Write>(self, out: &mut W) -> io::Result<()> {
        // Stays: one arm to an answer, with what it holds: a trait for what is written would be a type and an impl for each of these arms.
        match self {
            Answer::Unreadable => out.write_all(b"unreadable\n"),
            Answer::NoSession => out.write_all(b"no session\n"),
            Answer::Refused(refusal) => writeln!(out, "refused {}", refusal.number()),
            Answer::Opened => out.write_all(b"opened\n"),
            Answer::Media(answer) => media(out, answer),
            Answer::Burst(answers) => list(out, "answers", answers),
            Answer::Repair(fate) => repair(out, fate),
            Answer::Poll(None, _) => nothing(out),
            Answer::Poll(Some(p), octets) => packet(out, p, octets),
            Answer::PollNack(numbers) => list(out, "nack", numbers),
            Answer::NackWire(octets) => word_and_hex(out, "wire", octets),
            Answer::ReadNacks(numbers) => list(out, "numbers", numbers),
            Answer::Timeout(None) | Answer::RtxStats(None) | Answer::Highest(None) => {
                out.write_all(b"none\n")
            }
            Answer::Timeout(Some(n)) => writeln!(out, "after {n}"),
            Answer::RtxStats(Some(s)) => figures(out, s),
            Answer::Highest(Some(n)) => writeln!(out, "highest {}", n.0),
            Answer::State(state) => state.write(out),
            Answer::ReadSettings(s) => settings(out, s),
            Answer::WriteSettings(octets) => word_and_hex(out, "line", octets),
        }
    }
}
