// Reads datagrams from standard input, a line for each, and writes what the datagram reader makes of each.
//
// A line is M for a media packet or R for a repair, and then, as hexadecimal digits, the payload type (a byte) and the SSRC (four)
// that the session expects, and the datagram. What is no digit is passed over. A line that begins with # is written as it came.
#![tactic(auto)]

use best_effort::BestEffort;
use memchr::memchr;
use refusals::Refusal;
use rtp::{SequenceNumber, Ssrc};
use rtp_packet::RtpPacket;
use std::alloc::Global;
use std::fmt::{self, Display, Formatter};
use std::io::{self, BufRead, BufReader, BufWriter, Read, Write};

// Of a longer line only so many bytes count.
const LONGEST: usize = 8192;

// What the session expects, and the datagram.
#[derive(Clone, Copy)]
struct Session<'a> {
    pt: u8,
    ssrc: Ssrc,
    datagram: &'a [u8],
}

impl<'a> Session<'a> {
    fn of(bytes: &'a [u8]) -> Option<Session<'a>> {
        let (pt, rest) = bytes.split_first()?;
        let (ssrc, datagram) = rest.split_first_chunk::<4>()?;
        let ssrc = Ssrc(u32::from_be_bytes(*ssrc));
        Some(Session {
            pt: *pt,
            ssrc,
            datagram,
        })
    }
}

// A packet that was not refused; a repair has the original number.
#[derive(Clone, Copy)]
struct Taken<'a> {
    packet: RtpPacket,
    original: Option<SequenceNumber>,
    payload: &'a [u8],
}

// The header; the payload is written behind it.
impl Display for Taken<'_> {
    fn fmt<W: fmt::Write>(&self, f: &mut Formatter<W>) -> fmt::Result {
        let packet = self.packet;
        let pt = packet.pt;
        let number = packet.sequence_number.0;
        let timestamp = packet.timestamp.0;
        let ssrc = packet.ssrc.0;
        write!(
            f,
            "pt {pt} number {number} timestamp {timestamp} ssrc {ssrc}"
        )?;
        if packet.marker {
            write!(f, " marker")?;
        }
        if let Some(original) = self.original {
            write!(f, " original {}", original.0)?;
        }
        Ok(())
    }
}

fn media<'a>(session: Session<'a>) -> Result<Taken<'a>, Refusal> {
    let packet = rtp_packet::parse_media(session.datagram, session.pt, session.ssrc)?;
    Ok(Taken {
        packet,
        original: None,
        payload: rtp_packet::payload(session.datagram, packet),
    })
}

fn repair<'a>(session: Session<'a>) -> Result<Taken<'a>, Refusal> {
    let packet = rtp_packet::parse_repair(session.datagram, session.pt, session.ssrc)?;
    let payload = rtp_packet::payload(session.datagram, packet);
    let original = rtp_packet::original_number(payload)?;
    Ok(Taken {
        packet,
        original: Some(original),
        payload: rtp_packet::original_payload(payload),
    })
}

// The bytes of the digits, a to f in small letters; a last digit without its pair is passed over. The test is `|` and not `||`, whose jump
// on digit or letter made a run take a third longer.
fn decoded(alloc: Global, text: &[u8]) -> anyhow::Result<Vec<u8>> {
    let mut digits: Vec<u8> = text
        .iter()
        .copied()
        .filter(|c| c.is_ascii_digit() | (b'a'..=b'f').contains(c))
        .collect(alloc)?;
    digits.truncate(digits.len() / 2 * 2);
    Ok(hex::decode(alloc, digits)?)
}

fn answer(alloc: Global, line: &[u8], out: &mut impl Write) -> anyhow::Result<()> {
    let Some((kind, digits)) = line.split_first() else {
        return Ok(());
    };
    if *kind == b'#' {
        return Ok(out.write_all(line)?);
    }
    let bytes = decoded(alloc, digits)?;
    let Some(session) = Session::of(&bytes) else {
        return Ok(write!(out, "no session")?);
    };
    let read = if *kind == b'R' {
        repair(session)
    } else {
        media(session)
    };
    match read {
        Ok(taken) => write!(
            out,
            "{taken} payload {}",
            hex::encode(alloc, taken.payload)?
        )?,
        Err(refusal) => write!(out, "refused {}", refusal.number())?,
    }
    Ok(())
}

// The next line without its line feed, of which `LONGEST` bytes are kept; false at the end of the input, for which a read that fails is taken:
// what has no line feed is no line. Answers are written before more input is waited for, for a program at the other end of a pipe.
fn next_line<R: Read>(
    input: &mut BufReader<R>,
    out: &mut impl Write,
    line: &mut Vec<u8>,
) -> io::Result<bool> {
    line.clear();
    for _ in 0..u64::MAX {
        if input.buffer().is_empty() {
            out.flush()?;
        }
        let block = input.fill_buf().unwrap_or(b"");
        if block.is_empty() {
            return Ok(false);
        }
        let end = memchr(b'\n', block);
        let size = end.unwrap_or(block.len());
        let room = LONGEST.saturating_sub(line.len());
        line.extend_from_slice(&block[..size.min(room)])?;
        if end.is_some() {
            input.consume(size + 1);
            return Ok(true);
        }
        input.consume(size);
    }
    Ok(false)
}

// To the end of the input.
fn run<R: Read>(
    alloc: Global,
    input: &mut BufReader<R>,
    out: &mut impl Write,
) -> anyhow::Result<()> {
    let mut line = Vec::with_capacity(alloc, LONGEST)?;
    for _ in 0..u64::MAX {
        if !next_line(input, out, &mut line)? {
            break;
        }
        answer(alloc, &line, out)?;
        writeln!(out)?;
    }
    Ok(())
}

fn main(rt: HostRuntime) -> anyhow::Result<()> {
    let mut input = BufReader::new(rt.alloc(), rt.stdin())?;
    let mut out = BufWriter::new(rt.alloc(), BestEffort::new(rt.stdout()))?;
    run(rt.alloc(), &mut input, &mut out)?;
    Ok(out.flush()?)
}
