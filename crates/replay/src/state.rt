// The lines of `state` (docs/TRACE.md, "state").
use crate::answer::{PAYLOAD_DIGITS, fields, front, hex, or_dash};
use crate::receiver::Storage;
use entries::{ENTRY_WORDS, Entry, PAYLOAD_BYTES};
use lost_nacked::{REMEMBERED_WORDS, Remembered};
use model::{Counters, Queue, Received, Session};
use packet_gaps::{GAP_WORDS, Gap};
use rtx_state::RtxState;
use std::io;
use std::io::Write;

// A NaN, which no session holds that a call left, has no bits of its own.

// Stays: a trait would have `is_nan`, the bits and their width for each type, which is all that the two functions have.
fn f64_bits<W: Write>(out: &mut W, x: f64) -> io::Result<()> {
    if x.is_nan() {
        return out.write_all(b" -");
    }
    write!(out, " {:016x}", x.to_bits())
}

fn f32_bits<W: Write>(out: &mut W, x: f32) -> io::Result<()> {
    if x.is_nan() {
        return out.write_all(b" -");
    }
    write!(out, " {:08x}", x.to_bits())
}

fn figures<W: Write>(out: &mut W, q: &Queue) -> io::Result<()> {
    let Counters {
        received,
        bytes,
        dropped,
        lost,
    } = q.counters;
    write!(out, " {} {received} {bytes} {dropped} {lost}", q.clock)?;
    f64_bits(out, q.jitter.jitter)?;
    f32_bits(out, q.loss.loss)
}

fn last_received<W: Write>(out: &mut W, last: Option<Received>) -> io::Result<()> {
    match last {
        None => out.write_all(b" - - -"),
        Some(r) => {
            let (instant, timestamp, number) = (r.instant, r.timestamp.0, r.number.0);
            write!(out, " {instant} {timestamp} {number}")
        }
    }
}

fn repairs<W: Write>(out: &mut W, x: RtxState) -> io::Result<()> {
    match x.rtt {
        None => out.write_all(b" - -")?,
        Some(e) => write!(out, " {} {}", e.srtt, e.variation)?,
    }
    let (in_time, too_late) = (x.received_in_time, x.received_too_late);
    let (redundant, bytes) = (x.received_redundant, x.bytes_received);
    write!(out, " {in_time} {too_late} {redundant} {bytes}")
}

// The first line.
fn summary<W: Write>(out: &mut W, s: &Session) -> io::Result<()> {
    out.write_all(b"state")?;
    let q = &s.queue;
    figures(out, q)?;
    last_received(out, q.last)?;
    or_dash(out, q.returned.map(|n| n.0))?;
    if q.config.senders.has_rtx {
        repairs(out, q.rtx)?;
    } else {
        out.write_all(b" - - - - - -")?;
    }
    writeln!(out, " {} {} {}", s.entries, s.gaps, s.remembered)
}

fn entry<W: Write>(
    out: &mut W,
    e: Entry,
    place: &[u8],
    text: &mut [u8; PAYLOAD_DIGITS],
) -> io::Result<()> {
    let (number, timestamp) = (e.number.0, e.timestamp.0);
    out.write_all(b"entry")?;
    match e.arrival {
        Some(arrival) => fields(out, &[number, timestamp, arrival])?,
        None => {
            fields(out, &[number, timestamp])?;
            out.write_all(b" -")?;
        }
    }
    out.write_all(if e.marker { b" 1" } else { b" 0" })?;
    hex(out, front(place, e.size), text)?;
    out.write_all(b"\n")
}

fn gap<W: Write>(out: &mut W, g: Gap) -> io::Result<()> {
    out.write_all(b"gap")?;
    if g.nacks == 0 {
        fields(out, &[g.number.0, g.detected])?;
        return out.write_all(b" - 0\n");
    }
    fields(out, &[g.number.0, g.detected, g.nacked_at, g.nacks])?;
    out.write_all(b"\n")
}

fn remembered<W: Write>(out: &mut W, r: Remembered) -> io::Result<()> {
    out.write_all(b"remembered")?;
    fields(out, &[r.number.0, r.nacked_at])?;
    out.write_all(b"\n")
}

// A session, and the storage in which its lists are.
#[derive(Clone, Copy)]
pub struct State<'a> {
    pub session: &'a Session,
    pub storage: &'a Storage,
}

impl State<'_> {
    fn entry_lines<W: Write>(&self, out: &mut W) -> io::Result<()> {
        let storage = self.storage;
        let places = storage.payloads.chunks_exact(PAYLOAD_BYTES);
        let records = storage.entries.chunks_exact(ENTRY_WORDS).zip(places);
        let mut text = [0u8; PAYLOAD_DIGITS];
        for (words, place) in records.take(self.session.entries) {
            entry(out, entries::read(words, 0), place, &mut text)?;
        }
        Ok(())
    }

    // Stays: one function for both would take words, width, count and a closure, and a contract that each part is as long as `read` asks;
    // with its two calls it is longer than these two loops.
    fn gap_lines<W: Write>(&self, out: &mut W) -> io::Result<()> {
        let records = self.storage.gaps.chunks_exact(GAP_WORDS);
        for words in records.take(self.session.gaps) {
            gap(out, packet_gaps::read(words, 0))?;
        }
        Ok(())
    }

    fn remembered_lines<W: Write>(&self, out: &mut W) -> io::Result<()> {
        let records = self.storage.remembered.chunks_exact(REMEMBERED_WORDS);
        for words in records.take(self.session.remembered) {
            remembered(out, lost_nacked::read(words, 0))?;
        }
        Ok(())
    }

    // What `state` is answered.
    pub(crate) fn write<W: Write>(self, out: &mut W) -> io::Result<()> {
        summary(out, self.session)?;
        self.entry_lines(out)?;
        self.gap_lines(out)?;
        self.remembered_lines(out)
    }
}
