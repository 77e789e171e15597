// Reads cases of the records made of floats, one to a line, and writes what comes out of each; stdout holds the Rust's answers to
// the cases of stdin (tools/compare-figures made both). A line is 128 bytes: a letter, six numbers of 20 places, a line end.
// Floats go as their bits, and what is refused or missing as `-`.
//
//   a  as_secs_f64          ns
//   s  signed_seconds       below zero or not (1, 0), ns
//   f  from_secs_f64        bits
//   r  record_received      loss
//   l  record_lost          loss, number of losses
//   j  Jitter::update, get  clock rate, jitter, now, timestamp, last instant, last timestamp
//   o  from_first_sample    sample
//   u  RtxRtt::update       srtt, variation, sample
//   d  nack_resend_delay    srtt, variation
//   n  nack_timings         initial, default, with estimate or not (1, 0), srtt, variation
//   x  RtxState, stats      in time, too late, redundant, bytes, payload size, sample
//   m  max_timestamp        last instant, last timestamp, clock rate, delay, now
//   t  timeout_receive      last instant, last timestamp, earliest timestamp, clock rate, delay, now
#![tactic(auto)]

mod answers;
mod line;

use best_effort::BestEffort;
use line::{Figure, Line};
use rtx_state::RtxRtt;
use std::io::{self, BufReader, BufWriter, Read, Write};
use std::num::f64_from_bits_with_nan;

// What a run reads at most.
const LINES: u64 = 10000000;

fn answer<W: Write>(line: &Line, out: &mut W) -> io::Result<()> {
    let numbers = line::numbers(line);
    let [a, b, c, ..] = numbers;
    let rtt = RtxRtt {
        srtt: a,
        variation: b,
    };
    // Stays: the functions take and answer different types; a table would need a closure around each.
    match line[0] {
        b'a' => durations::as_secs_f64(a).write(out)?,
        b's' => answers::signed(a == 1, b).write(out)?,
        b'f' => durations::from_secs_f64(f64_from_bits_with_nan(a)).write(out)?,
        b'r' => answers::packet_loss(a).record_received().get().write(out)?,
        b'l' => answers::packet_loss(a).record_lost(b).get().write(out)?,
        b'j' => answers::jitter(numbers).write(out)?,
        b'o' => RtxRtt::from_first_sample(a).write(out)?,
        b'u' => rtt.with_sample(c).write(out)?,
        b'd' => answers::resend_delay(rtt).write(out)?,
        b'n' => answers::timings(numbers).write(out)?,
        b'x' => answers::stats(numbers).write(out)?,
        b'm' => answers::limit(numbers).write(out)?,
        b't' => answers::timeout(numbers).write(out)?,
        _ => None::<u64>.write(out)?,
    }
    writeln!(out)
}

// A line that is cut off ends the input, and so does a read that fails. Answers are written before more input is waited for, for a program at
// the other end of a pipe.
fn main(rt: HostRuntime) -> io::Result<()> {
    let mut input = BufReader::new(rt.alloc(), rt.stdin())?;
    let mut out = BufWriter::new(rt.alloc(), BestEffort::new(rt.stdout()))?;
    for _ in 0..LINES {
        if input.buffer().len() < line::LENGTH {
            out.flush()?;
        }
        let mut line = [0; line::LENGTH];
        if input.read_exact(&mut line).is_err() {
            break;
        }
        answer(&line, &mut out)?;
    }
    out.flush()
}
