// A line's numbers, and what is written behind them.
use config::NackTimings;
use rtp::ExtendedRtpTimestamp;
use rtx_state::RtxRtt;
use stats::RtpInboundRtxStats;
use std::io::{self, Write};

// Bytes of a line, and of a number with the blank before it.
pub(crate) const LENGTH: usize = 128;

const FIELD: usize = 21;

// Stays: a line of the input has that length.
pub(crate) type Line = [u8; LENGTH];

// Stays: a line of the input has six numbers.
pub(crate) type Numbers = [u64; 6];

// Anything but a digit is passed over, and so are the digits that come when the number has as many as it can have.
fn number(field: &[u8]) -> u64 {
    field
        .iter()
        .filter_map(|b| char::from(*b).to_digit(10))
        .fold(0u64, |value, digit| {
            value
                .checked_mul(10)
                .map_or(value, |tenfold| tenfold.wrapping_add(u64::from(digit)))
        })
}

// The numbers behind the letter.
pub(crate) fn numbers(line: &Line) -> Numbers {
    let mut numbers = [0; 6];
    for (n, field) in numbers.iter_mut().zip(line[1..].chunks_exact(FIELD)) {
        *n = number(field);
    }
    numbers
}

// What a line answers: each number behind a blank, floats as their bits, and `-` for what is refused, missing or no number.
pub(crate) trait Figure {
    fn write<W: Write>(&self, out: &mut W) -> io::Result<()>;
}

impl Figure for u64 {
    fn write<W: Write>(&self, out: &mut W) -> io::Result<()> {
        write!(out, " {self}")
    }
}

impl<T: Figure> Figure for Option<T> {
    fn write<W: Write>(&self, out: &mut W) -> io::Result<()> {
        match self {
            Some(figure) => figure.write(out),
            None => write!(out, " -"),
        }
    }
}

impl<A: Figure, B: Figure> Figure for (A, B) {
    fn write<W: Write>(&self, out: &mut W) -> io::Result<()> {
        self.0.write(out)?;
        self.1.write(out)
    }
}

impl Figure for f64 {
    fn write<W: Write>(&self, out: &mut W) -> io::Result<()> {
        let bits = (!self.is_nan()).then(|| self.to_bits());
        bits.write(out)
    }
}

// Stays: as for f64; a trait over the two would have `is_nan`, the bits and their width of each, which is all that they do.
impl Figure for f32 {
    fn write<W: Write>(&self, out: &mut W) -> io::Result<()> {
        let bits = (!self.is_nan()).then(|| u64::from(self.to_bits()));
        bits.write(out)
    }
}

impl Figure for ExtendedRtpTimestamp {
    fn write<W: Write>(&self, out: &mut W) -> io::Result<()> {
        self.0.write(out)
    }
}

impl Figure for RtxRtt {
    fn write<W: Write>(&self, out: &mut W) -> io::Result<()> {
        (self.srtt, self.variation).write(out)
    }
}

impl Figure for NackTimings {
    fn write<W: Write>(&self, out: &mut W) -> io::Result<()> {
        (self.initial, self.resend).write(out)
    }
}

impl Figure for RtpInboundRtxStats {
    fn write<W: Write>(&self, out: &mut W) -> io::Result<()> {
        self.packets_received_in_time.write(out)?;
        self.packets_received_too_late.write(out)?;
        self.packets_received_redundant.write(out)?;
        self.bytes_received.write(out)?;
        self.rtt.write(out)
    }
}
