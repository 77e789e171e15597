// The figures of 01's "Numbers" that are not proved one by one: at both widths, in cycles 0 to 3 and in the last cycle of 64 bits, for
// references at the ends and at the middle of the cycle, the numbers next to the reference (the Rust file's own `rollover` is among
// them) and those half a cycle away. A line for each: width, reference, number, extended number.
#![tactic(auto)]

use best_effort::BestEffort;
use rtp::{ExtendedRtpTimestamp, ExtendedSequenceNumber, RtpTimestamp, SequenceNumber};
use std::io::{self, BufWriter, Write};

// The numbers of a packet, which are cut to a width.
trait Cut {
    const WIDTH: u32;

    // `number` cut to the width, and what the reference extends that to.
    // Stays: the method and its two impls are the three; a struct of the two numbers would have no method but this.
    fn extended(reference: u64, number: u64) -> (u64, u64);

    final fn cycle() -> u64 {
        1u64.wrapping_shl(Self::WIDTH)
    }
}

impl Cut for SequenceNumber {
    const WIDTH: u32 = 16;

    // Stays: `truncated` and `guess_extended` would have to be methods of a trait in `rtp`, for this one caller.
    fn extended(reference: u64, number: u64) -> (u64, u64) {
        let cut = ExtendedSequenceNumber(number).truncated();
        let extended = ExtendedSequenceNumber(reference).guess_extended(cut);
        (u64::from(cut.0), extended.0)
    }
}

impl Cut for RtpTimestamp {
    const WIDTH: u32 = 32;

    // Stays: `truncated` and `guess_extended` would have to be methods of a trait in `rtp`, for this one caller.
    fn extended(reference: u64, number: u64) -> (u64, u64) {
        let cut = ExtendedRtpTimestamp(number).truncated();
        let extended = ExtendedRtpTimestamp(reference).guess_extended(cut);
        (u64::from(cut.0), extended.0)
    }
}

// The numbers from two before to two after the reference, and those half a cycle on.
fn numbers<N: Cut>(out: &mut impl Write, reference: u64) -> io::Result<()> {
    let opposite = reference.wrapping_add(N::cycle() / 2);
    let near = (-2..=2).map(|step| reference.wrapping_add_signed(step));
    let far = (-1..=1).map(|step| opposite.wrapping_add_signed(step));
    for number in near.chain(far) {
        let (cut, extended) = N::extended(reference, number);
        writeln!(out, "{} {reference} {cut} {extended}", N::WIDTH)?;
    }
    Ok(())
}

// References at the ends and at the middle of the cycle that begins at `start`.
fn references<N: Cut>(out: &mut impl Write, start: u64) -> io::Result<()> {
    let middle = start.wrapping_add(N::cycle() / 2);
    let last = start.wrapping_add(N::cycle()).wrapping_sub(1);
    for reference in [
        start,
        start.wrapping_add(1),
        middle.wrapping_sub(1),
        middle,
        middle.wrapping_add(1),
        last,
    ] {
        numbers::<N>(out, reference)?;
    }
    Ok(())
}

// Cycles are counted modulo 2^64: the one before cycle 0 is the last.
fn cycles<N: Cut>(out: &mut impl Write) -> io::Result<()> {
    for cycle in [u64::MAX, 0, 1, 2, 3] {
        references::<N>(out, cycle.wrapping_mul(N::cycle()))?;
    }
    Ok(())
}

fn main(rt: HostRuntime) -> io::Result<()> {
    let mut out = BufWriter::new(rt.alloc(), BestEffort::new(rt.stdout()))?;
    cycles::<SequenceNumber>(&mut out)?;
    cycles::<RtpTimestamp>(&mut out)?;
    out.flush()
}
