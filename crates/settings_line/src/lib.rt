// The settings as one line of text (02, point 13): the reader, the writer, and the theorems that join them.
#![tactic(auto)]

ghost use Rattle.std.specs.Prelude.{◌≡◌, ◌*◌, ◌^◌, ◌≤◌, ◌<◌, length, get_or, SomeIff};
ghost use Rattle.words.specs.Words.{over};
ghost use Rattle.refusals.specs.Refusals.{numbered};
ghost use Rattle.settings_line.specs.Fields.{numbers_of, settings_of, zeros_outside};
ghost use Rattle.settings_line.specs.Line.{fields, numbers_in, line_numbers, taken as taken_of, begins, read_first, read_second, read_line, outcome, write_line};
ghost use Rattle.settings_line.specs.Claims.{ReadsBack, OnlyLine, AsTheOpening};

use config::{RtpInboundStreamDynamicConfig, Settings};
use refusals::Refusal;

// Columns of a field.
const WIDTH: usize = 12;

const LINE_FEED: u8 = b'\n';

// Bytes of a line that is written: twelve fields and the line feed.
const LENGTH: usize = 145;

// "The fixed delay is 0 outside mode 1, the last three are 0 outside mode 2."
#[tactic(auto, unfolding(crate::specs::Fields::zeros_outside))]
fn zeros_outside(n: [u64; 11]) -> bool
    ensures { result ≡ zeros_outside n }
{
    let [mode, _, _, _, delay, _, _, _, min, max, target_recovery] = n;
    ((mode == 1) | (delay == 0))
        & ((mode == 2) | ((min == 0) & (max == 0) & (target_recovery == 0)))
}

// ---- read

// Whether a line begins with the field of this version.
#[tactic(auto, using(crate::proofs::Lines::version))]
fn is_version(line: &[u8], version: u64) -> bool
    requires { version < 10 }
    ensures { result ≡ begins version line.now }
{
    WIDTH <= line.len() && columns::read(&line[..WIDTH]) == Some(version)
}

// The numbers of the first N fields, if each is one.
#[tactic(auto, using(crate::proofs::Numbered::gathered))]
fn numbers_in<const N: usize>(fields: &[u8]) -> Option<[u64; N]>
    requires { (N ≤ 11) × (12 * N ≤ length fields.now) }
    ensures { result ≡ numbers_in N fields.now }
{
    let mut values = [0u64; N];
    let mut parts = fields.chunks_exact(WIDTH);
    for value in values.iter_mut() {
        *value = columns::read(parts.next()?)?;
    }
    Some(values)
}

// The numbers of a line, if it is as long as its version with N of them, ends as a line and has numbers in its fields.
#[tactic(auto, using(crate::proofs::Lines::whole_line))]
fn line_numbers<const N: usize>(line: &[u8]) -> Option<[u64; N]>
    requires { N ≤ 11 }
    ensures { result ≡ line_numbers N line.now }
{
    let end = WIDTH * (N + 1);
    if line.len() != end + 1 {
        return None;
    }
    if line[end] != LINE_FEED {
        return None;
    }
    numbers_in(&line[WIDTH..])
}

// The settings with these numbers, if two of them fit the record's narrower fields.
#[tactic(auto, unfolding(crate::specs::Fields::settings_of))]
fn settings_of(n: [u64; 11]) -> Option<Settings>
    ensures { SomeIff result ((get_or n 1 0 < 2 ^ 32) × (get_or n 7 0 < 2 ^ 32)) (settings_of n) }
{
    let [
        mode,
        clock_rate,
        depth,
        gaps,
        delay,
        initial,
        resend,
        attempts,
        min,
        max,
        target_recovery,
    ] = n;
    let dynamic = RtpInboundStreamDynamicConfig {
        min,
        max,
        target_recovery,
    };
    Some(Settings {
        mode: config::mode_of(mode, dynamic),
        clock_rate: u32::try_from(clock_rate).ok()?,
        max_entries: depth as usize,
        max_gaps: gaps as usize,
        delay,
        initial_nack_delay: initial,
        default_nack_resend_delay: resend,
        max_nack_attempts: u32::try_from(attempts).ok()?,
    })
}

// The settings with these numbers, or refusal 1.
#[tactic(auto, using(crate::proofs::Lines::too_wide), unfolding(crate::specs::Line::taken))]
fn taken(version: u64, n: [u64; 11]) -> Result<Settings, Refusal>
    ensures { numbered result ≡ taken_of version n }
{
    let [mode, ..] = n;
    if version < mode {
        return Err(Refusal::Settings);
    }
    if !zeros_outside(n) {
        return Err(Refusal::Settings);
    }
    let s = settings_of(n).ok_or(Refusal::Settings)?;
    if s.is_valid() {
        Ok(s)
    } else {
        Err(Refusal::Settings)
    }
}

// A line whose version is 1: of its nine numbers the last, `nack_window`, is discarded.
#[tactic(auto, using(refusals::proofs::Laws::passed_on, crate::proofs::Lines::first_unread, crate::proofs::Lines::first_taken))]
fn read_first(line: &[u8]) -> Result<Settings, Refusal>
    ensures { numbered result ≡ read_first (line_numbers 9 line.now) }
{
    let n = line_numbers::<9>(line).ok_or(Refusal::SettingsLine)?;
    let [mode, rate, depth, gaps, delay, initial, resend, attempts, _] = n;
    let kept = [
        mode, rate, depth, gaps, delay, initial, resend, attempts, 0, 0, 0,
    ];
    taken(1, kept)
}

// A line whose version is 2.
#[tactic(auto, using(refusals::proofs::Laws::passed_on, crate::proofs::Lines::second_unread, crate::proofs::Lines::second_taken))]
fn read_second(line: &[u8]) -> Result<Settings, Refusal>
    ensures { numbered result ≡ read_second (line_numbers 11 line.now) }
{
    let n = line_numbers::<11>(line).ok_or(Refusal::SettingsLine)?;
    taken(2, n)
}

// The settings that a line keeps; 21, 20 or 1 where it keeps none.
#[tactic(auto, unfolding(crate::specs::Line::read_line))]
pub fn read_line(line: &[u8]) -> Result<Settings, Refusal>
    ensures { numbered result ≡ read_line line.now }
{
    if is_version(line, 1) {
        return read_first(line);
    }
    if is_version(line, 2) {
        return read_second(line);
    }
    Err(Refusal::LineVersion)
}

// ---- written

// The numbers of the fields after the version.
#[tactic(auto, unfolding(crate::specs::Fields::numbers_of))]
fn numbers(s: Settings) -> [u64; 11]
    ensures { result ≡ numbers_of s }
{
    let mode = s.mode;
    let dynamic = mode.dynamic();
    [
        u64::from(mode.number()),
        u64::from(s.clock_rate),
        s.max_entries as u64,
        s.max_gaps as u64,
        s.delay,
        s.initial_nack_delay,
        s.default_nack_resend_delay,
        u64::from(s.max_nack_attempts),
        dynamic.min,
        dynamic.max,
        dynamic.target_recovery,
    ]
}

// Puts numbers into fields, one after the other from the front of `out`.
#[tactic(auto, using(crate::proofs::Numbered::put))]
fn write_numbers(numbers: &[u64], out: &mut [u8])
    requires { 12 * length numbers.now ≤ length out.old }
    ensures { out.new ≡ over (fields numbers.now) out.old }
{
    for (i, &n) in numbers.iter().enumerate() {
        columns::write_at(out, WIDTH * i, WIDTH, n);
    }
}

// Writes the line of these settings; 1, then 15, where none is written. Bytes after the line stay. How many bytes the line has.
#[tactic(auto, using(crate::proofs::Lines::written_line), unfolding(crate::specs::Line::write_line, crate::specs::Fields::line_valid))]
pub fn write_line(s: Settings, out: &mut [u8]) -> Result<usize, Refusal>
    ensures { outcome (numbered result) out.new ≡ write_line s out.old }
{
    if !s.is_valid() {
        return Err(Refusal::Settings);
    }
    let n = numbers(s);
    if !zeros_outside(n) {
        return Err(Refusal::Settings);
    }
    if out.len() < LENGTH {
        return Err(Refusal::Output);
    }
    columns::write_at(out, 0, WIDTH, 2);
    write_numbers(&n, &mut out[WIDTH..]);
    out[LENGTH - 1] = LINE_FEED;
    Ok(LENGTH)
}

// ---- theorems

// Every line that the writer makes reads back to the same settings.
#[tactic(auto, using(crate::proofs::Lines::made_back))]
pub fn reads_back()
    ensures { ReadsBack }
{}

// Of the version 2 lines that mean the same only that one is accepted.
pub fn only_line()
    ensures { OnlyLine }
{}

// What is read the opening takes, and what it takes is written, but for zeros.
#[tactic(auto, using(crate::proofs::Lines::opening))]
pub fn as_the_opening()
    ensures { AsTheOpening }
{}
