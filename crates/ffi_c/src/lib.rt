// The archive that C and Rust link: each exported function calls the one of its name in crate `ffi` and states its clauses again. What each is for,
// and what its caller owes, stands there.
#![tactic(auto)]

ghost use Rattle.std.specs.Prelude.{◌≡◌, []};
ghost use Rattle.model.specs.Calls as Calls;
ghost use Rattle.model.specs.Contract.{lent, left};
ghost use Rattle.ffi_words.specs.Told as Told;
ghost use Rattle.ffi.specs.Exported as Exported;
ghost use Rattle.ffi.specs.Exported.{Gives, alone, opened_words};
ghost use Rattle.ffi.specs.Burst.{called_burst};
ghost use Rattle.settings_words.specs.Words.{outcome, read_words, write_words};

use ffi_words::answers::{Opened, Polled, PolledNack, PolledWire, Pushed, PushedBurst};
use ffi_words::figures::{Figures, Highest, Lengths, ReadNumbers, RtxStats, Timeout};
use ffi_words::{ConfigWords, SessionWords};
use settings_words::{SettingsRead, SettingsWords, SettingsWritten};

// Stays: the header's parameters, here and below: C lends four slices to each call, and a struct of them would be another interface
// (docs/VERSIONS.md).
#[unsafe(no_mangle)]
pub extern "C" fn bizhgemu_open(
    config: ConfigWords,
    entries: &mut [u64],
    payloads: &mut [u8],
    gaps: &mut [u64],
    remembered: &mut [u64],
) -> Opened
    ensures { opened_words config (lent entries payloads gaps remembered) ≡ record { value = result; storage = left entries payloads gaps remembered; output = [] } }
{
    ffi::bizhgemu_open(config, entries, payloads, gaps, remembered)
}

// Stays: the header's parameters: C gives session, storage and instant anew to each call.
#[unsafe(no_mangle)]
pub extern "C" fn bizhgemu_push(
    session: SessionWords,
    entries: &mut [u64],
    payloads: &mut [u8],
    gaps: &mut [u64],
    remembered: &mut [u64],
    now: u64,
    datagram: &[u8],
) -> Pushed
    ensures { Gives Told.pushed (Calls.media now datagram.now) session (lent entries payloads gaps remembered) result (left entries payloads gaps remembered) [] }
{
    ffi::bizhgemu_push(session, entries, payloads, gaps, remembered, now, datagram)
}

// Stays: the header's parameters: C gives session, storage and instant anew to each call.
#[unsafe(no_mangle)]
pub extern "C" fn bizhgemu_push_burst(
    session: SessionWords,
    entries: &mut [u64],
    payloads: &mut [u8],
    gaps: &mut [u64],
    remembered: &mut [u64],
    now: u64,
    buffer: &[u8],
    ends: &[u64],
    numbers: &mut [u8],
) -> PushedBurst
    ensures { called_burst now buffer.now ends.now numbers.old session (lent entries payloads gaps remembered) ≡ record { value = result; storage = left entries payloads gaps remembered; output = numbers.new } }
{
    ffi::bizhgemu_push_burst(
        session, entries, payloads, gaps, remembered, now, buffer, ends, numbers,
    )
}

// Stays: the header's parameters: C gives session, storage and instant anew to each call.
#[unsafe(no_mangle)]
pub extern "C" fn bizhgemu_push_rtx(
    session: SessionWords,
    entries: &mut [u64],
    payloads: &mut [u8],
    gaps: &mut [u64],
    remembered: &mut [u64],
    now: u64,
    datagram: &[u8],
) -> Pushed
    ensures { Gives Told.pushed (Calls.repair now datagram.now) session (lent entries payloads gaps remembered) result (left entries payloads gaps remembered) [] }
{
    ffi::bizhgemu_push_rtx(session, entries, payloads, gaps, remembered, now, datagram)
}

// Stays: the header's parameters: C gives session, storage and instant anew to each call.
#[unsafe(no_mangle)]
pub extern "C" fn bizhgemu_poll(
    session: SessionWords,
    entries: &mut [u64],
    payloads: &mut [u8],
    gaps: &mut [u64],
    remembered: &mut [u64],
    now: u64,
    out: &mut [u8],
) -> Polled
    ensures { Gives Told.polled (Calls.poll now out.old) session (lent entries payloads gaps remembered) result (left entries payloads gaps remembered) out.new }
{
    ffi::bizhgemu_poll(session, entries, payloads, gaps, remembered, now, out)
}

// Stays: the header's parameters: C gives session, storage and instant anew to each call.
#[unsafe(no_mangle)]
pub extern "C" fn bizhgemu_poll_nack(
    session: SessionWords,
    entries: &mut [u64],
    payloads: &mut [u8],
    gaps: &mut [u64],
    remembered: &mut [u64],
    now: u64,
    out: &mut [u16],
) -> PolledNack
    ensures { Gives Told.polled_nack (Calls.poll_nack now out.old) session (lent entries payloads gaps remembered) result (left entries payloads gaps remembered) out.new }
{
    ffi::bizhgemu_poll_nack(session, entries, payloads, gaps, remembered, now, out)
}

// Stays: the header's parameters: C gives session, storage and instant anew to each call.
#[unsafe(no_mangle)]
pub extern "C" fn bizhgemu_nack_wire(
    session: SessionWords,
    entries: &mut [u64],
    payloads: &mut [u8],
    gaps: &mut [u64],
    remembered: &mut [u64],
    now: u64,
    out: &mut [u8],
) -> PolledWire
    ensures { Gives Told.polled_wire (Calls.nack_wire now out.old) session (lent entries payloads gaps remembered) result (left entries payloads gaps remembered) out.new }
{
    ffi::bizhgemu_nack_wire(session, entries, payloads, gaps, remembered, now, out)
}

#[unsafe(no_mangle)]
pub extern "C" fn bizhgemu_read_nacks(entries: &[u8], out: &mut [u16]) -> ReadNumbers
    ensures { Exported.read_nacks entries.now out.old ≡ record { value = result; list = out.new } }
{
    ffi::bizhgemu_read_nacks(entries, out)
}

// Stays: the header's parameters: C gives session, storage and instant anew to each call.
#[unsafe(no_mangle)]
pub extern "C" fn bizhgemu_timeout_receive(
    session: SessionWords,
    entries: &mut [u64],
    payloads: &mut [u8],
    gaps: &mut [u64],
    remembered: &mut [u64],
    now: u64,
) -> Timeout
    ensures { Gives (alone Told.timeout_told) (Calls.timeout_receive now) session (lent entries payloads gaps remembered) result (left entries payloads gaps remembered) [] }
{
    ffi::bizhgemu_timeout_receive(session, entries, payloads, gaps, remembered, now)
}

// Stays: the header's parameters: C gives session, storage and instant anew to each call.
#[unsafe(no_mangle)]
pub extern "C" fn bizhgemu_timeout_nack(
    session: SessionWords,
    entries: &mut [u64],
    payloads: &mut [u8],
    gaps: &mut [u64],
    remembered: &mut [u64],
    now: u64,
) -> Timeout
    ensures { Gives (alone Told.timeout_told) (Calls.timeout_nack now) session (lent entries payloads gaps remembered) result (left entries payloads gaps remembered) [] }
{
    ffi::bizhgemu_timeout_nack(session, entries, payloads, gaps, remembered, now)
}

// Stays: the header's parameters: C gives session and storage anew to each call.
#[unsafe(no_mangle)]
pub extern "C" fn bizhgemu_rtx_stats(
    session: SessionWords,
    entries: &mut [u64],
    payloads: &mut [u8],
    gaps: &mut [u64],
    remembered: &mut [u64],
) -> RtxStats
    ensures { Gives (alone Told.stats_told) Calls.rtx_stats session (lent entries payloads gaps remembered) result (left entries payloads gaps remembered) [] }
{
    ffi::bizhgemu_rtx_stats(session, entries, payloads, gaps, remembered)
}

// Stays: the header's parameters: C gives session and storage anew to each call.
#[unsafe(no_mangle)]
pub extern "C" fn bizhgemu_highest_sequence_number_received(
    session: SessionWords,
    entries: &mut [u64],
    payloads: &mut [u8],
    gaps: &mut [u64],
    remembered: &mut [u64],
) -> Highest
    ensures { Gives (alone Told.highest_told) Calls.highest_received session (lent entries payloads gaps remembered) result (left entries payloads gaps remembered) [] }
{
    ffi::bizhgemu_highest_sequence_number_received(session, entries, payloads, gaps, remembered)
}

#[unsafe(no_mangle)]
pub extern "C" fn bizhgemu_figures(session: SessionWords) -> Figures
    ensures { result ≡ Exported.figures session }
{
    ffi::bizhgemu_figures(session)
}

#[unsafe(no_mangle)]
pub extern "C" fn bizhgemu_lengths(max_entries: usize, max_gaps: usize) -> Lengths
    ensures { result ≡ Exported.lengths max_entries max_gaps }
{
    ffi::bizhgemu_lengths(max_entries, max_gaps)
}

#[unsafe(no_mangle)]
pub extern "C" fn bizhgemu_version() -> u64
    ensures { result ≡ Exported.VERSION }
{
    ffi::bizhgemu_version()
}

#[unsafe(no_mangle)]
pub extern "C" fn bizhgemu_read_settings(line: &[u8]) -> SettingsRead
    ensures { result ≡ read_words line.now }
{
    ffi::settings::bizhgemu_read_settings(line)
}

#[unsafe(no_mangle)]
pub extern "C" fn bizhgemu_write_settings(
    settings: SettingsWords,
    out: &mut [u8],
) -> SettingsWritten
    ensures { outcome result out.new ≡ write_words settings out.old }
{
    ffi::settings::bizhgemu_write_settings(settings, out)
}
