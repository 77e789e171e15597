// The settings of a line as they cross the boundary: plain numbers, no enum. The reader and the writer of the line on them.
#![tactic(auto)]

ghost use Rattle.std.specs.Prelude.{◌≡◌};
ghost use Rattle.refusals.specs.Refusals.{numbered};
ghost use Rattle.settings_words.specs.Words.{read_words, outcome, wrote_words, mode_fits, write_words, Kept};

use config::{RtpInboundStreamDynamicConfig, Settings};
use refusals::Refusal;

// `mode` is 0 for Passthrough, 1 for a fixed delay, 2 for a dynamic one. `min_delay`, `max_delay` and `target_recovery` are of mode 2 and 0
// outside it.
// Stays: of the C interface.
#[repr(C)]
#[derive(Clone, Copy, Default)]
pub struct SettingsWords {
    pub delay: u64,
    pub initial_nack_delay: u64,
    pub default_nack_resend_delay: u64,
    pub min_delay: u64,
    pub max_delay: u64,
    pub target_recovery: u64,
    pub max_entries: usize,
    pub max_gaps: usize,
    pub clock_rate: u32,
    pub max_nack_attempts: u32,
    pub mode: u32,
}

// Settings of zeros where the line was refused.
// Stays: of the C interface.
#[repr(C)]
#[derive(Clone, Copy)]
pub struct SettingsRead {
    pub refusal: u64,
    pub settings: SettingsWords,
}

// How many bytes of the output are the line.
// Stays: of the C interface.
#[repr(C)]
#[derive(Clone, Copy)]
pub struct SettingsWritten {
    pub refusal: u64,
    pub bytes: usize,
}

// ---- read

impl From<Settings> for SettingsWords {
    ghost use Rattle.settings_words.specs.Words.{words_of};

    ghost from_gives = { λ s w. w ≡ words_of s };

    // Stays: field by field, since the words are of the C interface and have no enum.
    #[tactic(auto, unfolding(crate::specs::Words::words_of))]
    fn from(s: Settings) -> SettingsWords {
        let mode = s.mode;
        let dynamic = mode.dynamic();
        SettingsWords {
            delay: s.delay,
            initial_nack_delay: s.initial_nack_delay,
            default_nack_resend_delay: s.default_nack_resend_delay,
            min_delay: dynamic.min,
            max_delay: dynamic.max,
            target_recovery: dynamic.target_recovery,
            max_entries: s.max_entries,
            max_gaps: s.max_gaps,
            clock_rate: s.clock_rate,
            max_nack_attempts: s.max_nack_attempts,
            mode: mode.number(),
        }
    }
}

// The settings that a line keeps, or 21, 20 or 1.
#[tactic(auto, unfolding(crate::specs::Words::read_words, crate::specs::Words::told, crate::specs::Words::no_settings))]
pub fn read(line: &[u8]) -> SettingsRead
    ensures { result ≡ read_words line.now }
{
    match settings_line::read_line(line) {
        Ok(s) => SettingsRead {
            refusal: 0,
            settings: SettingsWords::from(s),
        },
        Err(refusal) => SettingsRead {
            refusal: refusal.number(),
            settings: SettingsWords::default(),
        },
    }
}

// ---- written

impl From<SettingsWords> for Settings {
    ghost use Rattle.settings_words.specs.Words.{settings_of};

    ghost from_gives = { λ w s. s ≡ settings_of w };

    // Stays: field by field, since the words are of the C interface and have no enum.
    #[tactic(auto, unfolding(crate::specs::Words::settings_of))]
    fn from(w: SettingsWords) -> Settings {
        let dynamic = RtpInboundStreamDynamicConfig {
            min: w.min_delay,
            max: w.max_delay,
            target_recovery: w.target_recovery,
        };
        let mode = config::mode_of(u64::from(w.mode), dynamic);
        Settings {
            mode,
            clock_rate: w.clock_rate,
            max_entries: w.max_entries,
            max_gaps: w.max_gaps,
            delay: w.delay,
            initial_nack_delay: w.initial_nack_delay,
            default_nack_resend_delay: w.default_nack_resend_delay,
            max_nack_attempts: w.max_nack_attempts,
        }
    }
}

#[tactic(auto, unfolding(crate::specs::Words::wrote_words))]
fn write_told(answer: Result<usize, Refusal>) -> SettingsWritten
    ensures { result ≡ wrote_words (numbered answer) }
{
    match answer {
        Ok(bytes) => SettingsWritten { refusal: 0, bytes },
        Err(refusal) => SettingsWritten {
            refusal: refusal.number(),
            bytes: 0,
        },
    }
}

// "The .. last three are 0 outside mode 2": settings of another mode have no place for them.
#[tactic(auto, unfolding(crate::specs::Words::mode_fits))]
fn mode_fits(w: SettingsWords) -> bool
    ensures { result ≡ mode_fits w }
{
    (w.mode == 2)
        | ((w.mode < 2) & ((w.min_delay == 0) & ((w.max_delay == 0) & (w.target_recovery == 0))))
}

// Writes the line of these settings; a mode that is none, or words that its settings have no place for, are refused under 1 too.
#[tactic(auto, unfolding(crate::specs::Words::write_words, crate::specs::Words::wrote_words))]
pub fn write(w: SettingsWords, out: &mut [u8]) -> SettingsWritten
    ensures { outcome result out.new ≡ write_words w out.old }
{
    if !mode_fits(w) {
        return write_told(Err(Refusal::Settings));
    }
    write_told(settings_line::write_line(Settings::from(w), out))
}

// What the reader gives, the writer takes for the same settings.
pub fn settings_are_kept()
    ensures { Kept }
{}
