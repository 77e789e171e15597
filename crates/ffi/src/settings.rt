// The settings line (02, point 13), as a caller outside reads and writes it. Neither call has a session.
ghost use Rattle.std.specs.Prelude.{◌≡◌};
ghost use Rattle.settings_words.specs.Words.{outcome, read_words, write_words};

use settings_words::{SettingsRead, SettingsWords, SettingsWritten};

// The settings that a line keeps: 21, 20 or 1 where it keeps none.
pub fn bizhgemu_read_settings(line: &[u8]) -> SettingsRead
    ensures { result ≡ read_words line.now }
{
    settings_words::read(line)
}

// Writes the line of these settings, 145 bytes, to the front of `out`: 1, then 15, where none is written.
pub fn bizhgemu_write_settings(settings: SettingsWords, out: &mut [u8]) -> SettingsWritten
    ensures { outcome result out.new ≡ write_words settings out.old }
{
    settings_words::write(settings, out)
}
