// The numbers of an opening, read into its settings (docs/TRACE.md, "Calls"): none where a number does not fit its type, which is refused
// as every other number out of its range is.
use config::{RtpInboundStreamDynamicConfig, Senders, Settings};
use model::Config;
use rtp::Ssrc;

// MODE CLOCK D G DELAY INITIAL RESEND MAX, as a trace has them, and MIN MAXDELAY T, which are 0 where it has none.
pub(crate) fn settings(numbers: [u64; 8], dynamic: [u64; 3]) -> Option<Settings> {
    let [
        mode,
        clock_rate,
        depth,
        gaps,
        delay,
        initial,
        resend,
        attempts,
    ] = numbers;
    let [min, max, target_recovery] = dynamic;
    if 2 < mode {
        return None;
    }
    let dynamic = RtpInboundStreamDynamicConfig {
        min,
        max,
        target_recovery,
    };
    Some(Settings {
        mode: config::mode_of(mode, dynamic),
        clock_rate: u32::try_from(clock_rate).ok()?,
        max_entries: depth as usize,
        max_gaps: gaps as usize,
        delay,
        initial_nack_delay: initial,
        default_nack_resend_delay: resend,
        max_nack_attempts: u32::try_from(attempts).ok()?,
    })
}

fn flag(n: u64) -> Option<bool> {
    match n {
        0 => Some(false),
        1 => Some(true),
        _ => None,
    }
}

// PT SSRC RTX RTXPT RTXSSRC.
fn senders([pt, ssrc, rtx, rtx_pt, rtx_ssrc]: [u64; 5]) -> Option<Senders> {
    Some(Senders {
        pt: u8::try_from(pt).ok()?,
        ssrc: Ssrc(u32::try_from(ssrc).ok()?),
        has_rtx: flag(rtx)?,
        rtx_pt: u8::try_from(rtx_pt).ok()?,
        rtx_ssrc: Ssrc(u32::try_from(rtx_ssrc).ok()?),
    })
}

pub(crate) fn config(numbers: [u64; 8], from: [u64; 5], dynamic: [u64; 3]) -> Option<Config> {
    Some(Config {
        settings: settings(numbers, dynamic)?,
        senders: senders(from)?,
    })
}

// The settings of a line that is to be written: what mode 2 alone has must be 0 in the others.
pub(crate) fn line_settings(numbers: [u64; 8], dynamic: [u64; 3]) -> Option<Settings> {
    if numbers[0] != 2 && dynamic != [0; 3] {
        return None;
    }
    settings(numbers, dynamic)
}
