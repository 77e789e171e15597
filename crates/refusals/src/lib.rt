// The refusals of a call: the table "Where a call is turned back" of document 01, each with its words there and those that document 02 adds,
// under its number. A refused call alters nothing: session, clock and every lent buffer are unchanged.
#![tactic(auto)]

ghost use Rattle.std.specs.Prelude.{◌≡◌, map};
ghost use Rattle.refusals.specs.Refusals.{number, numbers};

#[derive(Clone, Copy, Debug, PartialEq, Eq)]
pub enum Refusal {
    // Opening: clock rate outside 1 to 1,000,000; D outside 1 to 1,024; G outside 999 to 4,096; a duration over 60,000,000,000; max
    // attempts outside 1 to 255; a payload type over 127. 02, point 13, of a settings line also: a mode that is not its version's, a field that must
    // be 0.
    Settings = 1,

    // Datagram: under 12 bytes; after check 3 also: under its CSRCs and extension.
    Truncated = 2,

    // Datagram: version not 2.
    Version = 3,

    // Datagram: padding bit with no byte after the header, or with count 0 or more than the bytes after the header.
    Padding = 4,

    // Datagram: payload over 320 bytes, repair over 322.
    PayloadTooLarge = 5,

    // Datagram: payload type not the session's (media or RTX).
    PayloadType = 6,

    // Datagram: SSRC not the session's (media or RTX).
    Ssrc = 7,

    // Clock: instant above 2^52 − 1, or before the latest accepted one.
    Clock = 8,

    // Repair: session without RTX.
    NoRtx = 9,

    // Repair: no media packet yet.
    NoMedia = 10,

    // Repair: payload under 2 bytes.
    NoOriginalNumber = 11,

    // Gaps: s from 2 to 1,000, packet would be queued, open gaps + s − 1 over G.
    GapsFull = 12,

    // Entries: repair would be inserted with 2 · D entries held.
    EntriesFull = 13,

    // Counts: an extended value or counter would pass 2^52 − 1, or a NACK count 2^32 − 1.
    Count = 14,

    // Output: `poll`: lent buffer under 320 bytes; `poll_nack`: list under G numbers. 02, point 1: `poll_nack` on the wire: output under 4 · G
    // bytes; the reader of NACK entries: list under 17 numbers for each whole four bytes. Point 13: the writer of a settings line: output under 145
    // bytes.
    Output = 15,

    // Session: storage lengths not those of D and G; a setting that 1 refuses; more than 2 · D entries, G gaps or 1,024 remembered;
    // entries or gaps not strictly ascending; an entry's or gap's number in both, above the highest, or in sorted mode not above the
    // last returned; a gap at the highest or a last returned above it; an entry, gap or last returned before any media packet; a
    // payload over 320; an instant after the clock's; an extended value, counter, srtt or variation over 2^52 − 1; the jitter
    // record's clock rate not the setting's, jitter not from 0 to the clock rate, loss not from 0 to 1.
    Session = 16,

    // 02, point 1, the reader of NACK entries: not a multiple of 4 bytes.
    NackEntries = 17,

    // 02, point 13, the reader of a settings line: its length not 145 (version 1: 121), its last byte no line feed, or a field not blanks, if any,
    // followed by at least one digit, or with a leading zero before another digit.
    SettingsLine = 20,

    // 02, point 13, the reader of a settings line: the first 12 bytes not eleven blanks and 1 or 2, or not all there.
    LineVersion = 21,
}

impl Refusal {
    // The table's number; one that is changed above is not proved here.
    // Stays: the definitions have this name too; `u64::from(refusal)` would say less.
    pub fn number(self) -> u64
        ensures { result ≡ number self }
    {
        self as u64
    }
}

// All of them, ascending by number.
pub fn all() -> [Refusal; 19]
    ensures { map number result ≡ numbers }
{
    [
        Refusal::Settings,
        Refusal::Truncated,
        Refusal::Version,
        Refusal::Padding,
        Refusal::PayloadTooLarge,
        Refusal::PayloadType,
        Refusal::Ssrc,
        Refusal::Clock,
        Refusal::NoRtx,
        Refusal::NoMedia,
        Refusal::NoOriginalNumber,
        Refusal::GapsFull,
        Refusal::EntriesFull,
        Refusal::Count,
        Refusal::Output,
        Refusal::Session,
        Refusal::NackEntries,
        Refusal::SettingsLine,
        Refusal::LineVersion,
    ]
}
