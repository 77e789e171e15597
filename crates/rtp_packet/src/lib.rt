// The datagram reader (007; RFC 3550, section 5.1) and the repair reader above it (RFC 4588, section 4). No field is handed on before
// version, lengths, payload type and SSRC were checked.
#![tactic(auto)]

ghost use Rattle.std.specs.Prelude.{◌≡◌};
ghost use Rattle.refusals.specs.Refusals.{refusal_of, numbered};
ghost use Rattle.rtp_packet.specs.Header.{between};
ghost use Rattle.rtp_packet.specs.Datagram.{largest_payload, largest_repair, wrong_padding, datagram_refusal, packet_of, parsed};
ghost use Rattle.rtp_packet.specs.Original.{original_of, original_payload};
ghost use Rattle.rtp_packet.specs.OneBit.{OneBit};
ghost use Rattle.rtp_packet.specs.Layout.{HeaderLayout, RepairLayout};

mod header;

use refusals::Refusal;
use rtp::{RtpTimestamp, SequenceNumber, Ssrc};

// The most bytes of a media packet's payload, and of a repair's, which begins with the original number.
pub const LARGEST_PAYLOAD: usize = 320;

pub const LARGEST_REPAIR: usize = 322;

// What the header says; the payload is the datagram's bytes from start up to end.
// Stays: `packet_of` has the two places; with the payload lent as a part the lemmas on places would stay, and one on parts would come.
#[derive(Clone, Copy)]
pub struct RtpPacket {
    pub pt: u8,
    pub sequence_number: SequenceNumber,
    pub ssrc: Ssrc,
    pub timestamp: RtpTimestamp,
    pub marker: bool,
    pub start: usize,
    pub end: usize,
}

// A media packet, and a repair, for a session that expects this payload type and SSRC.
// Stays: with `parse` alone four calls in two crates would each name a bound that has to fit the kind of packet; and the caller has payload
// type and SSRC among the five fields of `Senders`.
pub fn parse_media(datagram: &[u8], pt: u8, ssrc: Ssrc) -> Result<RtpPacket, Refusal>
    ensures { numbered result ≡ parsed pt ssrc.0 largest_payload datagram.now }
{
    parse(datagram, pt, ssrc, LARGEST_PAYLOAD)
}

// Stays: the caller has the two among the five fields of `Senders`; a struct of them would be built for the call that takes it apart.
pub fn parse_repair(datagram: &[u8], pt: u8, ssrc: Ssrc) -> Result<RtpPacket, Refusal>
    ensures { numbered result ≡ parsed pt ssrc.0 largest_repair datagram.now }
{
    parse(datagram, pt, ssrc, LARGEST_REPAIR)
}

// The packet in a datagram, with a payload of at most `largest` bytes.
// Stays: the two come from five fields of `Senders`; a struct of them would be built for the one call that takes it apart.
#[tactic(auto, using(refusals::proofs::Laws::passed_on, refusals::proofs::Laws::refused_unless, refusals::proofs::Laws::accepted_unless), unfolding(crate::specs::Datagram::parsed))]
pub fn parse(datagram: &[u8], pt: u8, ssrc: Ssrc, largest: usize) -> Result<RtpPacket, Refusal>
    ensures { numbered result ≡ parsed pt ssrc.0 largest datagram.now }
{
    check_datagram(datagram, pt, ssrc, largest)?;
    Ok(packet(datagram))
}

// The Datagram rows of 01's table, downwards. Payload type and SSRC are those of the datagram's own header: a repair is rewritten only
// after it was read.
// Stays: the two are compared one by one, and come from five fields of `Senders`; a struct of them would be built for this call.
#[tactic(auto, using(crate::proofs::Bounds::sized), unfolding(crate::specs::Datagram::datagram_refusal, refusals::specs::Refusals::refuse_if, refusals::specs::Refusals::or_else))]
fn check_datagram(datagram: &[u8], pt: u8, ssrc: Ssrc, largest: usize) -> Result<(), Refusal>
    ensures { refusal_of result ≡ datagram_refusal pt ssrc.0 largest datagram.now }
{
    if datagram.len() < 12 {
        return Err(Refusal::Truncated);
    }
    if header::version_of(datagram) != 2 {
        return Err(Refusal::Version);
    }
    let start = header::header_length(datagram);
    if datagram.len() < start {
        return Err(Refusal::Truncated);
    }
    if wrong_padding(datagram) {
        return Err(Refusal::Padding);
    }
    if largest < header::payload_end(datagram) - start {
        return Err(Refusal::PayloadTooLarge);
    }
    let own_type = header::payload_type(datagram);
    if own_type != pt {
        return Err(Refusal::PayloadType);
    }
    let own_ssrc = header::ssrc(datagram);
    if own_ssrc != ssrc {
        return Err(Refusal::Ssrc);
    }
    Ok(())
}

#[tactic(auto, unfolding(crate::specs::Datagram::wrong_padding))]
fn wrong_padding(datagram: &[u8]) -> bool
    ensures { result ≡ wrong_padding datagram.now }
{
    let start = header::header_length(datagram);
    let count = header::padding_length(datagram);
    header::has_padding(datagram)
        && (datagram.len() <= start || count == 0 || datagram.len() - start < count)
}

#[tactic(auto, unfolding(crate::specs::Datagram::packet_of))]
fn packet(datagram: &[u8]) -> RtpPacket
    ensures { result ≡ packet_of datagram.now }
{
    RtpPacket {
        pt: header::payload_type(datagram),
        sequence_number: header::sequence_number(datagram),
        ssrc: header::ssrc(datagram),
        timestamp: header::timestamp(datagram),
        marker: header::has_marker(datagram),
        start: header::header_length(datagram),
        end: header::payload_end(datagram),
    }
}

// The payload of a packet read from this datagram, as a part of it.
#[tactic(auto, using(crate::proofs::Bounds::between_none))]
pub fn payload(datagram: &[u8], packet: RtpPacket) -> &[u8]
    ensures { result.now ≡ between packet.start packet.end datagram.now }
{
    let end = packet.end.min(datagram.len());
    datagram.get(packet.start..end).unwrap_or(&[])
}

// The original number of a repair: the first two bytes of its payload, high byte first.
#[tactic(auto, unfolding(crate::specs::Original::original_of, crate::specs::Original::original_refusal, refusals::specs::Refusals::refuse_if, crate::specs::Original::original_number))]
pub fn original_number(payload: &[u8]) -> Result<SequenceNumber, Refusal>
    ensures { numbered result ≡ original_of payload.now }
{
    if payload.len() < 2 {
        return Err(Refusal::NoOriginalNumber);
    }
    Ok(SequenceNumber(header::big_endian(payload, 0, 2) as u16))
}

// The rest of a repair's payload, also when empty.
#[tactic(auto, unfolding(crate::specs::Original::original_payload))]
pub fn original_payload(payload: &[u8]) -> &[u8]
    ensures { result.now ≡ original_payload payload.now }
{
    payload.get(2..).unwrap_or(&[])
}

// Nothing is computed: what it ensures is the law that one changed bit of version, payload type or SSRC is refused.
#[tactic(auto, using(crate::proofs::OneBit::one_bit))]
pub fn one_bit()
    ensures { OneBit }
{}

// The same for what the reader is held to: RFC 3550's picture, as a writer lays it out, and RFC 4588's payload of a repair.
#[tactic(auto, using(crate::proofs::Refused::accepted, crate::proofs::Written::reads_back, crate::proofs::Written::passes, crate::proofs::Taken::laid_out, crate::proofs::Taken::within))]
pub fn header_layout()
    ensures { HeaderLayout }
{}

pub fn repair_layout()
    ensures { RepairLayout }
{}
