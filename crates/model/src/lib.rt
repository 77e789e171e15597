// The records of the queue (000) as they go in and come back by value, beside the storage that the caller lends. No code: specs/
// holds what the queue is, for the contracts and for the theorem over every list of calls alike.
#![tactic(auto)]

ghost use Rattle.model.specs.Across.{FlippedAcross};
ghost use Rattle.model.specs.Delay.{JitterAlone};
ghost use Rattle.model.specs.Flipped.{FlippedBit};
ghost use Rattle.model.specs.OnTheWire.{OnTheWire};
ghost use Rattle.model.specs.Shared.{SharedRules};
ghost use Rattle.model.specs.StaysSound.{StaysSound};
ghost use Rattle.model.specs.Unaltered.{Unaltered};

use config::{Senders, Settings};
use jitter::Jitter;
use packet_loss::PacketLoss;
use rtp::{ExtendedRtpTimestamp, ExtendedSequenceNumber};
use rtx_state::RtxState;

// What the opening fixes.
#[derive(Clone, Copy)]
pub struct Config {
    pub settings: Settings,
    pub senders: Senders,
}

// The media packet with the highest number so far.
#[derive(Clone, Copy)]
pub struct Received {
    pub instant: u64,
    pub timestamp: ExtendedRtpTimestamp,
    pub number: ExtendedSequenceNumber,
}

#[derive(Clone, Copy, Default)]
pub struct Counters {
    pub dropped: u64,
    pub received: u64,
    pub bytes: u64,
    pub lost: u64,
}

// The Rust's `Queue` without its three lists.
#[derive(Clone, Copy)]
pub struct Queue {
    pub config: Config,
    // The latest accepted instant, in nanoseconds.
    pub clock: u64,
    pub last: Option<Received>,
    // The number that `poll` returned last, or that was pushed out last.
    pub returned: Option<ExtendedSequenceNumber>,
    pub rtx: RtxState,
    pub counters: Counters,
    pub jitter: Jitter,
    pub loss: PacketLoss,
}

// The session: the queue, and how many places of the lent storage each of its lists fills.
// Stays: the lists lie in lent storage (no heap), and the session has their counts.
#[derive(Clone, Copy)]
pub struct Session {
    pub queue: Queue,
    pub entries: usize,
    pub gaps: usize,
    pub remembered: usize,
}

// What the opening or an accepted call leaves is never refused under 16 at the next call.
pub fn stays_sound()
    ensures { StaysSound }
{}

// The call on the wire has the effect of `poll_nack`, and what it writes reads back as the numbers that `poll_nack` would have written.
pub fn on_the_wire()
    ensures { OnTheWire }
{}

// A media packet or repair that the session would have taken is refused where one bit of version, payload type or sender is turned over, and
// nothing is altered.
pub fn flipped_bit()
    ensures { FlippedBit }
{}

// Neither call takes it, media or repair, where media and repairs are at least two bits apart in payload type and sender together.
pub fn flipped_across()
    ensures { FlippedAcross }
{}

// The law that a refused call, or a refused opening, alters nothing.
pub fn unaltered()
    ensures { Unaltered }
{}

// The rules that queue and book share, held to 01's numbers without the one or the other.
pub fn shared_rules()
    ensures { SharedRules }
{}

// Without RTX, or without an estimate, the delay rests on the jitter alone (02, point 7).
pub fn jitter_alone()
    ensures { JitterAlone }
{}
