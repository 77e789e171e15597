// `poll_nack` on the wire (02, point 1): the same NACKs as the entries of a generic NACK.
ghost use Rattle.model.specs.Calls as Calls;
ghost use Rattle.model.specs.Contract.{Does};
ghost use Rattle.storage.specs.Held.{held, SameSlices};
ghost use Rattle.poll.specs.Answers as Answers;

use refusals::Refusal;
use storage::Held;

// NACKs each gap that is due: the entries that name them go to the front of `out`, in which four bytes are a place. The answer is how many
// bytes they are, 0 where nothing is due.
// Stays: the session is lent and outlives the call, and the instant is this call's alone (the C interface has both as parameters).
pub fn nack_wire(q: &mut Held, now: u64, out: &mut [u8]) -> Result<usize, Refusal>
    ensures same_slices { SameSlices q.old q.new }
    ensures does { Does (Calls.nack_wire now out.old) (held q.old) (Answers.wire_answer result) (held q.new) out.new }
{
    let places = out.len() / nack_pairs::ENTRY_BYTES;
    let timings = super::nack::begin(q, now, places)?;
    Ok(packet_gaps::nacks::poll_wire(q.gaps, q.session.gaps, now, timings, out))
}
