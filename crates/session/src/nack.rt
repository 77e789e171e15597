// The timings of NACKs (01, "Repair state"): the settings', and the measured round trip's.
#![tactic(auto, unfolding(model::specs::Rules::estimate_in, model::specs::Rules::timings_in))]

ghost use Rattle.std.specs.Prelude.{◌≡◌};
ghost use Rattle.model.specs.Poll.{estimate_of, timings_of};

use config::NackTimings;
use model::Queue;
use rtx_state::RtxRtt;

// The measured round trip; a session without RTX has none.
pub(crate) fn estimate_of(q: Queue) -> Option<RtxRtt>
    ensures { result ≡ estimate_of q }
{
    if q.config.senders.has_rtx {
        q.rtx.rtt
    } else {
        None
    }
}

// After how long a gap is NACKed, first and again.
pub fn nack_timings(q: Queue) -> NackTimings
    ensures { result ≡ timings_of q }
{
    q.config.settings.nack_timings(estimate_of(q))
}
