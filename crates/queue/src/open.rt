// The opening: checks 1, then 16 for the lengths alone; the storage is zeros after it.
ghost use Rattle.std.specs.Prelude.{◌≡◌};
ghost use Rattle.refusals.specs.Refusals.{refusal_of};
ghost use Rattle.model.specs.Records.{new_state};
ghost use Rattle.model.specs.Storage.{write};
ghost use Rattle.model.specs.Table.{opening_refusal};
ghost use Rattle.queue.specs.Answers.{opening_answer};
ghost use Rattle.model.specs.Contract.{storage, lent, left, Opens};

use jitter::Jitter;
use model::{Config, Counters, Queue, Session};
use packet_loss::PacketLoss;
use refusals::Refusal;
use rtx_state::RtxState;

// A session that holds nothing.
#[tactic(auto, unfolding(model::specs::Records::new_queue, model::specs::Records::new_state, model::specs::Storage::write))]
fn new_session(config: Config) -> Session
    ensures { result ≡ (write (new_state config)).session }
{
    let queue = Queue {
        config,
        clock: 0,
        last: None,
        returned: None,
        rtx: RtxState::new(),
        counters: Counters::default(),
        jitter: Jitter::new(config.settings.clock_rate),
        loss: PacketLoss::new(),
    };
    Session {
        queue,
        entries: 0,
        gaps: 0,
        remembered: 0,
    }
}

// Stays: the exported function lends the four slices (the C interface), and there is no session yet that a `Held` could have.
#[tactic(auto, unfolding(model::specs::Table::opening_refusal, refusals::specs::Refusals::refuse_if, refusals::specs::Refusals::or_else))]
fn check_opening(
    config: Config,
    entries: &[u64],
    payloads: &[u8],
    gaps: &[u64],
    remembered: &[u64],
) -> Result<(), Refusal>
    ensures { refusal_of result ≡ opening_refusal config (storage entries.now payloads.now gaps.now remembered.now) }
{
    if !checks::config_valid(config) {
        return Err(Refusal::Settings);
    }
    if storage::lengths_fit(config.settings, entries, payloads, gaps, remembered) {
        return Ok(());
    }
    Err(Refusal::Session)
}

// Stays: the exported function lends the four slices (the C interface), and there is no session yet that a `Held` could have.
pub fn open(
    config: Config,
    entries: &mut [u64],
    payloads: &mut [u8],
    gaps: &mut [u64],
    remembered: &mut [u64],
) -> Result<Session, Refusal>
    ensures { Opens config (lent entries payloads gaps remembered) (opening_answer result) (left entries payloads gaps remembered) }
{
    check_opening(config, entries, payloads, gaps, remembered)?;
    words::tidy(entries, 0);
    words::tidy(payloads, 0);
    words::tidy(gaps, 0);
    words::tidy(remembered, 0);
    Ok(new_session(config))
}
