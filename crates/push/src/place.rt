// Where a media packet's number stands (01, "Gap"), and what its place makes of the gaps.
ghost use Rattle.std.specs.Prelude.{◌≡◌, true, ◌*◌, ◌≤◌, length, Some};
ghost use Rattle.words.specs.Blocks.{laid};
ghost use Rattle.words.specs.Order.{ascends};
ghost use Rattle.model.specs.Records as Records;
ghost use Rattle.model.specs.Rules as Rules;
ghost use Rattle.model.specs.Push as Push;
ghost use Rattle.model.specs.Storage.{gap_words, gap_words_of, gaps_of};
ghost use Rattle.packet_gaps.specs.Gaps.{GapsIn};
ghost use Rattle.session.specs.Place as Spec;
ghost use Rattle.push.specs.Media.{Readable, Takes};

use model::Session;
use rtp::ExtendedSequenceNumber;
use session::push::Place;

// 001's MAX_GAP_SIZE.
const MAX_GAP_SIZE: u64 = 1000;

// Where the number x stands, after the highest so far, h.
// Stays: a type of a session that check 16 passed would be made anew after each write (`settle`, `apply`), for a clause of one line; and
// with the number it would be one more, made for this call.
#[tactic(auto, using(rtp::proofs::Order::less), unfolding(session::specs::Place::place, model::specs::Rules::place_of))]
fn place_after(
    h: ExtendedSequenceNumber,
    s: Session,
    gaps: &[u64],
    x: ExtendedSequenceNumber,
) -> Place
    requires { Readable s gaps.now }
    ensures { Spec.place result ≡ Rules.place_of (Some h.0) (gaps_of gaps.now s.gaps) x.0 }
{
    if h < x {
        if x.0 - h.0 <= MAX_GAP_SIZE {
            return Place::Near(h);
        }
        return Place::Far(h);
    }
    if packet_gaps::contains(gaps, s.gaps, x) {
        return Place::Fills;
    }
    Place::Other
}

// Where a media packet's number stands.
// Stays: a type of a session that check 16 passed would be made anew after each write (`settle`, `apply`), for a clause of one line; and
// with the number it would be one more, made for this call.
#[tactic(auto, unfolding(session::specs::Place::place, model::specs::Push::place_in, model::specs::Rules::place_of, model::specs::Records::highest_of))]
pub(crate) fn media_place(s: Session, gaps: &[u64], x: ExtendedSequenceNumber) -> Place
    requires { Readable s gaps.now }
    ensures { Spec.place result ≡ Push.place_in s.queue (gaps_of gaps.now s.gaps) x.0 }
{
    if session::passed(s.queue, x) {
        return Place::Other;
    }
    match s.queue.last {
        None => Place::First,
        Some(r) => place_after(r.number, s, gaps, x),
    }
}

// 001's `report_received`: the gaps after a packet at this place; the answer is how many there are.
// Stays: the contract is of all of `gaps`, zeros behind the n too, so n gaps alone would not do; and of a `Held`, whose session is written
// only after `gaps_from`, the count would be the old one. `GapsIn` and the order hold at this step, of a session that may be damaged.
pub(crate) fn gaps_after(
    gaps: &mut [u64],
    n: usize,
    place: Place,
    x: ExtendedSequenceNumber,
    instant: u64,
) -> usize
    requires gaps_in { GapsIn gaps.old n }
    requires n_value { ascends (Records.gap_numbers (gaps_of gaps.old n)) ≡ true }
    requires takes { Takes gaps.old n x.0 (Spec.place place) }
    ensures value { result ≡ length (Rules.gaps_after instant x.0 (Spec.place place) (gaps_of gaps.old n)) }
    ensures gaps_after { gaps.new ≡ laid gap_words_of (length gaps.old) (Rules.gaps_after instant x.0 (Spec.place place) (gaps_of gaps.old n)) }
{
    // Stays: one arm to a place, and each works out another count.
    match place {
        Place::Near(h) => {
            packet_gaps::open_between(gaps, n, h, x, instant);
            n + (x.0 - h.0 - 1) as usize
        }
        Place::Far(_) => {
            packet_gaps::clear(gaps);
            0
        }
        Place::Fills => {
            packet_gaps::remove(gaps, n, x);
            n - 1
        }
        Place::First => n,
        Place::Other => n,
    }
}

// Leaves the gaps from the number x on; the answer is how many there are.
// Stays: as `gaps_after`; here n is what `gaps_after` left, which the session does not have yet.
pub(crate) fn gaps_from(gaps: &mut [u64], n: usize, x: ExtendedSequenceNumber) -> usize
    requires gaps_in { GapsIn gaps.old n }
    requires n_value { ascends (Records.gap_numbers (gaps_of gaps.old n)) ≡ true }
    ensures value { result ≡ length (Rules.gaps_from x.0 (gaps_of gaps.old n)) }
    ensures gaps_after { gaps.new ≡ laid gap_words_of (length gaps.old) (Rules.gaps_from x.0 (gaps_of gaps.old n)) }
{
    let k = packet_gaps::count_below(gaps, n, x);
    packet_gaps::drain(gaps, n, k);
    n - k
}
