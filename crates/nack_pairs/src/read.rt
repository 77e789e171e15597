// The reader of a generic NACK's entries: of every list of bytes the 16-bit numbers that it names, or a refusal.
ghost use Rattle.std.specs.Prelude.{◌≡◌, ◌+◌, ◌*◌, ◌≤◌, ◌<◌, length, get_or};
ghost use Rattle.words.specs.Words.{over};
ghost use Rattle.refusals.specs.Refusals.{numbered};
ghost use Rattle.nack_pairs.specs.Wire as Wire;
ghost use Rattle.nack_pairs.specs.Reader.{named16, read_answer, list_after};

use super::ENTRY_BYTES;
use refusals::Refusal;

// The most numbers that a pair names.
const NUMBERS: usize = 17;

// Writes the numbers that one pair names to the front of `part`, and says how many they are.
#[tactic(auto, using(crate::proofs::Unmasking::unmasking))]
fn unmask(part: &mut [u16], first: u16, mask: u16) -> usize
    requires { Wire.NUMBERS ≤ length part.old }
    ensures value { result ≡ length (named16 first mask) }
    ensures part_after { part.new ≡ over (named16 first mask) part.old }
{
    part[0] = first;
    let mut count = 1;
    let mut left = mask;
    // Stays: the place goes up only where the bit is set, so that no iterator over `part` goes along with k.
    for k in 1..17 {
        if left % 2 == 1 {
            part[count] = first.wrapping_add(k);
            count += 1;
        }
        left /= 2;
    }
    count
}

// Writes the numbers that the entries in `bytes` name to the front of `list`: pair by pair the first number, then those of the mask.
// How many they are.
#[tactic(auto, using(crate::proofs::Unmasking::unmasking))]
pub fn read(bytes: &[u8], list: &mut [u16]) -> Result<usize, Refusal>
    ensures value { numbered result ≡ read_answer bytes.now (length list.old) }
    ensures list_after { list.new ≡ list_after bytes.now list.old }
{
    let whole = bytes.len() / ENTRY_BYTES;
    if list.len() / NUMBERS < whole {
        return Err(Refusal::Output);
    }
    if bytes.len() % ENTRY_BYTES != 0 {
        return Err(Refusal::NackEntries);
    }
    let mut count = 0;
    for entry in bytes.as_chunks::<ENTRY_BYTES>().0 {
        let [first_high, first_low, mask_high, mask_low] = *entry;
        let first = u16::from_be_bytes([first_high, first_low]);
        let mask = u16::from_be_bytes([mask_high, mask_low]);
        let more = unmask(&mut list[count..], first, mask);
        count += more;
    }
    Ok(count)
}
