// Loss in ten thousandths and NACK attempts of a dynamic delay (02, point 7), in whole numbers; 003 has a logarithm in its place.
#![tactic(auto)]

ghost use Rattle.std.specs.Prelude.{◌≡◌, ◌≤◌, T};
ghost use Rattle.std.specs.Float.Ieee.{le};
ghost use Rattle.packet_loss.specs.Loss.{zero32, one32};
ghost use Rattle.nack_attempts.specs.Attempts.{loss_of, attempts_of};
ghost use Rattle.nack_attempts.specs.Claims.{Grow, RowsHold};

// The least and the largest loss, in ten thousandths.
const LEAST_LOSS: u64 = 10;

const MOST_LOSS: u64 = 9900;

const WHOLE: u64 = 10000;

// The least whole number of ten thousandths, from 10 to 9,900, that is not below the loss. A loss is digits / 2^(150 - exponent).
#[tactic(auto, using(crate::proofs::Bits::rounding))]
pub fn loss_of(loss: f32) -> u64
    requires not_below_zero { T (le zero32 loss) }
    requires at_most_one { T (le loss one32) }
    ensures { result ≡ loss_of loss }
{
    let bits = u64::from(f32::to_bits(loss));
    let exponent = bits / 8388608 % 256;
    // below 2^-15, which is less than a ten thousandth
    if exponent < 112 {
        return LEAST_LOSS;
    }
    let digits = bits % 8388608 + 8388608;
    let unit = 1u64 << (150 - exponent);
    (digits * WHOLE).div_ceil(unit).clamp(LEAST_LOSS, MOST_LOSS)
}

// The least number of attempts that leaves at most 1 - t of a loss k, or `max`.
#[tactic(auto, using(crate::proofs::Powers::trials))]
pub fn attempts_of(k: u64, t: u64, max: u64) -> u64
    requires { (k ≤ 10000) × (t ≤ 9999) × (1 ≤ max) × (max ≤ 4) }
    ensures { result ≡ attempts_of k t max }
{
    let mut power = k;
    let mut bound = WHOLE - t;
    for n in 1..max {
        if power <= bound {
            return n;
        }
        power *= k;
        bound *= WHOLE;
    }
    max
}

// ---- theorems

// More loss is no smaller k, and a larger k no fewer attempts.
pub fn grow()
    ensures { Grow }
{}

// 02's examples.
pub fn rows()
    ensures { RowsHold }
{}
