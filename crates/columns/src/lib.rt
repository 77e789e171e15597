// Numbers in decimal, right-justified after blanks in a field (requests 10 and 13): a field is the whole of a lent part, so that its width
// is the part's length, and no function here is for one width.
#![tactic(auto)]

ghost use Rattle.std.specs.Prelude.{◌≡◌, List, ℕ, ◌+◌, ◌%◌, ◌≤◌, length, drop, Some};
ghost use Rattle.words.specs.Words.{written};
ghost use Rattle.columns.specs.Columns.{justified, with_digit, digits_of, number_of, after_blanks, field_number, Inverse};
ghost use Rattle.columns.specs.Filled.{column_of};

const BLANK: u8 = b' ';

// ---- written

fn glyph(n: u64) -> u8
    ensures { result ≡ 48 + n % 10 }
{
    b'0' + (n % 10) as u8
}

// The character of a column before the last: a blank where no digit is left.
fn column(rest: u64) -> u8
    ensures { result ≡ column_of rest }
{
    if rest == 0 { BLANK } else { glyph(rest) }
}

// Puts n into a field; of a number that the field does not hold, the last digits.
#[tactic(auto, using(crate::proofs::Filling::filled))]
pub fn write(field: &mut [u8], n: u64)
    ensures { field.new ≡ justified (length field.old) n }
{
    if field.is_empty() {
        return;
    }
    let last = field.len() - 1;
    field[last] = glyph(n);
    let mut rest = n / 10;
    // Stays: `iter_mut().rev()` was tried: of a slice lent to an adapter of `iter_mut` the proof knows no element afterwards.
    for i in (0..last).rev() {
        field[i] = column(rest);
        rest /= 10;
    }
}

// Puts n into the field of `width` columns that begins at `at`; the other bytes of the page stay.
// Stays: were the field itself lent, each caller would cut it and prove that the rest of the page stays, which `written` says here once.
pub fn write_at(page: &mut [u8], at: usize, width: usize, n: u64)
    requires { at + width ≤ length page.old }
    ensures { page.new ≡ written at (justified width n) page.old }
{
    let end = at + width;
    write(&mut page[at..end], n);
}

// ---- read

// How many blanks a field begins with.
fn blanks(field: &[u8]) -> usize
    ensures { (result ≤ length field.now) × (drop result field.now ≡ after_blanks field.now) }
{
    field.iter().take_while(|&&b| b == BLANK).count()
}

// The number whose digits are those of `value` and b behind them.
#[tactic(auto, unfolding(crate::specs::Columns::with_digit))]
fn with_digit(value: u64, b: u8) -> Option<u64>
    ensures { result ≡ with_digit value b }
{
    if !b.is_ascii_digit() {
        return None;
    }
    value.checked_mul(10)?.checked_add(u64::from(b - b'0'))
}

#[tactic(auto, using(crate::proofs::Reading::reading))]
fn digits(s: &[u8]) -> Option<u64>
    ensures { result ≡ digits_of s.now (Some 0) }
{
    let mut value = 0u64;
    for &b in s {
        value = with_digit(value, b)?;
    }
    Some(value)
}

// The number that digits alone are: a field without columns, as in a trace.
#[tactic(auto, unfolding(crate::specs::Columns::number_of))]
pub fn number(s: &[u8]) -> Option<u64>
    ensures { result ≡ number_of s.now }
{
    match s {
        [] | [b'0', _, ..] => None,
        _ => digits(s),
    }
}

// The number that a field is, or none.
#[tactic(auto, unfolding(crate::specs::Columns::field_number))]
pub fn read(field: &[u8]) -> Option<u64>
    ensures { result ≡ field_number field.now }
{
    let first = blanks(field);
    number(&field[first..])
}

// ---- both ways

// What is written is read back, and only what would be written is read, at every width.
#[tactic(auto, using(crate::proofs::Both::inverse))]
pub fn read_is_inverse()
    ensures { (s : List ℕ) (n : ℕ) → Inverse s n }
{}
