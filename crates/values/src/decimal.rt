// Decimal numbers in text, exact: how an amount is read, and how it is shown.
ghost use Rattle.std.specs.Prelude.{◌≡◌, ℕ, ◌*◌, ◌^◌, ◌<◌, true, IfOk, Some, None, Ok, string_bytes};
ghost use Rattle.values.specs.Decimals.{numeral, number, fitted, of_parts, decimal_read, yuan_text};

use std::alloc::{AllocError, Global};
use std::fmt;
use thiserror::Error;

// Why a text is no decimal number. Of several faults of one text, the one that stands first here is named.
#[derive(Clone, Copy, PartialEq, Eq, Debug, Error)]
pub enum DecimalFault {
    // It is neither digits alone nor digits, a point and digits.
    #[error("not a decimal number such as 18.40")]
    Malformed,
    // It has more decimals than the amount may have.
    #[error("a decimal number with too many decimals")]
    TooManyDecimals,
    // The number does not fit 32 bits.
    #[error("a number too large for its field")]
    TooLarge,
}

// Whether a text is one digit or more, and nothing else.
fn is_numeral(text: &str) -> bool
    ensures { result ≡ numeral text.now }
{
    !text.is_empty() && text.bytes().all(|b| b.is_ascii_digit())
}

// The number that digits write, however many they are. `parse` also takes a `+` in front, so the text is looked at before.
fn read_numeral(digits: &str) -> Result<u32, DecimalFault>
    requires { numeral digits.now ≡ true }
    ensures { result ≡ fitted (number digits.now) }
{
    digits.parse::<u32>().map_err(|_| DecimalFault::TooLarge)
}

// A number with zeros put behind it. They are put one by one, since 10^zeros alone may not fit where the number is 0.
fn with_zeros(start: u32, zeros: u8) -> Result<u32, DecimalFault>
    ensures { result ≡ fitted (start * 10 ^ zeros) }
{
    (0..zeros)
        .try_fold(start, |number, _| number.checked_mul(10))
        .ok_or(DecimalFault::TooLarge)
}

// The number that digits write, with zeros put behind it.
fn read_scaled(digits: &str, zeros: u8) -> Result<u32, DecimalFault>
    requires { numeral digits.now ≡ true }
    ensures { result ≡ fitted (number digits.now * 10 ^ zeros) }
{
    with_zeros(read_numeral(digits)?, zeros)
}

// A number without a point.
fn read_whole(text: &str, places: u8) -> Result<u32, DecimalFault>
    ensures { result ≡ of_parts places text.now None }
{
    if !is_numeral(text) {
        return Err(DecimalFault::Malformed);
    }
    read_scaled(text, places)
}

// A number with a point, from what stands before it and after it.
fn read_parts(whole: &str, decimals: &str, places: u8) -> Result<u32, DecimalFault>
    ensures { result ≡ of_parts places whole.now (Some decimals.now) }
{
    if !is_numeral(whole) || !is_numeral(decimals) {
        return Err(DecimalFault::Malformed);
    }
    if decimals.len() > places as usize {
        return Err(DecimalFault::TooManyDecimals);
    }
    let units = read_scaled(whole, places)?;
    let more = read_scaled(decimals, places - decimals.len() as u8)?;
    units.checked_add(more).ok_or(DecimalFault::TooLarge)
}

// Reads DIGITS or DIGITS.DECIMALS, with at most `places` decimals, as a whole number of units of 10^-places: with four places `18.4` is
// 184000. Nothing is rounded: what has too many decimals or does not fit is refused.
pub fn read_decimal(text: &str, places: u8) -> Result<u32, DecimalFault>
    ensures value { result ≡ decimal_read places text.now }
    ensures back { (n : ℕ) → n < 2 ^ 32 → places ≡ 4 → text.now ≡ yuan_text n → result ≡ Ok n }
{
    match text.split_once('.') {
        None => read_whole(text, places),
        Some((whole, decimals)) => read_parts(whole, decimals, places),
    }
}

// An amount in ten-thousandths of a yuan.
#[derive(Clone, Copy, PartialEq, Eq, Debug)]
pub struct Yuan(pub u32);

// Yuan with exactly four decimals.
impl fmt::Display for Yuan {
    ghost output = { λ y. Some (yuan_text y.0) };

    fn fmt<W: fmt::Write>(&self, f: &mut fmt::Formatter<W>) -> fmt::Result {
        write!(f, "{}.{:04}", self.0 / 10_000, self.0 % 10_000)
    }
}

impl Yuan {
    // The amount as it is shown.
    pub fn text(&self, heap: Global) -> Result<String, AllocError>
        ensures { IfOk result (λ s. string_bytes s ≡ yuan_text self.now.0) }
    {
        format!(in heap; "{self}")
    }
}
