// A price as text in yuan: read exactly, and shown with four decimals.
ghost use Rattle.std.specs.Prelude.{◌≡◌, Some, Ok};
ghost use Rattle.values.specs.Decimals.{yuan_text};
ghost use Rattle.values.specs.PriceText.{price_read};
ghost use Rattle.values.specs.declared.price.Price.{Price as Checked};
ghost use Rattle.values.specs.declared.price.text.PriceTextFault.TheVariants as fault;

use crate::decimal::{DecimalFault, Yuan, read_decimal};
use crate::fault::MakingFault;
use crate::price::Price;
use std::fmt;
use thiserror::Error;

// Why a text is no price.
#[derive(Clone, Copy, PartialEq, Eq, Debug, Error)]
pub enum PriceTextFault {
    // it is no decimal number of yuan
    #[error(transparent)]
    Text(DecimalFault),
    // it is a number, but no price
    #[error(transparent)]
    Making(MakingFault),
}

// Both are written by hand, since what the derive writes by `#[from]` does not say which fault it gives, as `read` must.
impl From<DecimalFault> for PriceTextFault {
    ghost from_gives = { λ f r. r ≡ fault.Text f };

    fn from(f: DecimalFault) -> PriceTextFault {
        PriceTextFault::Text(f)
    }
}

impl From<MakingFault> for PriceTextFault {
    ghost from_gives = { λ f r. r ≡ fault.Making f };

    fn from(f: MakingFault) -> PriceTextFault {
        PriceTextFault::Making(f)
    }
}

impl Price {
    // Reads yuan with at most four decimals. Public by this name, as `new` is; a `FromStr` would be a second door.
    pub fn read(text: &str) -> Result<Price, PriceTextFault>
        ensures value { result ≡ price_read text.now }
        ensures back { (p : Checked) → text.now ≡ yuan_text p.value → result ≡ Ok p }
    {
        Ok(Price::new(read_decimal(text, 4)?)?)
    }
}

impl fmt::Display for Price {
    ghost output = { λ p. Some (yuan_text p.value) };

    fn fmt<W: fmt::Write>(&self, f: &mut fmt::Formatter<W>) -> fmt::Result {
        Yuan(self.value).fmt(f)
    }
}
