ghost use Rattle.std.specs.Prelude.{◌≡◌, ◌≤◌};
ghost use Rattle.values.specs.Bounds.{least_price, greatest_price};
ghost use Rattle.values.specs.Making.{seen, checked};
ghost use Rattle.values.specs.declared.fault.MakingFault.TheVariants as fault;

use crate::bounds::within;
use crate::fault::MakingFault;

pub mod text;

// A price, in ten-thousandths of a yuan.
#[derive(Clone, Copy, PartialEq, Eq, PartialOrd, Ord, Debug)]
pub struct Price {
    pub(crate) value: u32,
    ghost low: { least_price ≤ value },
    ghost high: { value ≤ greatest_price },
}

impl Price {
    pub const LEAST: u32 = 1_000;

    pub const GREATEST: u32 = 999_999_999;

    pub fn new(value: u32) -> Result<Price, MakingFault>
        ensures { seen (λ p. p.value) result ≡ checked least_price greatest_price fault.Price value }
    {
        let value = within(Self::LEAST, Self::GREATEST, MakingFault::Price, value)?;
        Ok(Price { value })
    }

    // The price as a number of ten-thousandths of a yuan.
    pub fn value(&self) -> u32
        ensures { result ≡ self.now.value }
    {
        self.value
    }
}
