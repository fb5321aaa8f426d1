ghost use Rattle.std.specs.Prelude.{◌≡◌, ◌≤◌};
ghost use Rattle.values.specs.Bounds.{least_percentage, greatest_percentage, least_difference, greatest_difference};
ghost use Rattle.values.specs.Making.{seen, checked};
ghost use Rattle.values.specs.declared.fault.MakingFault.TheVariants as fault;

use crate::bounds::within;
use crate::fault::MakingFault;

// A percentage of a price, in hundredths of a percent.
#[derive(Clone, Copy, PartialEq, Eq, Debug)]
pub struct Percentage {
    pub(crate) value: u32,
    ghost low: { least_percentage ≤ value },
    ghost high: { value ≤ greatest_percentage },
}

impl Percentage {
    pub const LEAST: u32 = 10;

    pub const GREATEST: u32 = 5_000;

    pub fn new(value: u32) -> Result<Percentage, MakingFault>
        ensures { seen (λ p. p.value) result ≡ checked least_percentage greatest_percentage fault.Step value }
    {
        let value = within(Self::LEAST, Self::GREATEST, MakingFault::Step, value)?;
        Ok(Percentage { value })
    }

    pub fn value(&self) -> u32
        ensures { result ≡ self.now.value }
    {
        self.value
    }
}

// A difference of two prices, in ten-thousandths of a yuan.
#[derive(Clone, Copy, PartialEq, Eq, Debug)]
pub struct Difference {
    pub(crate) value: u32,
    ghost low: { least_difference ≤ value },
    ghost high: { value ≤ greatest_difference },
}

impl Difference {
    pub const LEAST: u32 = 1;

    pub const GREATEST: u32 = 999_999_999;

    pub fn new(value: u32) -> Result<Difference, MakingFault>
        ensures { seen (λ d. d.value) result ≡ checked least_difference greatest_difference fault.Step value }
    {
        let value = within(Self::LEAST, Self::GREATEST, MakingFault::Step, value)?;
        Ok(Difference { value })
    }

    pub fn value(&self) -> u32
        ensures { result ≡ self.now.value }
    {
        self.value
    }
}

// How far a price has to go from its base.
#[derive(Clone, Copy, PartialEq, Eq, Debug)]
pub enum Step {
    Percent(Percentage),
    Difference(Difference),
}
