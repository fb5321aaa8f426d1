ghost use Rattle.std.specs.Prelude.{◌≡◌, ◌≤◌};
ghost use Rattle.values.specs.Bounds.{greatest_limit};
ghost use Rattle.values.specs.Making.{seen, checked};
ghost use Rattle.values.specs.declared.fault.MakingFault.TheVariants as fault;

use crate::bounds::within;
use crate::fault::MakingFault;

// How far an order's price may lie on the worse side of its trigger price, in hundredths of a percent.
#[derive(Clone, Copy, PartialEq, Eq, Debug)]
pub struct Limit {
    value: u32,
    ghost high: { value ≤ greatest_limit },
}

impl Limit {
    pub const GREATEST: u32 = 10_000;

    pub fn new(value: u32) -> Result<Limit, MakingFault>
        ensures { seen (λ l. l.value) result ≡ checked 0 greatest_limit fault.Limit value }
    {
        let value = within(0, Self::GREATEST, MakingFault::Limit, value)?;
        Ok(Limit { value })
    }

    pub fn value(&self) -> u32
        ensures { result ≡ self.now.value }
    {
        self.value
    }
}
