ghost use Rattle.std.specs.Prelude.{◌≡◌, ◌≤◌};
ghost use Rattle.values.specs.Bounds.{least_hold, greatest_hold};
ghost use Rattle.values.specs.Making.{seen, checked};
ghost use Rattle.values.specs.declared.fault.MakingFault.TheVariants as fault;

use crate::bounds::within;
use crate::fault::MakingFault;

// For how many seconds a test has to hold.
#[derive(Clone, Copy, PartialEq, Eq, Debug)]
pub struct Hold {
    seconds: u32,
    ghost low: { least_hold ≤ seconds },
    ghost high: { seconds ≤ greatest_hold },
}

impl Hold {
    pub const LEAST: u32 = 1;

    pub const GREATEST: u32 = 14_400;

    pub fn new(seconds: u32) -> Result<Hold, MakingFault>
        ensures { seen (λ h. h.seconds) result ≡ checked least_hold greatest_hold fault.Hold seconds }
    {
        let seconds = within(Self::LEAST, Self::GREATEST, MakingFault::Hold, seconds)?;
        Ok(Hold { seconds })
    }

    pub fn seconds(&self) -> u32
        ensures { result ≡ self.now.seconds }
    {
        self.seconds
    }
}
