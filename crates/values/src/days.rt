ghost use Rattle.std.specs.Prelude.{◌≡◌, if◌then◌else◌, Ok, Err};
ghost use Rattle.values.specs.Days.{day_count, averaged};
ghost use Rattle.values.specs.Making.{seen};
ghost use Rattle.values.specs.declared.fault.MakingFault.TheVariants as fault;

use crate::fault::MakingFault;

// Over how many days an average is taken.
#[derive(Clone, Copy, PartialEq, Eq, Debug)]
pub enum AveragingDays {
    Five = 5,
    Ten = 10,
    Twenty = 20,
    Thirty = 30,
    Sixty = 60,
}

impl AveragingDays {
    // Public by this name, as the other checked values are; a `TryFrom` would be a second door.
    pub fn new(days: u32) -> Result<AveragingDays, MakingFault>
        ensures { seen day_count result ≡ (if averaged days then Ok days else Err fault.Days) }
    {
        match days {
            5 => Ok(AveragingDays::Five),
            10 => Ok(AveragingDays::Ten),
            20 => Ok(AveragingDays::Twenty),
            30 => Ok(AveragingDays::Thirty),
            60 => Ok(AveragingDays::Sixty),
            _ => Err(MakingFault::Days),
        }
    }

    pub fn count(&self) -> u32
        ensures { result ≡ day_count self.now }
    {
        *self as u32
    }
}
