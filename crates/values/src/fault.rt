ghost use Rattle.std.specs.Prelude.{◌≡◌};
ghost use Rattle.values.specs.Making.{making_number};

use thiserror::Error;

// Why a value could not be made: the field that lies outside what it may be.
// The layers above hold this fault whole inside their own.
#[derive(Clone, Copy, PartialEq, Eq, Debug, Error)]
pub enum MakingFault {
    #[error("making: price outside 0.1000 to 99999.9999 yuan")]
    Price,
    #[error("making: target of the stop outside the prices")]
    StopTarget,
    #[error("making: target of the profit outside the prices")]
    ProfitTarget,
    #[error("making: step outside 0.10% to 50.00% or 0.0001 to 99999.9999 yuan")]
    Step,
    #[error("making: range with its low above its high")]
    Range,
    #[error("making: hold outside 1 to 14400 seconds")]
    Hold,
    #[error("making: average over days other than 5 10 20 30 or 60")]
    Days,
    #[error("making: limit above 100.00%")]
    Limit,
}

impl MakingFault {
    // The number by which a refusal is known where plain numbers are passed. By match: three faults share one, and there is no 6.
    pub fn number(&self) -> u8
        ensures { result ≡ making_number self.now }
    {
        match self {
            MakingFault::Price | MakingFault::StopTarget | MakingFault::ProfitTarget => 1,
            MakingFault::Step => 2,
            MakingFault::Range => 3,
            MakingFault::Hold => 4,
            MakingFault::Days => 5,
            MakingFault::Limit => 7,
        }
    }
}
