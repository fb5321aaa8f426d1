// Apart from the struct, since a file whose clauses cite definitions over a checked struct cannot declare it.
ghost use Rattle.std.specs.Prelude.{◌≡◌};
ghost use Rattle.values.specs.Making.{seen};
ghost use Rattle.values.specs.Ranges.{ends, ranged, inside, whole};

use crate::fault::MakingFault;
use crate::price::Price;
use crate::range::PriceRange;

impl PriceRange {
    pub fn new(low: Price, high: Price) -> Result<PriceRange, MakingFault>
        ensures { seen ends result ≡ ranged low high }
    {
        if low > high {
            return Err(MakingFault::Range);
        }
        Ok(PriceRange { low, high })
    }

    // All prices.
    pub fn whole() -> PriceRange
        ensures { result ≡ whole }
    {
        PriceRange {
            low: Price {
                value: Price::LEAST,
            },
            high: Price {
                value: Price::GREATEST,
            },
        }
    }

    pub fn low(&self) -> Price
        ensures { result ≡ self.now.low }
    {
        self.low
    }

    pub fn high(&self) -> Price
        ensures { result ≡ self.now.high }
    {
        self.high
    }

    // Whether a price lies inside.
    pub fn contains(&self, price: Price) -> bool
        ensures { result ≡ inside self.now price.value }
    {
        (self.low..=self.high).contains(&price)
    }
}
