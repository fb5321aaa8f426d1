// The test of a price against the average of the newest closes and itself.
ghost use Rattle.std.specs.Prelude.{◌≡◌, ◌+◌, ◌-◌, ◌*◌, ◌/◌, true, T, is_some, ◌≢◌};
ghost use Rattle.values.specs.Days.{day_count};
ghost use Rattle.values.specs.Prices.{priced};
ghost use Rattle.conditions.specs.Sums.{sums};
ghost use Rattle.kinds.specs.Tests.{average_yes, at_average};

use crate::test::Test;
use conditions::event::Day;
use values::days::AveragingDays;
use values::direction::Direction;
use values::price::Price;

// Yes where the price lies at the average or beyond it in the direction D.
#[derive(Clone, Copy)]
pub struct Average<D> {
    direction: D,
    days: AveragingDays,
}

impl<D> Average<D> {
    // The contract names the field, since a trigger is said over a direction and D may be any type.
    pub fn new(direction: D, days: AveragingDays) -> Average<D>
        ensures { result.days ≡ days }
    {
        Average { direction, days }
    }

    // What the sum of the other days' closes is held against.
    fn weighed(&self, price: Price) -> u64
        ensures { result ≡ (day_count self.now.days - 1) * price.value }
    {
        (self.days.count() as u64 - 1) * price.value() as u64
    }

    // The average of a sum of closes and a price, which is a price like them.
    fn trigger(&self, sum: u64, price: Price) -> Option<Price>
        requires closes { T (sums (day_count self.now.days - 1) sum) }
        requires enough { sum ≢ 0 }
        ensures value { result ≡ priced ((sum + price.value) / day_count self.now.days) }
        ensures found { is_some result ≡ true }
    {
        let mean = (sum + price.value() as u64) / self.days.count() as u64;
        Price::new(mean as u32).ok()
    }
}

impl<D: Direction> Test for Average<D> {
    ghost trigger = { λ a. average_yes D.Direction.order a.days };

    // A yes always has its trigger price. The sum is 0 where a day has too few closes: `Sums` holds plain sums.
    fn judge(&self, day: &Day, price: Price) -> Option<Price>
        ensures value { result ≡ average_yes D.Direction.order self.now.days day.now price }
        ensures found { is_some result ≡ at_average D.Direction.order self.now.days day.now price }
    {
        let sum = day.sums.before(self.days);
        if sum == 0 || !D::reaches(self.weighed(price), sum) {
            return None;
        }
        self.trigger(sum, price)
    }
}
