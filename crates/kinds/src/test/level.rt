// The test of a fixed price.
ghost use Rattle.std.specs.Prelude.{◌≡◌};
ghost use Rattle.kinds.specs.Tests.{level_yes};

use crate::test::Test;
use conditions::event::Day;
use values::direction::Direction;
use values::price::Price;

// Yes where the price lies at the level or beyond it in the direction D.
#[derive(Clone, Copy)]
pub struct Level<D> {
    direction: D,
    price: Price,
}

impl<D> Level<D> {
    // The contract names the field, since a trigger is said over a direction and D may be any type.
    pub fn new(direction: D, price: Price) -> Level<D>
        ensures { result.price ≡ price }
    {
        Level { direction, price }
    }
}

impl<D: Direction> Test for Level<D> {
    ghost trigger = { λ l. level_yes D.Direction.order l.price };

    fn judge(&self, _day: &Day, price: Price) -> Option<Price> {
        D::passes(price, self.price).then_some(self.price)
    }
}
