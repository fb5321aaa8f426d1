// The test of how far a price has moved in the day.
ghost use Rattle.std.specs.Prelude.{◌≡◌};
ghost use Rattle.kinds.specs.Tests.{move_yes};

use crate::test::Test;
use conditions::event::Day;
use values::direction::Direction;
use values::price::Price;
use values::step::{Percentage, Step};

// How far a day's price has to go. No Option of a percentage: orders name both ways.
#[derive(Clone, Copy)]
pub enum Distance {
    // a percentage from the previous close
    Percent(Percentage),
    // to the limit of the day's prices
    Limit,
}

// Yes where the price has gone that far in the direction D.
#[derive(Clone, Copy)]
pub struct MoveOfDay<D> {
    direction: D,
    distance: Distance,
}

impl<D> MoveOfDay<D> {
    // The contract names the field, since a trigger is said over a direction and D may be any type.
    pub fn new(direction: D, distance: Distance) -> MoveOfDay<D>
        ensures { result.distance ≡ distance }
    {
        MoveOfDay {
            direction,
            distance,
        }
    }
}

impl<D: Direction> Test for MoveOfDay<D> {
    ghost trigger = { λ m. move_yes D.Direction.order D.Direction.target D.Direction.furthest m.distance };

    fn judge(&self, day: &Day, price: Price) -> Option<Price> {
        match self.distance {
            Distance::Percent(r) => D::reached(Step::Percent(r), day.close, price),
            Distance::Limit => {
                let limit = D::end_of(day.lower, day.upper);
                D::passes(price, limit).then_some(limit)
            }
        }
    }
}
