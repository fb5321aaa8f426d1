// Tests: a yes or no from the day and the price. Two conditions wait for any of them.
ghost use Rattle.std.specs.Prelude.{◌≡◌, Option as Maybe};
ghost use Rattle.values.specs.declared.price.Price.{Price};
ghost use Rattle.conditions.specs.declared.event.Day.{Day};

use conditions::event::Day;
use values::price::Price;

pub mod average;
pub mod held;
pub mod level;
pub mod move_of_day;
pub mod prompt;

pub trait Test {
    // the trigger price where the answer is yes
    ghost trigger: { Self → Day → Price → Maybe Price };

    fn judge(&self, day: &Day, price: Price) -> Option<Price>
        ensures { result ≡ trigger self.now day.now price };
}
