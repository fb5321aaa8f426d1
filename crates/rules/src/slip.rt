ghost use Rattle.std.specs.Prelude.{◌≡◌};
ghost use Rattle.rules.specs.Numbers.{side_number, outcome_number};

use conditions::event::Side;
use values::price::Price;

// What became of a fire.
#[derive(Clone, Copy, PartialEq, Eq, Debug)]
pub enum Outcome {
    Sent = 0,
    // its price lay too far on the worse side of the trigger price
    Withheld = 1,
    // the traded share had no quote that day, or not the chosen level
    Unpriced = 2,
    // it would have gone beyond the total that the order allows
    Exceeded = 3,
}

impl Outcome {
    // The number by which an outcome is known, as its definition has it.
    pub fn number(&self) -> u8
        ensures { result ≡ outcome_number self.now }
    {
        *self as u8
    }
}

// What is written when an order fires.
#[derive(Clone, Copy, PartialEq, Eq, Debug)]
pub struct Slip {
    // the order's number
    pub number: u32,
    pub moment: u32,
    pub side: Side,
    pub trigger: Price,
    // the price of the tick that fired
    pub market: Price,
    // the price that the order asks for, or 0 where the outcome leaves it without one, as the rules' slip has it
    pub price: u32,
    pub quantity: u32,
    pub outcome: Outcome,
}

// The number by which a side is known on a slip; the side itself is a condition's, and knows no slips.
pub fn side_number(side: Side) -> u8
    ensures { result ≡ side_number side }
{
    match side {
        Side::Buy => 1,
        Side::Sell => 2,
    }
}
