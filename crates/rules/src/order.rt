ghost use Rattle.std.specs.Prelude.{◌≡◌};
ghost use Rattle.std.specs.Option.{ok_or};
ghost use Rattle.rules.specs.Numbers.{choice_number, choice_of};
ghost use Rattle.rules.specs.declared.fault.PlacingFault.TheVariants as fault;

use crate::fault::PlacingFault;

// Where an order's price comes from: its own, or the traded share's prices as its slip is written.
#[derive(Clone, Copy, PartialEq, Eq, Debug)]
pub enum PriceChoice {
    OwnPrice = 0,
    Last = 1,
    Bid1 = 2,
    Bid2 = 3,
    Bid3 = 4,
    Bid4 = 5,
    Bid5 = 6,
    Ask1 = 7,
    Ask2 = 8,
    Ask3 = 9,
    Ask4 = 10,
    Ask5 = 11,
    // what the house takes where the client leaves the choice open
    HouseDefault = 12,
}

impl PriceChoice {
    // The number that stands for the choice, as its definition has it.
    pub fn number(&self) -> u8
        ensures { result ≡ choice_number self.now }
    {
        *self as u8
    }
}

// The choice that a number stands for; a number that stands for none is refused.
impl TryFrom<u8> for PriceChoice {
    type Error = PlacingFault;

    ghost try_from_gives = { λ number r. r ≡ ok_or (choice_of number) fault.Choice };

    fn try_from(number: u8) -> Result<PriceChoice, PlacingFault> {
        match number {
            0 => Ok(PriceChoice::OwnPrice),
            1 => Ok(PriceChoice::Last),
            2 => Ok(PriceChoice::Bid1),
            3 => Ok(PriceChoice::Bid2),
            4 => Ok(PriceChoice::Bid3),
            5 => Ok(PriceChoice::Bid4),
            6 => Ok(PriceChoice::Bid5),
            7 => Ok(PriceChoice::Ask1),
            8 => Ok(PriceChoice::Ask2),
            9 => Ok(PriceChoice::Ask3),
            10 => Ok(PriceChoice::Ask4),
            11 => Ok(PriceChoice::Ask5),
            12 => Ok(PriceChoice::HouseDefault),
            _ => Err(PlacingFault::Choice),
        }
    }
}

// What an order asks for beside its condition, in plain numbers as it comes in: placing checks them, and refuses by number.
#[derive(Clone, Copy, PartialEq, Eq, Default, Debug)]
pub struct Terms {
    pub number: u32,
    // the share whose days and prices the condition is told
    pub watched: u8,
    // the share that the slip is for
    pub traded: u8,
    // the number of a price choice
    pub choice: u8,
    // in ten-thousandths of a yuan; 0 under any other choice than the own price
    pub own_price: u32,
    pub quantity: u32,
    // what all slips that are sent may come to; 0 for no such bound
    pub total: u32,
    // whether the book's limit holds for this order
    pub limit_mark: bool,
}
