// Why a call was refused. Each fault names its field, and holds the fault of a lower layer whole.
ghost use Rattle.std.specs.Prelude.{◌≡◌};
ghost use Rattle.rules.specs.Numbers.{market_number, placing_number};
ghost use Rattle.rules.specs.declared.fault.MarketFault.TheVariants as market;
ghost use Rattle.rules.specs.declared.fault.PlacingFault.TheVariants as placing;

use thiserror::Error;
use values::fault::MakingFault;

// What the market refuses.
#[derive(Clone, Copy, PartialEq, Eq, Debug, Error)]
pub enum MarketFault {
    #[error("market: share above 63")]
    Share,
    #[error("market: share listed already")]
    ListedAlready,
    #[error("market: share not listed")]
    NotListed,
    #[error("market: more than 59 closes")]
    TooManyCloses,
    #[error("market: day number not above the last")]
    DayNumber,
    #[error("market: previous close outside the day's limits")]
    DayLimits,
    #[error("market: share without a day")]
    NoDay,
    #[error("market: moment above 86399 or before the latest quote")]
    Moment,
    #[error("market: phase above 2")]
    Phase,
    #[error("market: {0}")]
    Making(MakingFault),
}

// What the book refuses.
#[derive(Clone, Copy, PartialEq, Eq, Debug, Error)]
pub enum PlacingFault {
    #[error("placing: fewer slip places than orders watching")]
    Places,
    #[error("placing: order number 0")]
    Number,
    #[error("placing: order number in the book")]
    InBook,
    #[error("placing: no row free")]
    NoRow,
    #[error("placing: watched share: {0}")]
    Watched(MarketFault),
    #[error("placing: traded share: {0}")]
    Traded(MarketFault),
    // what is wrong with the quote
    #[error("placing: {0}")]
    Market(MarketFault),
    #[error("placing: quantity outside 1 to 1000000")]
    Quantity,
    #[error("placing: total neither 0 nor quantity to 1000000000")]
    Total,
    #[error("placing: no such price choice or an own price beside it")]
    Choice,
    #[error("placing: {0}")]
    Making(MakingFault),
    // the condition ends as it is told the day
    #[error("placing: condition lapses on the day")]
    Lapses,
    #[error("placing: no such order")]
    NoOrder,
    // the order is claimed or ended under claim
    #[error("placing: order under claim")]
    UnderClaim,
    #[error("placing: void ticket")]
    VoidTicket,
    #[error("placing: ticket of another book or of no claimed order")]
    WrongTicket,
}

// Written by hand: a derived `From` promises nothing, and callers' clauses name the fault that `?` makes.
impl From<MakingFault> for MarketFault {
    ghost from_gives = { λ f r. r ≡ market.Making f };

    fn from(f: MakingFault) -> MarketFault {
        MarketFault::Making(f)
    }
}

impl From<MarketFault> for PlacingFault {
    ghost from_gives = { λ f r. r ≡ placing.Market f };

    fn from(f: MarketFault) -> PlacingFault {
        PlacingFault::Market(f)
    }
}

impl From<MakingFault> for PlacingFault {
    ghost from_gives = { λ f r. r ≡ placing.Making f };

    fn from(f: MakingFault) -> PlacingFault {
        PlacingFault::Making(f)
    }
}

impl MarketFault {
    // The number by which a refusal is known, as its definition has it. By match: a fault that holds another has that one's number.
    pub fn number(&self) -> u8
        ensures { result ≡ market_number self.now }
    {
        match self {
            MarketFault::Share => 10,
            MarketFault::ListedAlready => 11,
            MarketFault::NotListed => 12,
            MarketFault::TooManyCloses => 13,
            MarketFault::DayNumber => 14,
            MarketFault::DayLimits => 15,
            MarketFault::NoDay => 16,
            MarketFault::Moment => 17,
            MarketFault::Phase => 18,
            MarketFault::Making(f) => f.number(),
        }
    }
}

impl PlacingFault {
    // The number by which a refusal is known, as its definition has it. By match: a fault that holds another has that one's number.
    pub fn number(&self) -> u8
        ensures { result ≡ placing_number self.now }
    {
        match self {
            PlacingFault::Places => 19,
            PlacingFault::Number => 20,
            PlacingFault::InBook => 21,
            PlacingFault::NoRow => 22,
            PlacingFault::Watched(f) | PlacingFault::Traded(f) | PlacingFault::Market(f) =>
                f.number(),
            PlacingFault::Quantity => 23,
            PlacingFault::Total => 24,
            PlacingFault::Choice => 25,
            PlacingFault::Making(f) => f.number(),
            PlacingFault::Lapses => 26,
            PlacingFault::NoOrder => 27,
            PlacingFault::UnderClaim => 28,
            PlacingFault::VoidTicket => 29,
            PlacingFault::WrongTicket => 30,
        }
    }
}
