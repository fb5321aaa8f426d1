// What is written when an order fires. Each function computes the rules' definition of its name, and takes what that takes.
ghost use Rattle.std.specs.Prelude.{◌≡◌};
ghost use Rattle.rules.specs.SlipRule.{price_by, asks, exceeds, beyond_limit, held_back, outcome_of, price_under, slip_of};

use conditions::event::{Fire, Side, Tick};
use rules::order::{PriceChoice, Terms};
use rules::quote::Levels;
use rules::slip::{Outcome, Slip};
use values::limit::Limit;
use values::price::Price;

// hundredths of a percent in a whole
const WHOLE: u64 = 10_000;

// The price that a choice takes, beside the order's own; 0 is missing.
fn price_by(choice: PriceChoice, own: u32, levels: &Levels) -> u32
    ensures { result ≡ price_by choice own levels.now }
{
    match choice {
        PriceChoice::OwnPrice => own,
        PriceChoice::Last | PriceChoice::HouseDefault => levels.last,
        PriceChoice::Bid1 => levels.bids[0],
        PriceChoice::Bid2 => levels.bids[1],
        PriceChoice::Bid3 => levels.bids[2],
        PriceChoice::Bid4 => levels.bids[3],
        PriceChoice::Bid5 => levels.bids[4],
        PriceChoice::Ask1 => levels.asks[0],
        PriceChoice::Ask2 => levels.asks[1],
        PriceChoice::Ask3 => levels.asks[2],
        PriceChoice::Ask4 => levels.asks[3],
        PriceChoice::Ask5 => levels.asks[4],
    }
}

// The price that an order asks for; without a quote of the day there is none, which is 0 as in a quote and on a slip.
pub(crate) fn price_asked(terms: &Terms, prices: Option<Levels>) -> u32
    ensures { result ≡ asks terms.now prices }
{
    let (Ok(choice), Some(levels)) = (PriceChoice::try_from(terms.choice), prices) else {
        return 0;
    };
    price_by(choice, terms.own_price, &levels)
}

// Whether a total is set, and what was sent before with this quantity exceeds it.
fn exceeds(terms: &Terms, sent: u32) -> bool
    ensures { result ≡ exceeds terms.now sent }
{
    terms.total != 0 && (terms.total as u64) < sent as u64 + terms.quantity as u64
}

// Whether a price lies on the worse side of the trigger price by more than the limit.
fn is_beyond_limit(side: Side, limit: Limit, trigger: Price, price: u32) -> bool
    ensures { result ≡ beyond_limit side limit.value trigger.value price }
{
    let trigger = trigger.value();
    let allowed = limit.value() as u64 * trigger as u64;
    let past = match side {
        Side::Buy => price.saturating_sub(trigger),
        Side::Sell => trigger.saturating_sub(price),
    };
    allowed < past as u64 * WHOLE
}

// The limit holds for orders that bear its mark, unless they ask for their own price.
fn is_held_back(terms: &Terms, limit: Limit, fire: &Fire, price: u32) -> bool
    ensures { result ≡ held_back terms.now limit.value fire.now price }
{
    terms.limit_mark
        && terms.choice != PriceChoice::OwnPrice.number()
        && is_beyond_limit(fire.side, limit, fire.trigger, price)
}

// The outcome of a fire, where so much was sent before and the traded share has these prices.
pub(crate) fn outcome_of(
    terms: &Terms,
    limit: Limit,
    sent: u32,
    prices: Option<Levels>,
    fire: &Fire,
) -> Outcome
    ensures { result ≡ outcome_of terms.now limit.value sent prices fire.now }
{
    if exceeds(terms, sent) {
        return Outcome::Exceeded;
    }
    let price = price_asked(terms, prices);
    if price == 0 {
        return Outcome::Unpriced;
    }
    if is_held_back(terms, limit, fire, price) {
        return Outcome::Withheld;
    }
    Outcome::Sent
}

// An outcome without a price bears 0.
fn price_under(outcome: Outcome, price: u32) -> u32
    ensures { result ≡ price_under outcome price }
{
    match outcome {
        Outcome::Sent | Outcome::Withheld => price,
        Outcome::Unpriced | Outcome::Exceeded => 0,
    }
}

pub(crate) fn slip_of(
    terms: &Terms,
    outcome: Outcome,
    prices: Option<Levels>,
    fire: &Fire,
    tick: &Tick,
) -> Slip
    ensures { result ≡ slip_of terms.now outcome prices fire.now tick.now }
{
    Slip {
        number: terms.number,
        moment: tick.moment,
        side: fire.side,
        trigger: fire.trigger,
        market: tick.price,
        price: price_under(outcome, price_asked(terms, prices)),
        quantity: terms.quantity,
        outcome,
    }
}
