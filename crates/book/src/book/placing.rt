// Placing an order.
ghost use Rattle.std.specs.Prelude.{◌≡◌, ◌<◌, length, IfOk, OnOk, Some};
ghost use Rattle.std.specs.Result.{result_err};
ghost use Rattle.market.specs.View.{market_of};
ghost use Rattle.rules.specs.Calls.{placing, single};
ghost use Rattle.rules.specs.Checks.{first_fault};
ghost use Rattle.rules.specs.Market.{Market as Table, day_of};
ghost use Rattle.book.specs.Placing.{free_checks, both_checks, amount_checks, choice_checks};
ghost use Rattle.book.specs.View.{view, setup_of, Steps, done_reply};

use crate::book::Book;
use crate::row::Row;
use conditions::condition::Condition;
use conditions::event::Day;
use market::market::Market;
use rules::fault::{MarketFault, PlacingFault};
use rules::order::{PriceChoice, Terms};
use values::price::Price;

const GREATEST_QUANTITY: u32 = 1_000_000;

const GREATEST_TOTAL: u32 = 1_000_000_000;

// Both shares are listed, and the watched one has a day, which is answered.
fn check_shares(market: &Market, terms: &Terms) -> Result<Day, PlacingFault>
    ensures answer { result_err result ≡ first_fault (both_checks (market_of market.now.shares) terms.now) }
    ensures day { IfOk result (λ d. day_of (market_of market.now.shares terms.now.watched) ≡ Some d) }
{
    market
        .check_share(terms.watched)
        .map_err(PlacingFault::Watched)?;
    market
        .check_share(terms.traded)
        .map_err(PlacingFault::Traded)?;
    market
        .day_of(terms.watched)
        .ok_or(PlacingFault::Watched(MarketFault::NoDay))
}

fn check_amounts(terms: &Terms) -> Result<(), PlacingFault>
    ensures { result_err result ≡ first_fault (amount_checks terms.now) }
{
    if terms.quantity == 0 || terms.quantity > GREATEST_QUANTITY {
        return Err(PlacingFault::Quantity);
    }
    if terms.total != 0 && (terms.total < terms.quantity || terms.total > GREATEST_TOTAL) {
        return Err(PlacingFault::Total);
    }
    Ok(())
}

// The choice is one, and an own price stands with its own choice and no other.
fn check_choice(terms: &Terms) -> Result<(), PlacingFault>
    ensures { result_err result ≡ first_fault (choice_checks terms.now) }
{
    let choice = PriceChoice::try_from(terms.choice)?;
    if choice == PriceChoice::OwnPrice {
        Price::new(terms.own_price)?;
    } else if terms.own_price != 0 {
        return Err(PlacingFault::Choice);
    }
    Ok(())
}

impl<'a, C: Condition + Drop> Book<'a, C> {
    // The number is one, is free, and so is a row.
    fn check_free(&self, number: u32) -> Result<(), PlacingFault>
        ensures answer { (mk : Table) → result_err result ≡ first_fault (free_checks (setup_of self.now) (view C.Condition.meaning mk self.now) number) }
        ensures row { OnOk result (self.now.count < length self.now.rows.now) }
    {
        if number == 0 {
            return Err(PlacingFault::Number);
        }
        if self.place_of(number).is_some() {
            return Err(PlacingFault::InBook);
        }
        if self.count >= self.room() {
            return Err(PlacingFault::NoRow);
        }
        Ok(())
    }

    // Places an order with its condition, which is told the watched share's day. A condition that is refused is let go.
    pub fn place(&mut self, market: &Market, terms: Terms, condition: C) -> Result<(), PlacingFault>
        ensures { Steps C.Condition.meaning (market_of market.now.shares) (market_of market.now.shares) self.old self.new (single (placing (record { terms = terms; meaning = C.Condition.meaning condition }))) (done_reply result) }
    {
        self.check_free(terms.number)?;
        let day = check_shares(market, &terms)?;
        check_amounts(&terms)?;
        check_choice(&terms)?;
        let mut row = Row::new(terms, condition);
        if !row.tell_day(terms.watched, day) {
            return Err(PlacingFault::Lapses);
        }
        self.rows[self.count] = row;
        self.count += 1;
        Ok(())
    }
}
