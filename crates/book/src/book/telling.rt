// Days and quotes, which are for every order.
ghost use Rattle.std.specs.Prelude.{◌≡◌, ◌≤◌, ◌&&◌, length, drop, count_by, ◌==◌, nat_lt};
ghost use Rattle.market.specs.View.{market_of};
ghost use Rattle.rules.specs.Bounds.{continuous};
ghost use Rattle.rules.specs.Calls as call;
ghost use Rattle.book.specs.Turning.{quote_tick};
ghost use Rattle.book.specs.View.{orders_of, watches_now, Steps, day_reply, quote_reply, count_in, burst_reply};

use crate::book::Book;
use crate::burst::Burst;
use crate::table::{tell_day, tell_tick};
use conditions::condition::Condition;
use conditions::event::Tick;
use market::market::Market;
use rules::fault::{MarketFault, PlacingFault};
use rules::opening::Opening;
use rules::quote::Quote;
use rules::slip::Slip;
use values::price::Price;

// The phase in which orders are told ticks: a plain number, as in a quote, whose call checks it.
const CONTINUOUS: u8 = 1;

// The tick that a quote is: in continuous trading, at the last price.
fn tick_of(quote: &Quote) -> Option<Tick>
    ensures { result ≡ quote_tick quote.now }
{
    if quote.phase != CONTINUOUS {
        return None;
    }
    let price = Price::new(quote.levels.last).ok()?;
    Some(Tick {
        moment: quote.moment,
        price,
    })
}

impl<'a, C: Condition> Book<'a, C> {
    // Begins a share's new day: the orders that watch it are told.
    pub fn open_day(&mut self, market: &mut Market, opening: Opening) -> Result<(), MarketFault>
        ensures { Steps C.Condition.meaning (market_of market.old.shares) (market_of market.new.shares) self.old self.new (call.single (call.opening opening)) (day_reply result) }
    {
        let day = market.open_day(opening)?;
        self.count = tell_day(&mut self.rows[..self.count], opening.share, day);
        Ok(())
    }

    // Whether more orders would be told the quote than there are places for their slips.
    fn crowds(&self, quote: &Quote, places: usize) -> bool
        ensures { result ≡ (quote.now.phase == continuous && nat_lt places (count_by (watches_now quote.now.share) (orders_of self.now))) }
    {
        quote.phase == CONTINUOUS && places < self.watchers(quote.share)
    }

    // Takes a quote: in continuous trading the orders that watch the share are told its tick. The slips fill from the first place,
    // and their count is answered.
    pub fn quote(
        &mut self,
        market: &mut Market,
        quote: Quote,
        slips: &mut [Slip],
    ) -> Result<usize, PlacingFault>
        ensures step { Steps C.Condition.meaning (market_of market.old.shares) (market_of market.new.shares) self.old self.new (call.single (call.quoting quote (length slips.old))) (quote_reply result slips.new) }
        ensures count { count_in result ≤ length slips.old }
        ensures rest { drop (count_in result) slips.new ≡ drop (count_in result) slips.old }
    {
        market.check_quote(quote)?;
        if self.crowds(&quote, slips.len()) {
            return Err(PlacingFault::Places);
        }
        market.keep_quote(quote);
        let Some(tick) = tick_of(&quote) else {
            return Ok(0);
        };
        let quoted = tell_tick(
            &mut self.rows[..self.count],
            quote.share,
            tick,
            self.limit,
            market,
            slips,
        );
        self.count = quoted.stay;
        Ok(quoted.written)
    }

    // Takes quotes in turn, each writing into the places after the slips already there, and stops before the first that is refused.
    pub fn burst(&mut self, market: &mut Market, quotes: &[Quote], slips: &mut [Slip]) -> Burst
        ensures step { Steps C.Condition.meaning (market_of market.old.shares) (market_of market.new.shares) self.old self.new (call.burst quotes.now (length slips.old)) (burst_reply result slips.new) }
        ensures count { result.written ≤ length slips.old }
        ensures rest { drop result.written slips.new ≡ drop result.written slips.old }
    {
        // added up here: each quote is lent the places after those already written
        let mut written = 0;
        for (taken, quote) in quotes.iter().enumerate() {
            match self.quote(market, *quote, &mut slips[written..]) {
                Ok(count) => written += count,
                Err(fault) => {
                    return Burst {
                        taken,
                        written,
                        stop: Some(fault),
                    };
                }
            }
        }
        Burst {
            taken: quotes.len(),
            written,
            stop: None,
        }
    }
}
