// The market, and the calls that change it. A refused call changes nothing.
ghost use Rattle.std.specs.Prelude.{◌≡◌, ◌≤◌, IfOk, None};
ghost use Rattle.std.specs.Result.{result_err, result_ok};
ghost use Rattle.rules.specs.Bounds.{greatest_share};
ghost use Rattle.rules.specs.Checks.{first_fault};
ghost use Rattle.rules.specs.Market.{put, unlisted, opened, taken, day_of, prices_of, share_checks, list_checks, day_checks, quote_checks};
ghost use Rattle.market.specs.Asking.{newly, number_refusal, when_granted};
ghost use Rattle.market.specs.View.{market_of, share_view};

use crate::share::Share;
use conditions::event::Day;
use rules::fault::MarketFault;
use rules::opening::Opening;
use rules::quote::{Levels, Quote};

// Shares are numbered from 0.
const SHARES: usize = 64;

// The shares by their numbers. An array: there is no heap, a market is copied whole, and a call lends one share of it.
#[derive(Clone, Copy)]
pub struct Market {
    shares: [Share; SHARES],
}

// Where a share of that number stands. Calls that change it lend it from there by index: a proof knows nothing of what `get_mut` has lent.
fn place_of(number: u8) -> Result<usize, MarketFault>
    ensures answer { result_err result ≡ number_refusal number }
    ensures place { IfOk result (λ i. (i ≡ number) × (number ≤ greatest_share)) }
{
    let place = usize::from(number);
    if place < SHARES {
        Ok(place)
    } else {
        Err(MarketFault::Share)
    }
}

impl Market {
    // A market without listed shares.
    pub fn new() -> Market
        ensures { market_of result.shares ≡ unlisted }
    {
        Market {
            shares: [Share::new(); SHARES],
        }
    }

    fn share(&self, number: u8) -> Result<&Share, MarketFault>
        ensures answer { result_err result ≡ number_refusal number }
        ensures view { IfOk result (λ s. share_view s.now ≡ market_of self.now.shares number) }
    {
        Ok(&self.shares[place_of(number)?])
    }

    // Lists a share with its closes, the oldest first.
    pub fn list(&mut self, share: u8, closes: &[u32]) -> Result<(), MarketFault>
        ensures answer { result_err result ≡ first_fault (list_checks (market_of self.old.shares) share closes.now) }
        ensures after { market_of self.new.shares ≡ when_granted result (put share (newly closes.now) (market_of self.old.shares)) (market_of self.old.shares) }
    {
        self.shares[place_of(share)?].list(closes)
    }

    // Begins a share's new day, and answers it.
    pub fn open_day(&mut self, opening: Opening) -> Result<Day, MarketFault>
        ensures answer { result_err result ≡ first_fault (day_checks (market_of self.old.shares) opening) }
        ensures after { market_of self.new.shares ≡ when_granted result (put opening.share (opened opening (market_of self.old.shares opening.share)) (market_of self.old.shares)) (market_of self.old.shares) }
        ensures day { result_ok result ≡ when_granted result (day_of (market_of self.new.shares opening.share)) None }
    {
        self.shares[place_of(opening.share)?].open_day(opening)
    }

    // Whether the market takes a quote.
    pub fn check_quote(&self, quote: Quote) -> Result<(), MarketFault>
        ensures { result_err result ≡ first_fault (quote_checks (market_of self.now.shares) quote) }
    {
        self.share(quote.share)?.check_quote(quote)
    }

    // Makes a quote that was checked its share's latest; where the share is not listed nothing changes.
    pub fn keep_quote(&mut self, quote: Quote)
        ensures { market_of self.new.shares ≡ put quote.share (taken quote (market_of self.old.shares quote.share)) (market_of self.old.shares) }
    {
        if let Ok(place) = place_of(quote.share) {
            self.shares[place].keep_quote(quote);
        }
    }

    // Checks a quote, and makes it its share's latest.
    pub fn take_quote(&mut self, quote: Quote) -> Result<(), MarketFault>
        ensures answer { result_err result ≡ first_fault (quote_checks (market_of self.old.shares) quote) }
        ensures after { market_of self.new.shares ≡ when_granted result (put quote.share (taken quote (market_of self.old.shares quote.share)) (market_of self.old.shares)) (market_of self.old.shares) }
    {
        self.check_quote(quote)?;
        self.keep_quote(quote);
        Ok(())
    }

    // Whether there is such a share, and it is listed.
    pub fn check_share(&self, share: u8) -> Result<(), MarketFault>
        ensures { result_err result ≡ first_fault (share_checks (market_of self.now.shares) share) }
    {
        self.share(share)?.check_listed()
    }

    pub fn day_of(&self, share: u8) -> Option<Day>
        ensures { result ≡ day_of (market_of self.now.shares share) }
    {
        self.share(share).ok()?.day()
    }

    // The prices of the latest quote of the share's day.
    pub fn prices_of(&self, share: u8) -> Option<Levels>
        ensures { result ≡ prices_of (market_of self.now.shares share) }
    {
        self.share(share).ok()?.prices()
    }
}
