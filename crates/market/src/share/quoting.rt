ghost use Rattle.std.specs.Prelude.{◌≡◌};
ghost use Rattle.std.specs.Result.{result_err};
ghost use Rattle.rules.specs.Market.{earlier, taken};
ghost use Rattle.market.specs.Asking.{quote_refusal};
ghost use Rattle.market.specs.View.{share_view};

use crate::prices::check_levels;
use crate::share::Share;
use rules::fault::MarketFault;
use rules::quote::Quote;

// the last phase: a quote's phase comes in as a plain number, which the call below checks
const AFTER_HOURS: u8 = 2;

// the last second of the day
const GREATEST_MOMENT: u32 = 86_399;

// Whether a moment lies before the latest quote's.
fn is_earlier(moment: u32, latest: Option<Quote>) -> bool
    ensures { result ≡ earlier moment latest }
{
    latest.is_some_and(|quote| moment < quote.moment)
}

impl Share {
    pub fn check_quote(&self, quote: Quote) -> Result<(), MarketFault>
        ensures { result_err result ≡ quote_refusal (share_view self.now) quote }
    {
        let listed = self.listed()?;
        if listed.day.is_none() {
            return Err(MarketFault::NoDay);
        }
        if quote.phase > AFTER_HOURS {
            return Err(MarketFault::Phase);
        }
        if quote.moment > GREATEST_MOMENT || is_earlier(quote.moment, listed.latest) {
            return Err(MarketFault::Moment);
        }
        check_levels(quote.levels)
    }

    // A checked quote becomes the latest.
    pub fn keep_quote(&mut self, quote: Quote)
        ensures { share_view self.new ≡ taken quote (share_view self.old) }
    {
        if let Some(listed) = &mut self.listed {
            listed.latest = Some(quote);
        }
    }
}
