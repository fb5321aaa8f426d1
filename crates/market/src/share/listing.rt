ghost use Rattle.std.specs.Prelude.{◌≡◌, IfOk, None};
ghost use Rattle.std.specs.Result.{result_err};
ghost use Rattle.rules.specs.Checks.{first_fault};
ghost use Rattle.rules.specs.Market.{listed};
ghost use Rattle.market.specs.Asking.{close_checks, listing_refusal, newly, when_granted};
ghost use Rattle.market.specs.View.{held, share_view};

use crate::prices::copy_prices;
use crate::share::{CLOSES_KEPT, Listed, Share};
use rules::fault::MarketFault;
use values::range::PriceRange;

impl Listed {
    // Takes a listing's closes, the oldest first, into the share's own row.
    fn of(closes: &[u32]) -> Result<Listed, MarketFault>
        ensures answer { result_err result ≡ first_fault (close_checks closes.now) }
        ensures made { IfOk result (λ l. held l ≡ listed closes.now) }
    {
        let count = closes.len();
        if count > CLOSES_KEPT {
            return Err(MarketFault::TooManyCloses);
        }
        // any price will do where no close stands
        let mut row = [PriceRange::whole().low(); CLOSES_KEPT];
        copy_prices(&mut row, closes)?;
        Ok(Listed {
            closes: row,
            count,
            day: None,
            latest: None,
        })
    }
}

impl Share {
    // A share that is not listed.
    pub fn new() -> Share
        ensures { share_view result ≡ None }
    {
        Share { listed: None }
    }

    // Lists the share with its closes, the oldest first.
    pub fn list(&mut self, closes: &[u32]) -> Result<(), MarketFault>
        ensures answer { result_err result ≡ listing_refusal (share_view self.old) closes.now }
        ensures after { share_view self.new ≡ when_granted result (newly closes.now) (share_view self.old) }
    {
        if self.listed.is_some() {
            return Err(MarketFault::ListedAlready);
        }
        self.listed = Some(Listed::of(closes)?);
        Ok(())
    }
}
