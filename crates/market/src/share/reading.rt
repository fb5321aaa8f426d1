ghost use Rattle.std.specs.Prelude.{◌≡◌, MatchResult, Some, None};
ghost use Rattle.std.specs.Result.{result_err};
ghost use Rattle.rules.specs.Market.{day_of, prices_of};
ghost use Rattle.rules.specs.declared.fault.MarketFault.TheVariants as fault;
ghost use Rattle.market.specs.Asking.{listed_refusal};
ghost use Rattle.market.specs.View.{share_view};

use crate::share::{Listed, Share};
use conditions::event::Day;
use rules::fault::MarketFault;
use rules::quote::Levels;

impl Share {
    // What is known of the share, where it is listed.
    pub(super) fn listed(&self) -> Result<&Listed, MarketFault>
        ensures { MatchResult result (λ l. self.now.listed ≡ Some l.now) (λ f. (f ≡ fault.NotListed) × (self.now.listed ≡ None)) }
    {
        self.listed.as_ref().ok_or(MarketFault::NotListed)
    }

    pub fn check_listed(&self) -> Result<(), MarketFault>
        ensures { result_err result ≡ listed_refusal (share_view self.now) }
    {
        self.listed()?;
        Ok(())
    }

    pub fn day(&self) -> Option<Day>
        ensures { result ≡ day_of (share_view self.now) }
    {
        self.listed.as_ref()?.day
    }

    // The latest quote's prices.
    pub fn prices(&self) -> Option<Levels>
        ensures { result ≡ prices_of (share_view self.now) }
    {
        self.listed.as_ref()?.latest.map(|quote| quote.levels)
    }
}
