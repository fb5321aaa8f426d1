// Numbers that should be prices, as calls bring them.
ghost use Rattle.std.specs.Prelude.{◌≡◌, ◌≤◌, [], ◌∷◌, ◌++◌, map, length, take, OnOk};
ghost use Rattle.std.specs.Option.{ok_or};
ghost use Rattle.std.specs.Result.{result_err};
ghost use Rattle.values.specs.Prices.{priced};
ghost use Rattle.values.specs.declared.fault.MakingFault.TheVariants as making;
ghost use Rattle.rules.specs.Checks.{first_fault};
ghost use Rattle.rules.specs.Market.{closes_of, price_check, level_check};
ghost use Rattle.rules.specs.declared.fault.MarketFault.TheVariants as fault;

use rules::fault::MarketFault;
use rules::quote::Levels;
use values::price::Price;

// The price that a number is.
#[tactic(auto, using(values::proofs::Pricing::priced_made))]
pub(crate) fn price_of(number: u32) -> Result<Price, MarketFault>
    ensures { result ≡ ok_or (priced number) (fault.Making making.Price) }
{
    Ok(Price::new(number)?)
}

// Writes the closes' prices to the front of a row, by index: a proof knows nothing of what a zip of `iter_mut` has written.
// A number that is no price stops it, and what it wrote is then of no use.
pub(crate) fn copy_prices(row: &mut [Price], closes: &[u32]) -> Result<(), MarketFault>
    requires { length closes.now ≤ length row.old }
    ensures answer { result_err result ≡ first_fault (map price_check closes.now) }
    ensures copied { OnOk result (take (length closes.now) row.new ≡ closes_of closes.now) }
{
    for (i, close) in closes.iter().enumerate() {
        row[i] = price_of(*close)?;
    }
    Ok(())
}

// A level of 0 is missing: levels come in as plain numbers, which the call checks.
fn check_level(level: u32) -> Result<(), MarketFault>
    ensures { result_err result ≡ first_fault (level_check level ∷ []) }
{
    if level != 0 {
        price_of(level)?;
    }
    Ok(())
}

fn check_each(levels: &[u32]) -> Result<(), MarketFault>
    ensures { result_err result ≡ first_fault (map level_check levels.now) }
{
    for level in levels {
        check_level(*level)?;
    }
    Ok(())
}

// The last price, then the levels of both sides.
#[tactic(auto, using(crate::proofs::Checking::both_sides))]
pub(crate) fn check_levels(levels: Levels) -> Result<(), MarketFault>
    ensures { result_err result ≡ first_fault (price_check levels.last ∷ map level_check (levels.bids ++ levels.asks)) }
{
    price_of(levels.last)?;
    check_each(&levels.bids)?;
    check_each(&levels.asks)
}
