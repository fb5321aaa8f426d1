ghost use Rattle.std.specs.Prelude.{◌≤◌};

use crate::price::Price;

mod making;

// The prices from a low to a high, both ends included.
#[derive(Clone, Copy, PartialEq, Eq, Debug)]
pub struct PriceRange {
    low: Price,
    high: Price,
    ghost ordered: { low.value ≤ high.value },
}
