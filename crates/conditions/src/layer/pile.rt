// The pile in which a book holds a condition: Until over Range over it.
ghost use Rattle.std.specs.Prelude.{◌≡◌};
ghost use Rattle.conditions.specs.Layers.{until, in_range};
ghost use Rattle.conditions.specs.Piles.{last_or, span_or, switch_or, PilesLawful};

use crate::condition::Condition;
pub use crate::layer::range::Bounds;
use crate::layer::range::Range;
use crate::layer::until::Until;
use values::range::PriceRange;

pub type Pile<C> = Until<Range<C>>;

// A missing layer is one that ends nothing: a last day that no day comes after, and a range of all prices.
// So all piles over a condition have one type, which a book's rows can hold.
pub fn pile<C: Condition>(last: Option<u16>, bounds: Option<Bounds>, below: C) -> Pile<C>
    ensures means { ⟦<Pile<C> as Condition>⟧.meaning result ≡ until (last_or last) (in_range (span_or bounds) (switch_or bounds) (C.Condition.meaning below)) }
    ensures lawful { PilesLawful }
{
    let bounds = bounds.unwrap_or(Bounds {
        range: PriceRange::whole(),
        switch: false,
    });
    let last = last.unwrap_or(u16::MAX);
    Until::new(last, Range::new(bounds, below))
}
