ghost use Rattle.std.specs.Prelude.{◌≡◌};
ghost use Rattle.conditions.specs.Layers.{in_range, outside, leaving};
ghost use Rattle.conditions.specs.Layering.{range_repeats, range_proper};

use crate::condition::Condition;
use crate::event::{Answer, Event, Fire, Next};
use values::range::PriceRange;

// A range outside of which an order ends, and whether a fire there still passes, as the last one.
#[derive(Clone, Copy)]
pub struct Bounds {
    pub range: PriceRange,
    pub switch: bool,
}

// Ends with the first tick outside a range.
#[derive(Clone, Copy)]
pub struct Range<C> {
    bounds: Bounds,
    below: C,
}

impl<C: Condition> Range<C> {
    pub fn new(bounds: Bounds, below: C) -> Range<C>
        ensures { ⟦<Range<C> as Condition>⟧.meaning result ≡ in_range bounds.range bounds.switch (C.Condition.meaning below) }
    {
        Range { bounds, below }
    }
}

// Whether an event is a tick outside a range.
fn is_outside(range: PriceRange, event: Event) -> bool
    ensures { result ≡ outside range event }
{
    matches!(event, Event::Tick(t) if !range.contains(t.price))
}

// What an answer from below becomes outside the range.
fn leave(switch: bool, answer: Answer) -> Answer
    ensures { result ≡ leaving switch answer }
{
    match answer {
        Answer::Fires(f) if switch => Answer::Fires(Fire {
            next: Next::Over,
            ..f
        }),
        _ => Answer::Lapses,
    }
}

impl<C: Condition> Condition for Range<C> {
    ghost meaning = { λ r. in_range r.bounds.range r.bounds.switch (C.Condition.meaning r.below) };

    ghost repeats = { λ c. range_repeats c.bounds.range c.bounds.switch _ (C.Condition.repeats c.below) };

    ghost proper = { λ c. range_proper c.bounds.range c.bounds.switch _ (C.Condition.proper c.below) };

    fn tell(&mut self, event: Event) -> Answer {
        let answer = self.below.tell(event);
        if is_outside(self.bounds.range, event) {
            leave(self.bounds.switch, answer)
        } else {
            answer
        }
    }
}
