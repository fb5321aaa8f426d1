ghost use Rattle.std.specs.Prelude.{◌≡◌};
ghost use Rattle.conditions.specs.Layers.{until};
ghost use Rattle.conditions.specs.Layering.{until_repeats, until_proper};

use crate::condition::Condition;
use crate::event::{Answer, Event};

// Lapses on a day after its last.
#[derive(Clone, Copy)]
pub struct Until<C> {
    last: u16,
    below: C,
}

impl<C: Condition> Until<C> {
    pub fn new(last: u16, below: C) -> Until<C>
        ensures { ⟦<Until<C> as Condition>⟧.meaning result ≡ until last (C.Condition.meaning below) }
    {
        Until { last, below }
    }
}

impl<C: Condition> Condition for Until<C> {
    ghost meaning = { λ u. until u.last (C.Condition.meaning u.below) };

    ghost repeats = { λ c. until_repeats c.last _ (C.Condition.repeats c.below) };

    ghost proper = { λ c. until_proper c.last _ (C.Condition.proper c.below) };

    fn tell(&mut self, event: Event) -> Answer {
        let answer = self.below.tell(event);
        match event {
            Event::Day(d) if d.number > self.last => Answer::Lapses,
            _ => answer,
        }
    }
}
