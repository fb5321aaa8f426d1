ghost use Rattle.std.specs.Prelude.{◌≡◌};
ghost use Rattle.conditions.specs.Layers.{either, both, joined};
ghost use Rattle.conditions.specs.Layering.{either_repeats, either_proper};

use crate::condition::Condition;
use crate::event::{Answer, Event, Fire, Next};

// Two conditions that are told everything; the first one's fire goes before the second one's.
#[derive(Clone, Copy)]
pub struct Either<P, Q> {
    first: P,
    second: Q,
}

impl<P: Condition, Q: Condition> Either<P, Q> {
    pub fn new(first: P, second: Q) -> Either<P, Q>
        ensures { ⟦<Either<P, Q> as Condition>⟧.meaning result ≡ either (P.Condition.meaning first) (Q.Condition.meaning second) }
    {
        Either { first, second }
    }
}

// What follows a fire, beside the other condition's answer.
fn join(next: Next, other: Answer) -> Next
    ensures { result ≡ joined next other }
{
    match other {
        Answer::Wait => next,
        Answer::Lapses => Next::Over,
        Answer::Fires(f) => next.max(f.next),
    }
}

// The answer of the pair.
fn combine(first: Answer, second: Answer) -> Answer
    ensures { result ≡ both first second }
{
    match (first, second) {
        (Answer::Fires(f), other) | (other @ Answer::Lapses, Answer::Fires(f)) => {
            Answer::Fires(Fire {
                next: join(f.next, other),
                ..f
            })
        }
        (Answer::Lapses, _) => Answer::Lapses,
        (Answer::Wait, _) => second,
    }
}

impl<P: Condition, Q: Condition> Condition for Either<P, Q> {
    ghost meaning = { λ e. either (P.Condition.meaning e.first) (Q.Condition.meaning e.second) };

    ghost repeats = { λ c. either_repeats _ _ (P.Condition.repeats c.first) (Q.Condition.repeats c.second) };

    ghost proper = { λ c. either_proper _ _ (P.Condition.proper c.first) (Q.Condition.proper c.second) };

    fn tell(&mut self, event: Event) -> Answer {
        let first = self.first.tell(event);
        let second = self.second.tell(event);
        combine(first, second)
    }
}
