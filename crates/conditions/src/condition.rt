ghost use Rattle.std.specs.Prelude.{◌≡◌, [], ◌∷◌};
ghost use Rattle.conditions.specs.Meaning.{Meaning, Repeats, Proper, after};

use crate::event::{Answer, Event};

// What an order waits for. An implementation says what it means, and shows that it answers just that
// and keeps the two laws; whoever holds a condition relies on nothing else.
pub trait Condition {
    ghost meaning: { Self → Meaning };

    fn tell(&mut self, event: Event) -> Answer
        ensures answers { result ≡ meaning self.old [] event }
        ensures follows { meaning self.new ≡ after (meaning self.old) (event ∷ []) };

    ghost repeats: { (c : Self) → Repeats (meaning c) };

    ghost proper: { (c : Self) → Proper (meaning c) };
}
