// One of two conditions, as one type.
ghost use Rattle.kinds.specs.Cases.{one_means};
ghost use Rattle.std.proofs.Common.{rules};

use conditions::condition::Condition;
use conditions::event::{Answer, Event};

#[derive(Clone, Copy)]
pub enum OneOf<P, Q> {
    First(P),
    Second(Q),
}

impl<P: Condition, Q: Condition> Condition for OneOf<P, Q> {
    ghost meaning = { λ o. one_means P.Condition.meaning Q.Condition.meaning o };

    ghost repeats = { Prim.search rules };

    ghost proper = { Prim.search rules };

    fn tell(&mut self, event: Event) -> Answer {
        match self {
            OneOf::First(c) => c.tell(event),
            OneOf::Second(c) => c.tell(event),
        }
    }
}
