// Fires at the first yes of a test.
ghost use Rattle.std.specs.Prelude.{◌≡◌, None};
ghost use Rattle.kinds.specs.Prompts.{prompt_means};
ghost use Rattle.kinds.specs.Prompting.{prompt_repeats, prompt_proper};

use crate::test::Test;
use conditions::condition::Condition;
use conditions::event::{Answer, Day, Event, Fire, Side};

#[derive(Clone, Copy)]
pub struct Prompt<T> {
    test: T,
    side: Side,
    // the latest day told; the test is not asked before there is one
    day: Option<Day>,
}

impl<T: Test> Prompt<T> {
    pub fn new(test: T, side: Side) -> Prompt<T>
        ensures { ⟦<Prompt<T> as Condition>⟧.meaning result ≡ prompt_means (T.Test.trigger test) side None }
    {
        Prompt {
            test,
            side,
            day: None,
        }
    }
}

impl<T: Test> Condition for Prompt<T> {
    ghost meaning = { λ c. prompt_means (T.Test.trigger c.test) c.side c.day };

    ghost repeats = { λ c. prompt_repeats (T.Test.trigger c.test) c.side c.day };

    ghost proper = { λ c. prompt_proper (T.Test.trigger c.test) c.side c.day };

    fn tell(&mut self, event: Event) -> Answer {
        match event {
            Event::Tick(t) => {
                let day = self.day.as_ref();
                let trigger = day.and_then(|day| self.test.judge(day, t.price));
                Fire::over_at(self.side, trigger)
            }
            Event::Day(day) => {
                self.day = Some(day);
                Answer::Wait
            }
            Event::Settlement(_) => Answer::Wait,
        }
    }
}
