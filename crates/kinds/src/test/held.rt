// Fires once a test has held for some seconds of one day.
ghost use Rattle.std.specs.Prelude.{◌≡◌, None};
ghost use Rattle.kinds.specs.Holds.{held_means, since_next, long_enough, earliest};
ghost use Rattle.kinds.specs.Holding.{held_repeats, held_proper};

use crate::test::Test;
use conditions::condition::Condition;
use conditions::event::{Answer, Day, Event, Fire, Side};
use values::hold::Hold;

#[derive(Clone, Copy)]
pub struct Held<T> {
    test: T,
    side: Side,
    hold: Hold,
    // the latest day told; the test is not asked before there is one
    day: Option<Day>,
    // the least moment of the newest ticks of that day that are all a yes, if the newest one is
    since: Option<u32>,
}

impl<T: Test> Held<T> {
    pub fn new(test: T, side: Side, hold: Hold) -> Held<T>
        ensures { ⟦<Held<T> as Condition>⟧.meaning result ≡ held_means (T.Test.trigger test) hold.seconds side None None }
    {
        Held {
            test,
            side,
            hold,
            day: None,
            since: None,
        }
    }
}

// The least moment of a run of yes ticks, with one more.
fn earliest(since: Option<u32>, moment: u32) -> u32
    ensures { result ≡ earliest since moment }
{
    since.map_or(moment, |start| start.min(moment))
}

// The same after a tick that is a yes or not.
fn since_next(since: Option<u32>, moment: u32, passed: bool) -> Option<u32>
    ensures { result ≡ since_next since moment passed }
{
    passed.then_some(earliest(since, moment))
}

// Whether a run of yes ticks began long enough before a moment.
fn long_enough(hold: Hold, since: Option<u32>, moment: u32) -> bool
    ensures { result ≡ long_enough hold.seconds since moment }
{
    since.is_some_and(|start| start as u64 + hold.seconds() as u64 <= moment as u64)
}

impl<T: Test> Condition for Held<T> {
    ghost meaning = { λ c. held_means (T.Test.trigger c.test) c.hold.seconds c.side c.day c.since };

    ghost repeats = { λ c. held_repeats (T.Test.trigger c.test) c.hold.seconds c.side c.hold.low c.day c.since };

    ghost proper = { λ c. held_proper (T.Test.trigger c.test) c.hold.seconds c.side c.day c.since };

    fn tell(&mut self, event: Event) -> Answer {
        match event {
            // by match: one arm changes the run of yes ticks, which a closure would have to capture
            Event::Tick(t) => match &self.day {
                Some(day) => {
                    let trigger = self.test.judge(day, t.price);
                    let long = long_enough(self.hold, self.since, t.moment);
                    self.since = since_next(self.since, t.moment, trigger.is_some());
                    Fire::over_at(self.side, trigger.filter(|_| long))
                }
                None => Answer::Wait,
            },
            Event::Day(day) => {
                self.day = Some(day);
                self.since = None;
                Answer::Wait
            }
            Event::Settlement(_) => Answer::Wait,
        }
    }
}
