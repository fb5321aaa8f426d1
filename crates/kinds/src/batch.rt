// A batch: buys at the falling, or sells at the rising target of its base, again and again.
ghost use Rattle.std.specs.Prelude.{◌≡◌};
ghost use Rattle.kinds.specs.Batches.{batch_means};
ghost use Rattle.kinds.specs.Batching.{batch_repeats, batch_proper};

use conditions::condition::Condition;
use conditions::event::{Answer, Event, Fire, Next, Side};
use values::direction::Direction;
use values::price::Price;
use values::step::Step;

// Fires at the target of its base in the direction D, and takes the price that reached it as the next base.
#[derive(Clone, Copy)]
pub struct Batch<D> {
    direction: D,
    side: Side,
    step: Step,
    base: Price,
}

impl<D: Direction> Batch<D> {
    pub(crate) fn new(direction: D, side: Side, step: Step, base: Price) -> Batch<D>
        ensures { ⟦<Batch<D> as Condition>⟧.meaning result ≡ batch_means D.Direction.order D.Direction.target side step base }
    {
        Batch {
            direction,
            side,
            step,
            base,
        }
    }
}

impl<D: Direction> Condition for Batch<D> {
    ghost meaning = { λ b. batch_means D.Direction.order D.Direction.target b.side b.step b.base };

    ghost repeats = { λ c. batch_repeats D.Direction.order D.Direction.target c.side c.step (D.Direction.beyond c.step) c.base };

    ghost proper = { λ c. batch_proper D.Direction.order D.Direction.target c.side c.step c.base };

    fn tell(&mut self, event: Event) -> Answer {
        match event {
            // by match: one arm changes the batch, which a closure would have to capture
            Event::Tick(t) => match D::reached(self.step, self.base, t.price) {
                Some(trigger) => {
                    self.base = t.price;
                    Answer::Fires(Fire {
                        side: self.side,
                        trigger,
                        next: Next::GoesOn,
                    })
                }
                None => Answer::Wait,
            },
            Event::Day(_) | Event::Settlement(_) => Answer::Wait,
        }
    }
}
