// Rebound buy and fall-back sell: one text over the direction in which the price turns.
ghost use Rattle.std.specs.Prelude.{◌≡◌, if◌then◌else◌};
ghost use Rattle.std.specs.Option.{option_or};
ghost use Rattle.conditions.specs.Meaning.{fires_over};
ghost use Rattle.kinds.specs.Trails.{trail_means, begun, by_target, by_floor};
ghost use Rattle.kinds.specs.declared.trail.TrailState.TheVariants as state;
ghost use Rattle.kinds.specs.Trailing.{trail_repeats, trail_proper};

use conditions::condition::Condition;
use conditions::event::{Answer, Event, Fire, Side};
use values::direction::Direction;
use values::price::Price;
use values::step::Step;

#[derive(Clone, Copy)]
pub struct TrailOptions {
    // once a price lay strictly past the mark, a return to the mark fires too
    pub floor: bool,
    // the target fires only while the price has not come back across the mark
    pub stay: bool,
}

// What a trail was made with.
#[derive(Clone, Copy)]
pub struct TrailTerms {
    pub side: Side,
    pub mark: Price,
    pub step: Step,
    pub options: TrailOptions,
}

// No Option of an extreme: the trail's definition names both states.
#[derive(Clone, Copy)]
pub enum TrailState {
    // no price has come to the mark yet
    Idle,
    // the price furthest back since one came to the mark
    Tracking { extreme: Price },
}

// Fires when the price turns in the direction D, by a step from its extreme, after it came to a mark.
#[derive(Clone, Copy)]
pub struct Trail<D> {
    direction: D,
    terms: TrailTerms,
    state: TrailState,
}

impl<D: Direction> Trail<D> {
    // A trail to whose mark no price has come yet.
    pub(crate) fn new(direction: D, terms: TrailTerms) -> Trail<D>
        ensures { ⟦<Trail<D> as Condition>⟧.meaning result ≡ trail_means D.Direction.order D.Direction.target terms state.Idle }
    {
        Trail {
            direction,
            terms,
            state: TrailState::Idle,
        }
    }

    // The watch begins with the first price at the mark or further back.
    fn begin(&self, price: Price) -> TrailState
        ensures { result ≡ begun D.Direction.order self.now.terms price }
    {
        if D::passes(self.terms.mark, price) {
            TrailState::Tracking { extreme: price }
        } else {
            TrailState::Idle
        }
    }

    // The one of two prices that lies further back.
    fn further(&self, extreme: Price, price: Price) -> Price
        ensures { result ≡ (if D.Direction.order price.value extreme.value then price else extreme) }
    {
        if D::passes(extreme, price) {
            price
        } else {
            extreme
        }
    }

    // The trigger price, where a price has reached the target of the extreme.
    fn at_target(&self, extreme: Price, price: Price) -> Option<Price>
        ensures { result ≡ by_target D.Direction.order D.Direction.target self.now.terms extreme price }
    {
        if self.terms.options.stay && !D::passes(self.terms.mark, price) {
            return None;
        }
        D::reached(self.terms.step, extreme, price)
    }

    // The trigger price, where a price has come back to the mark; `before` is the extreme without it.
    fn at_floor(&self, before: Price, price: Price) -> Option<Price>
        ensures { result ≡ by_floor D.Direction.order self.now.terms before price }
    {
        let mark = self.terms.mark;
        let floored = self.terms.options.floor
            && !D::passes(before, mark)
            && D::passes(price, mark);
        floored.then_some(mark)
    }

    // A tick at a price, with the extreme before it and the one with it.
    fn judge(&self, before: Price, extreme: Price, price: Price) -> Answer
        ensures { result ≡ fires_over self.now.terms.side (option_or (by_target D.Direction.order D.Direction.target self.now.terms extreme price) (by_floor D.Direction.order self.now.terms before price)) }
    {
        Fire::over_at(
            self.terms.side,
            self.at_target(extreme, price)
                .or(self.at_floor(before, price)),
        )
    }
}

impl<D: Direction> Condition for Trail<D> {
    ghost meaning = { λ t. trail_means D.Direction.order D.Direction.target t.terms t.state };

    ghost repeats = { λ c. trail_repeats D.Direction.order D.Direction.target D.Direction.total c.terms (λ p. D.Direction.beyond c.terms.step p) c.state };

    ghost proper = { λ c. trail_proper D.Direction.order D.Direction.target c.terms c.state };

    fn tell(&mut self, event: Event) -> Answer {
        match (self.state, event) {
            (TrailState::Idle, Event::Tick(t)) => {
                self.state = self.begin(t.price);
                Answer::Wait
            }
            (TrailState::Tracking { extreme }, Event::Tick(t)) => {
                let furthest = self.further(extreme, t.price);
                let fire = self.judge(extreme, furthest, t.price);
                self.state = TrailState::Tracking { extreme: furthest };
                fire
            }
            (_, Event::Day(_)) | (_, Event::Settlement(_)) => Answer::Wait,
        }
    }
}
