// A grid: buys at the falling, and sells at the rising target of its base, again and again.
ghost use Rattle.std.specs.Prelude.{◌≡◌, option_map};
ghost use Rattle.kinds.specs.Grids.{grid_means, allowed, fire, fire_at, moved, follows_fire};
ghost use Rattle.kinds.specs.declared.grid.GridStage.TheVariants as stage;
ghost use Rattle.values.specs.Prices.{reached_target};
ghost use Rattle.values.specs.Targets.{rising_beyond, falling_beyond};
ghost use Rattle.kinds.specs.Gridding.{grid_repeats, grid_proper};

use conditions::condition::Condition;
use conditions::event::{Answer, Event, Fire, Next, Side};
use values::direction::{Direction, Falling, Rising};
use values::price::Price;
use values::range::PriceRange;
use values::step::Step;

// Where a grid takes its next base from. No Option of a range: both modes have names in the trade.
#[derive(Clone, Copy)]
pub enum GridMode {
    // the tick that fired; only a target inside the range fires
    Market(PriceRange),
    // the settlement of the slip; no tick is heeded until it comes
    Fill,
}

// What a grid was made with.
#[derive(Clone, Copy)]
pub struct GridTerms {
    pub mode: GridMode,
    // the step to the target at which it buys
    pub down: Step,
    // the step to the target at which it sells
    pub up: Step,
}

// What a grid waits for: a price at a target of its base, or the settlement that gives the next base.
// No Option of a base: the laws name both stages.
#[derive(Clone, Copy)]
pub enum GridStage {
    Watching { base: Price },
    Awaiting,
}

#[derive(Clone, Copy)]
pub struct Grid {
    terms: GridTerms,
    stage: GridStage,
}

impl GridMode {
    // A target that has been reached, if it may fire.
    fn admit(&self, target: Option<Price>) -> Option<Price>
        ensures { result ≡ allowed self.now target }
    {
        match self {
            // by match: with `filter` a grid's tick takes a tenth more instructions
            GridMode::Market(range) => match target {
                Some(t) if range.contains(t) => Some(t),
                _ => None,
            },
            GridMode::Fill => target,
        }
    }

    fn next_after_fire(&self) -> Next
        ensures { result ≡ follows_fire self.now }
    {
        match self {
            GridMode::Market(_) => Next::GoesOn,
            GridMode::Fill => Next::AwaitsSettlement,
        }
    }

    // Where a fire at a price leaves the grid.
    fn stage_after_fire(&self, price: Price) -> GridStage
        ensures { result ≡ moved self.now price }
    {
        match self {
            GridMode::Market(_) => GridStage::Watching { base: price },
            GridMode::Fill => GridStage::Awaiting,
        }
    }
}

impl Grid {
    pub fn new(terms: GridTerms, base: Price) -> Grid
        ensures { ⟦<Grid as Condition>⟧.meaning result ≡ grid_means terms (stage.Watching base) }
    {
        Grid {
            terms,
            stage: GridStage::Watching { base },
        }
    }

    // What a price fires at the target of a base in the direction D.
    fn at_target<D: Direction>(
        &self,
        side: Side,
        step: Step,
        base: Price,
        price: Price,
    ) -> Option<Fire>
        ensures { result ≡ option_map (fire_at self.now.terms side) (allowed self.now.terms.mode (reached_target D.Direction.order D.Direction.target step base price)) }
    {
        let trigger = self.terms.mode.admit(D::reached(step, base, price))?;
        Some(Fire {
            side,
            trigger,
            next: self.terms.mode.next_after_fire(),
        })
    }

    // What a price fires from a base.
    fn fired(&self, base: Price, price: Price) -> Option<Fire>
        ensures { result ≡ fire self.now.terms base price }
    {
        self.at_target::<Falling>(Side::Buy, self.terms.down, base, price)
            .or_else(|| self.at_target::<Rising>(Side::Sell, self.terms.up, base, price))
    }
}

impl Condition for Grid {
    ghost meaning = { λ g. grid_means g.terms g.stage };

    ghost repeats = { λ c. grid_repeats c.terms (falling_beyond c.terms.down) (rising_beyond c.terms.up) c.stage };

    ghost proper = { λ c. grid_proper c.terms c.stage };

    fn tell(&mut self, event: Event) -> Answer {
        match (self.stage, event) {
            // by match: one arm changes the grid, which a closure would have to capture
            (GridStage::Watching { base }, Event::Tick(t)) => match self.fired(base, t.price) {
                Some(fire) => {
                    self.stage = self.terms.mode.stage_after_fire(t.price);
                    Answer::Fires(fire)
                }
                None => Answer::Wait,
            },
            (GridStage::Awaiting, Event::Settlement(price)) => {
                self.stage = GridStage::Watching { base: price };
                Answer::Wait
            }
            (_, Event::Day(_))
            | (GridStage::Awaiting, Event::Tick(_))
            | (GridStage::Watching { .. }, Event::Settlement(_)) => Answer::Wait,
        }
    }
}
