// The two types of condition that the house's books hold.
//
// Their variants hold type parameters, with the house's own types as defaults: a condition by cases is then proved
// once for whatever stands in them, and is told in place.
ghost use Rattle.kinds.specs.Cases.{single_means, repeating_means};
ghost use Rattle.std.proofs.Common.{rules};

use crate::batch::Batch;
use crate::grid::Grid;
use crate::one_of::OneOf;
use crate::test::average::Average;
use crate::test::held::Held;
use crate::test::level::Level;
use crate::test::move_of_day::MoveOfDay;
use crate::test::prompt::Prompt;
use crate::trail::Trail;
use conditions::condition::Condition;
use conditions::event::{Answer, Event};
use conditions::layer::either::Either;
use conditions::layer::range::Range;
use values::direction::{Falling, Rising};

pub type EitherLevel = OneOf<Prompt<Level<Rising>>, Prompt<Level<Falling>>>;

pub type EitherMove = OneOf<Prompt<MoveOfDay<Rising>>, Prompt<MoveOfDay<Falling>>>;

// The kinds that wait for a level, given or of the day.
pub type LevelOrMove = OneOf<EitherLevel, EitherMove>;

pub type EitherAverage = OneOf<Held<Average<Rising>>, Held<Average<Falling>>>;

pub type EitherTrail = OneOf<Trail<Rising>, Trail<Falling>>;

// A profit that is a level or falls back from its top.
pub type Profit = OneOf<Prompt<Level<Rising>>, Trail<Falling>>;

// A stop, and a profit.
pub type StopOrProfit = Either<Prompt<Level<Falling>>, Profit>;

// The kinds that fire once. No nested OneOf: the house makes orders by these names.
#[derive(Clone, Copy)]
pub enum SingleShot<P = LevelOrMove, V = EitherAverage, T = EitherTrail, S = StopOrProfit> {
    LevelOrMove(P),
    Average(V),
    Trail(T),
    StopOrProfit(S),
}

impl<P: Condition, V: Condition, T: Condition, S: Condition> Condition for SingleShot<P, V, T, S> {
    ghost meaning = { λ s. single_means P.Condition.meaning V.Condition.meaning T.Condition.meaning S.Condition.meaning s };

    ghost repeats = { Prim.search rules };

    ghost proper = { Prim.search rules };

    fn tell(&mut self, event: Event) -> Answer {
        match self {
            SingleShot::LevelOrMove(c) => c.tell(event),
            SingleShot::Average(c) => c.tell(event),
            SingleShot::Trail(c) => c.tell(event),
            SingleShot::StopOrProfit(c) => c.tell(event),
        }
    }
}

pub type EitherBatch = OneOf<Batch<Falling>, Batch<Rising>>;

// The kinds that fire again and again, by name for the same reason.
#[derive(Clone, Copy)]
pub enum Repeating<B = EitherBatch, G = Range<Grid>> {
    Batch(B),
    Grid(G),
}

impl<B: Condition, G: Condition> Condition for Repeating<B, G> {
    ghost meaning = { λ s. repeating_means B.Condition.meaning G.Condition.meaning s };

    ghost repeats = { Prim.search rules };

    ghost proper = { Prim.search rules };

    fn tell(&mut self, event: Event) -> Answer {
        match self {
            Repeating::Batch(c) => c.tell(event),
            Repeating::Grid(c) => c.tell(event),
        }
    }
}
