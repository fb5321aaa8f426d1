// The makers of the kinds, as orders are placed with them. Their contracts say what the made condition means,
// and name the laws above those definitions that go event by event.
// Rebound and fall back, the two batches and the two grids are makers of their own, since each names its own law;
// what they share stands in Trail, Batch and Grid.
ghost use Rattle.std.specs.Prelude.{◌≡◌};
ghost use Rattle.values.specs.Making.{seen};
ghost use Rattle.values.specs.Directions.{rising_order, rising_target, falling_order, falling_target};
ghost use Rattle.conditions.specs.declared.event.Side.TheVariants as side;
ghost use Rattle.kinds.specs.Bases.{FromLatestFire, FromLatestFill};
ghost use Rattle.kinds.specs.Batches.{batch_answer, buy_batch, sell_batch};
ghost use Rattle.kinds.specs.Grids.{grid_answer, market_terms, fill_terms, market_grid, fill_grid};
ghost use Rattle.kinds.specs.Kinds.{level_kind, move_kind, average_kind, profit_kind, stop_or_profit, market_grid_kind, fill_grid_kind};
ghost use Rattle.kinds.specs.Trails.{rebound, fall_back, LeastIsLeast};

use crate::batch::Batch;
use crate::book_kinds::{Profit, StopOrProfit};
use crate::grid::{Grid, GridMode, GridTerms};
use crate::one_of::OneOf;
use crate::test::average::Average;
use crate::test::held::Held;
use crate::test::level::Level;
use crate::test::move_of_day::{Distance, MoveOfDay};
use crate::test::prompt::Prompt;
use crate::trail::{Trail, TrailOptions, TrailTerms};
use conditions::condition::Condition;
use conditions::event::Side;
use conditions::layer::either::Either;
use conditions::layer::range::{Bounds, Range};
use values::days::AveragingDays;
use values::direction::{Direction, Falling, Rising};
use values::fault::MakingFault;
use values::hold::Hold;
use values::price::Price;
use values::range::PriceRange;
use values::step::Step;

// A price at a level or beyond it. A linked order has the same condition, told of another share than it trades.
pub fn level<D: Direction>(direction: D, price: Price, side: Side) -> Prompt<Level<D>>
    ensures { ⟦<Prompt<Level<D>> as Condition>⟧.meaning result ≡ level_kind D.Direction.order price side }
{
    Prompt::new(Level::new(direction, price), side)
}

// A price that has moved some way in the day.
pub fn move_of_day<D: Direction>(
    direction: D,
    distance: Distance,
    side: Side,
) -> Prompt<MoveOfDay<D>>
    ensures { ⟦<Prompt<MoveOfDay<D>> as Condition>⟧.meaning result ≡ move_kind D.Direction.order D.Direction.target D.Direction.furthest distance side }
{
    Prompt::new(MoveOfDay::new(direction, distance), side)
}

// A price that has stayed at an average or beyond it.
pub fn average<D: Direction>(
    direction: D,
    days: AveragingDays,
    hold: Hold,
    side: Side,
) -> Held<Average<D>>
    ensures { ⟦<Held<Average<D>> as Condition>⟧.meaning result ≡ average_kind D.Direction.order days hold side }
{
    Held::new(Average::new(direction, days), side, hold)
}

// Sells at a target, or with a trail at the fall back from a top beyond it.
fn profit_at(target: Price, trail: Option<Step>) -> Profit
    ensures { ⟦<Profit as Condition>⟧.meaning result ≡ profit_kind target trail }
{
    match trail {
        None => OneOf::First(level(Rising, target, Side::Sell)),
        Some(step) => OneOf::Second(fall_back_sell(
            target,
            step,
            TrailOptions {
                floor: false,
                stay: true,
            },
        )),
    }
}

// Sells at the falling target of a base, or at its rising target; with a trail, at the fall back from a top beyond that.
pub fn stop_or_profit(
    base: Price,
    stop: Step,
    profit: Step,
    trail: Option<Step>,
) -> Result<StopOrProfit, MakingFault>
    ensures { seen ⟦<StopOrProfit as Condition>⟧.meaning result ≡ stop_or_profit base stop profit trail }
{
    let low = Price::new(Falling::target_of(stop, base)).map_err(|_| MakingFault::StopTarget)?;
    let high = Price::new(Rising::target_of(profit, base)).map_err(|_| MakingFault::ProfitTarget)?;
    Ok(Either::new(level(Falling, low, Side::Sell), profit_at(high, trail)))
}

// Buys when the price rises by a step from the least one since it came down to the mark.
pub fn rebound_buy(mark: Price, step: Step, options: TrailOptions) -> Trail<Rising>
    ensures means { ⟦<Trail<Rising> as Condition>⟧.meaning result ≡ rebound mark step options }
    ensures least { LeastIsLeast rising_order }
{
    let terms = TrailTerms {
        side: Side::Buy,
        mark,
        step,
        options,
    };
    Trail::new(Rising, terms)
}

// Sells when the price falls by a step from the greatest one since it came up to the mark.
pub fn fall_back_sell(mark: Price, step: Step, options: TrailOptions) -> Trail<Falling>
    ensures means { ⟦<Trail<Falling> as Condition>⟧.meaning result ≡ fall_back mark step options }
    ensures least { LeastIsLeast falling_order }
{
    let terms = TrailTerms {
        side: Side::Sell,
        mark,
        step,
        options,
    };
    Trail::new(Falling, terms)
}

// Buys step by step as the price falls.
pub fn buy_batch(base: Price, step: Step) -> Batch<Falling>
    ensures means { ⟦<Batch<Falling> as Condition>⟧.meaning result ≡ buy_batch base step }
    ensures latest { FromLatestFire (buy_batch base step) base (batch_answer falling_order falling_target side.Buy step) }
{
    Batch::new(Falling, Side::Buy, step, base)
}

// Sells step by step as the price rises.
pub fn sell_batch(base: Price, step: Step) -> Batch<Rising>
    ensures means { ⟦<Batch<Rising> as Condition>⟧.meaning result ≡ sell_batch base step }
    ensures latest { FromLatestFire (sell_batch base step) base (batch_answer rising_order rising_target side.Sell step) }
{
    Batch::new(Rising, Side::Sell, step, base)
}

// A grid in market mode under its range: a fire outside still passes, as the last one.
pub fn market_grid(range: PriceRange, base: Price, down: Step, up: Step) -> Range<Grid>
    ensures means { ⟦<Range<Grid> as Condition>⟧.meaning result ≡ market_grid_kind range base down up }
    ensures latest { FromLatestFire (market_grid range base down up) base (grid_answer (market_terms range down up)) }
{
    let terms = GridTerms {
        mode: GridMode::Market(range),
        down,
        up,
    };
    let bounds = Bounds {
        range,
        switch: true,
    };
    Range::new(bounds, Grid::new(terms, base))
}

// A grid in fill mode under its range: what fires outside lapses.
pub fn fill_grid(range: PriceRange, base: Price, down: Step, up: Step) -> Range<Grid>
    ensures means { ⟦<Range<Grid> as Condition>⟧.meaning result ≡ fill_grid_kind range base down up }
    ensures latest { FromLatestFill (fill_grid base down up) base (grid_answer (fill_terms down up)) }
{
    let terms = GridTerms {
        mode: GridMode::Fill,
        down,
        up,
    };
    let bounds = Bounds {
        range,
        switch: false,
    };
    Range::new(bounds, Grid::new(terms, base))
}
