// Orders as a line writes them, made into conditions. Values are made from left to right, and so is the first fault found;
// then the kind makes its own checks, and last the range above it.
use crate::kind::{
    AverageLine, BatchLine, DistanceLine, ExitLine, GridLine, GridModeLine, KindLine, LevelLine,
    MoveLine, TurnLine, Way,
};
use crate::line::{PlaceLine, RangeLine};
use crate::words::StepLine;
use conditions::event::Side;
use conditions::layer::pile::{Bounds, Pile, pile};
use conditions::layer::range::Range;
use kinds::book_kinds::{
    EitherAverage, EitherBatch, EitherLevel, EitherMove, Repeating, SingleShot, StopOrProfit,
};
use kinds::grid::Grid;
use kinds::making;
use kinds::one_of::OneOf;
use kinds::test::move_of_day::Distance;
use kinds::trail::TrailOptions;
use values::days::AveragingDays;
use values::direction::{Falling, Rising};
use values::fault::MakingFault;
use values::hold::Hold;
use values::price::Price;
use values::range::PriceRange;
use values::step::{Difference, Percentage, Step};

// What is made, by the book that holds such orders. No OneOf: the books have names.
#[derive(Clone, Copy)]
pub(crate) enum Made<S, R> {
    Single(S),
    Repeating(R),
}

// What the house's two books hold.
pub(crate) type MadePile = Made<Pile<SingleShot>, Pile<Repeating>>;

fn step_of(line: StepLine) -> Result<Step, MakingFault> {
    match line {
        StepLine::Percent(r) => Percentage::new(r).map(Step::Percent),
        StepLine::Difference(d) => Difference::new(d).map(Step::Difference),
    }
}

// The two ways are two types, so each kind that may go either way is made in a match of its own: no one function could be handed both.
fn level_of(line: LevelLine) -> Result<EitherLevel, MakingFault> {
    let price = Price::new(line.price)?;
    Ok(match line.way {
        Way::Up => OneOf::First(making::level(Rising, price, line.side)),
        Way::Down => OneOf::Second(making::level(Falling, price, line.side)),
    })
}

fn distance_of(line: DistanceLine) -> Result<Distance, MakingFault> {
    match line {
        DistanceLine::Percent(percent) => Percentage::new(percent).map(Distance::Percent),
        DistanceLine::Limit => Ok(Distance::Limit),
    }
}

fn move_of(line: MoveLine) -> Result<EitherMove, MakingFault> {
    let distance = distance_of(line.distance)?;
    Ok(match line.way {
        Way::Up => OneOf::First(making::move_of_day(Rising, distance, line.side)),
        Way::Down => OneOf::Second(making::move_of_day(Falling, distance, line.side)),
    })
}

fn average_of(line: AverageLine) -> Result<EitherAverage, MakingFault> {
    let days = AveragingDays::new(line.days)?;
    let hold = Hold::new(line.hold)?;
    Ok(match line.way {
        Way::Up => OneOf::First(making::average(Rising, days, hold, line.side)),
        Way::Down => OneOf::Second(making::average(Falling, days, hold, line.side)),
    })
}

// A turn made by the maker of its kind.
fn turn_of<T, F: FnOnce(Price, Step, TrailOptions) -> T>(
    line: TurnLine,
    make: F,
) -> Result<T, MakingFault>
    requires { F.IsAlwaysCallable make }
{
    let mark = Price::new(line.mark)?;
    let step = step_of(line.step)?;
    Ok(make(mark, step, line.options))
}

fn exit_of(line: ExitLine) -> Result<StopOrProfit, MakingFault> {
    let base = Price::new(line.base)?;
    let stop = step_of(line.stop)?;
    let profit = step_of(line.profit)?;
    let trail = line.trail.map(step_of).transpose()?;
    making::stop_or_profit(base, stop, profit, trail)
}

fn batch_of(line: BatchLine) -> Result<EitherBatch, MakingFault> {
    let base = Price::new(line.base)?;
    let step = step_of(line.step)?;
    Ok(match line.side {
        Side::Buy => OneOf::First(making::buy_batch(base, step)),
        Side::Sell => OneOf::Second(making::sell_batch(base, step)),
    })
}

fn grid_of(line: GridLine) -> Result<Range<Grid>, MakingFault> {
    let low = Price::new(line.low)?;
    let high = Price::new(line.high)?;
    let base = Price::new(line.base)?;
    let down = step_of(line.down)?;
    let up = step_of(line.up)?;
    let range = PriceRange::new(low, high)?;
    Ok(match line.mode {
        GridModeLine::Market => making::market_grid(range, base, down, up),
        GridModeLine::Fill => making::fill_grid(range, base, down, up),
    })
}

fn kind_of(line: KindLine) -> Result<Made<SingleShot, Repeating>, MakingFault> {
    Ok(match line {
        KindLine::Level(level) | KindLine::Linked(level) => Made::Single(SingleShot::LevelOrMove(
            OneOf::First(level_of(level)?),
        )),
        KindLine::Move(day_move) => Made::Single(SingleShot::LevelOrMove(OneOf::Second(move_of(
            day_move,
        )?))),
        KindLine::Average(average) => Made::Single(SingleShot::Average(average_of(average)?)),
        KindLine::Rebound(turn) => Made::Single(SingleShot::Trail(OneOf::First(turn_of(
            turn,
            making::rebound_buy,
        )?))),
        KindLine::FallBack(turn) => Made::Single(SingleShot::Trail(OneOf::Second(turn_of(
            turn,
            making::fall_back_sell,
        )?))),
        KindLine::Exit(exit) => Made::Single(SingleShot::StopOrProfit(exit_of(exit)?)),
        KindLine::Batch(batch) => Made::Repeating(Repeating::Batch(batch_of(batch)?)),
        KindLine::Grid(grid) => Made::Repeating(Repeating::Grid(grid_of(grid)?)),
    })
}

// The prices of a range, before they are put in order. Not a `RangeLine`: its numbers are prices already.
#[derive(Clone, Copy)]
struct Ends {
    low: Price,
    high: Price,
    switch: bool,
}

fn ends_of(range: RangeLine) -> Result<Ends, MakingFault> {
    Ok(Ends {
        low: Price::new(range.low)?,
        high: Price::new(range.high)?,
        switch: range.switch,
    })
}

fn bounds_of(ends: Ends) -> Result<Bounds, MakingFault> {
    Ok(Bounds {
        range: PriceRange::new(ends.low, ends.high)?,
        switch: ends.switch,
    })
}

// The condition of a line.
pub(crate) fn condition_of(line: &PlaceLine) -> Result<MadePile, MakingFault> {
    let ends = line.range.map(ends_of).transpose()?;
    let kind = kind_of(line.kind)?;
    let bounds = ends.map(bounds_of).transpose()?;
    Ok(match kind {
        Made::Single(c) => Made::Single(pile(line.until, bounds, c)),
        Made::Repeating(c) => Made::Repeating(pile(line.until, bounds, c)),
    })
}

// What stands in a row of the single-shot orders' book before an order does.
pub(crate) fn vacant_single() -> Pile<SingleShot> {
    let price = PriceRange::whole().low();
    let level = making::level(Rising, price, Side::Buy);
    pile(
        None,
        None,
        SingleShot::LevelOrMove(OneOf::First(OneOf::First(level))),
    )
}

// What stands in a row of the grids' and batches' book before an order does.
pub(crate) fn vacant_repeating() -> Pile<Repeating> {
    let price = PriceRange::whole().low();
    let step = Step::Difference(Difference::new(1).unwrap());
    let batch = making::buy_batch(price, step);
    pile(None, None, Repeating::Batch(OneOf::First(batch)))
}
