// The kinds of orders as a line writes them.
use crate::line::BookName;
use crate::unreadable::{Unreadable, WordFault};
use crate::words::{StepLine, Words, read_number, read_percent, read_price, read_step};
use conditions::event::Side;
use kinds::order_kind::OrderKind;
use kinds::trail::TrailOptions;

// The way that the price is to go.
#[derive(Clone, Copy)]
pub(crate) enum Way {
    Up,
    Down,
}

// A level to reach.
#[derive(Clone, Copy)]
pub(crate) struct LevelLine {
    pub(crate) way: Way,
    pub(crate) price: u32,
    pub(crate) side: Side,
}

// How far the price is to move in a day. No Option: both ways have names.
#[derive(Clone, Copy)]
pub(crate) enum DistanceLine {
    Percent(u32),
    Limit,
}

#[derive(Clone, Copy)]
pub(crate) struct MoveLine {
    pub(crate) way: Way,
    pub(crate) distance: DistanceLine,
    pub(crate) side: Side,
}

#[derive(Clone, Copy)]
pub(crate) struct AverageLine {
    pub(crate) way: Way,
    pub(crate) days: u32,
    pub(crate) hold: u32,
    pub(crate) side: Side,
}

// A price to reach, and the way back from the best one since that makes the order.
#[derive(Clone, Copy)]
pub(crate) struct TurnLine {
    pub(crate) mark: u32,
    pub(crate) step: StepLine,
    pub(crate) options: TrailOptions,
}

#[derive(Clone, Copy)]
pub(crate) struct ExitLine {
    pub(crate) base: u32,
    pub(crate) stop: StepLine,
    pub(crate) profit: StepLine,
    pub(crate) trail: Option<StepLine>,
}

#[derive(Clone, Copy)]
pub(crate) struct BatchLine {
    pub(crate) side: Side,
    pub(crate) base: u32,
    pub(crate) step: StepLine,
}

// Whether a grid's base follows the market or its fills.
#[derive(Clone, Copy)]
pub(crate) enum GridModeLine {
    Market,
    Fill,
}

#[derive(Clone, Copy)]
pub(crate) struct GridLine {
    pub(crate) low: u32,
    pub(crate) high: u32,
    pub(crate) base: u32,
    pub(crate) down: StepLine,
    pub(crate) up: StepLine,
    pub(crate) mode: GridModeLine,
}

#[derive(Clone, Copy)]
pub(crate) enum KindLine {
    Level(LevelLine),
    Linked(LevelLine),
    Move(MoveLine),
    Average(AverageLine),
    Rebound(TurnLine),
    FallBack(TurnLine),
    Exit(ExitLine),
    Batch(BatchLine),
    Grid(GridLine),
}

impl KindLine {
    pub(crate) fn order_kind(&self) -> OrderKind {
        match self {
            KindLine::Level(_) => OrderKind::Level,
            KindLine::Linked(_) => OrderKind::Linked,
            KindLine::Move(_) => OrderKind::DayMove,
            KindLine::Average(_) => OrderKind::Average,
            KindLine::Rebound(_) => OrderKind::Rebound,
            KindLine::FallBack(_) => OrderKind::FallBack,
            KindLine::Exit(_) => OrderKind::StopOrProfit,
            KindLine::Batch(_) => OrderKind::Batch,
            KindLine::Grid(_) => OrderKind::Grid,
        }
    }

    // The book that holds orders of this kind.
    pub(crate) fn book(&self) -> BookName {
        match self {
            KindLine::Batch(_) | KindLine::Grid(_) => BookName::Grid,
            _ => BookName::Single,
        }
    }
}

fn read_way(words: &mut Words) -> Result<Way, Unreadable> {
    words.either("way", ("up", Way::Up), ("down", Way::Down))
}

fn read_side(words: &mut Words) -> Result<Side, Unreadable> {
    words.either("side", ("buy", Side::Buy), ("sell", Side::Sell))
}

fn read_level(words: &mut Words) -> Result<LevelLine, Unreadable> {
    Ok(LevelLine {
        way: read_way(words)?,
        price: words.field("price", read_price)?,
        side: read_side(words)?,
    })
}

fn read_distance(words: &mut Words) -> Result<DistanceLine, Unreadable> {
    if words.takes("limit") {
        return Ok(DistanceLine::Limit);
    }
    words
        .field("percent", read_percent)
        .map(DistanceLine::Percent)
}

fn read_move(words: &mut Words) -> Result<MoveLine, Unreadable> {
    Ok(MoveLine {
        way: read_way(words)?,
        distance: read_distance(words)?,
        side: read_side(words)?,
    })
}

fn read_average(words: &mut Words) -> Result<AverageLine, Unreadable> {
    Ok(AverageLine {
        way: read_way(words)?,
        days: words.field("days", read_number)?,
        hold: words.field("hold", read_number)?,
        side: read_side(words)?,
    })
}

fn read_turn(words: &mut Words) -> Result<TurnLine, Unreadable> {
    Ok(TurnLine {
        mark: words.field("mark", read_price)?,
        step: words.field("step", read_step)?,
        options: TrailOptions {
            floor: words.takes("floor"),
            stay: words.takes("stay"),
        },
    })
}

fn read_exit(words: &mut Words) -> Result<ExitLine, Unreadable> {
    Ok(ExitLine {
        base: words.field("base", read_price)?,
        stop: words.field("stop", read_step)?,
        profit: words.field("profit", read_step)?,
        trail: words
            .takes("trail")
            .then(|| words.field("trail", read_step))
            .transpose()?,
    })
}

fn read_batch(words: &mut Words) -> Result<BatchLine, Unreadable> {
    Ok(BatchLine {
        side: read_side(words)?,
        base: words.field("base", read_price)?,
        step: words.field("step", read_step)?,
    })
}

fn read_grid(words: &mut Words) -> Result<GridLine, Unreadable> {
    Ok(GridLine {
        low: words.field("low", read_price)?,
        high: words.field("high", read_price)?,
        base: words.field("base", read_price)?,
        down: words.field("down", read_step)?,
        up: words.field("up", read_step)?,
        mode: words.either(
            "grid",
            ("market", GridModeLine::Market),
            ("fill", GridModeLine::Fill),
        )?,
    })
}

pub(crate) fn read_kind(words: &mut Words) -> Result<KindLine, Unreadable> {
    match words.word()? {
        "level" => read_level(words).map(KindLine::Level),
        "linked" => read_level(words).map(KindLine::Linked),
        "move" => read_move(words).map(KindLine::Move),
        "average" => read_average(words).map(KindLine::Average),
        "rebound" => read_turn(words).map(KindLine::Rebound),
        "fallback" => read_turn(words).map(KindLine::FallBack),
        "exit" => read_exit(words).map(KindLine::Exit),
        "batch" => read_batch(words).map(KindLine::Batch),
        "grid" => read_grid(words).map(KindLine::Grid),
        _ => Err(Unreadable::Field("kind", WordFault::NotKind)),
    }
}
