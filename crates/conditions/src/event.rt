ghost use Rattle.std.specs.Prelude.{◌≡◌};
ghost use Rattle.conditions.specs.Meaning.{fires_over};

use crate::sums::Sums;
use values::price::Price;

// The last price of a share at a moment, in seconds of the day.
#[derive(Clone, Copy, PartialEq, Eq, Debug)]
pub struct Tick {
    pub moment: u32,
    pub price: Price,
}

// What a share's trading day begins with.
#[derive(Clone, Copy, PartialEq, Eq, Debug)]
pub struct Day {
    pub number: u16,
    // the previous day's close
    pub close: Price,
    // the prices beyond which the share may not trade that day
    pub upper: Price,
    pub lower: Price,
    pub sums: Sums,
}

// What a condition is told.
#[derive(Clone, Copy, PartialEq, Eq, Debug)]
pub enum Event {
    Tick(Tick),
    Day(Day),
    // the price at which the order that fired was filled, or is held to be
    Settlement(Price),
}

#[derive(Clone, Copy, PartialEq, Eq, Debug)]
pub enum Side {
    Buy,
    Sell,
}

// What follows a fire. Of two at once, the one that stands later here follows.
#[derive(Clone, Copy, PartialEq, Eq, PartialOrd, Ord, Debug)]
pub enum Next {
    GoesOn,
    AwaitsSettlement,
    Over,
}

#[derive(Clone, Copy, PartialEq, Eq, Debug)]
pub struct Fire {
    pub side: Side,
    pub trigger: Price,
    pub next: Next,
}

impl Fire {
    // The answer of a condition that is over once it fires, by the trigger price if there is one.
    pub fn over_at(side: Side, trigger: Option<Price>) -> Answer
        ensures { result ≡ fires_over side trigger }
    {
        // by match: with `map_or` each tick takes a quarter more instructions
        match trigger {
            Some(trigger) => Answer::Fires(Fire {
                side,
                trigger,
                next: Next::Over,
            }),
            None => Answer::Wait,
        }
    }
}

// What a condition answers. After a fire that is over, or a lapse, it is told no more.
#[derive(Clone, Copy, PartialEq, Eq, Debug)]
pub enum Answer {
    Wait,
    Fires(Fire),
    Lapses,
}
