// What the tests share: values made from numbers, and ticks told by numbers.
use conditions::condition::Condition;
use conditions::event::{Answer, Day, Event, Fire, Next, Side, Tick};
use conditions::sums::Sums;
use values::fault::MakingFault;
use values::price::Price;
use values::step::{Percentage, Step};

pub(crate) fn percent(hundredths: u32) -> Result<Step, MakingFault> {
    Ok(Step::Percent(Percentage::new(hundredths)?))
}

// Tells a tick at a price in ten-thousandths of a yuan.
pub(crate) fn tick<C: Condition>(
    c: &mut C,
    moment: u32,
    price: u32,
) -> Result<Answer, MakingFault> {
    Ok(c.tell(Event::Tick(Tick {
        moment,
        price: Price::new(price)?,
    })))
}

pub(crate) fn fires(side: Side, trigger: u32, next: Next) -> Result<Answer, MakingFault> {
    Ok(Answer::Fires(Fire {
        side,
        trigger: Price::new(trigger)?,
        next,
    }))
}

fn day(number: u16, close: Price, closes: &[Price]) -> Result<Event, MakingFault> {
    let upper = Price::new(120_000)?;
    let lower = Price::new(80_000)?;
    Ok(Event::Day(Day {
        number,
        close,
        upper,
        lower,
        sums: Sums::of(closes),
    }))
}

// A day with a previous close and no other closes known.
pub(crate) fn plain_day(number: u16, close: u32) -> Result<Event, MakingFault> {
    day(number, Price::new(close)?, &[])
}

// A day whose newest four closes sum to 43.00.
pub(crate) fn day_of_43(number: u16) -> Result<Event, MakingFault> {
    let close = Price::new(115_000)?;
    let closes = [
        Price::new(100_000)?,
        Price::new(105_000)?,
        Price::new(110_000)?,
        close,
    ];
    day(number, close, &closes)
}
