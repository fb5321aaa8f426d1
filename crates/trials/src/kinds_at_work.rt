// The kinds on worked prices.
use crate::help::{day_of_43, fires, percent, plain_day, tick};
use conditions::condition::Condition;
use conditions::event::{Answer, Event, Next, Side};
use kinds::grid::{Grid, GridMode, GridTerms};
use kinds::making;
use kinds::trail::{Trail, TrailOptions};
use std::process::Abort;
use std::test::Fail;
use values::days::AveragingDays;
use values::direction::{Falling, Rising};
use values::hold::Hold;
use values::price::Price;
use values::range::PriceRange;

const PLAIN: TrailOptions = TrailOptions {
    floor: false,
    stay: false,
};

const FLOOR: TrailOptions = TrailOptions {
    floor: true,
    stay: false,
};

const STAY: TrailOptions = TrailOptions {
    floor: false,
    stay: true,
};

#[test]
fn rebound_fires_at_the_target_of_the_low(rt: HostRuntime) -> Result<(), Fail> {
    let mut order = making::rebound_buy(Price::new(180_000)?, percent(200)?, PLAIN);
    for price in [
        190_000, 180_000, 170_000, 171_700, 160_000, 160_000, 163_100, 163_100,
    ] {
        assert_eq!(rt; tick(&mut order, 1, price)?, Answer::Wait);
    }
    assert_eq!(rt;
        tick(&mut order, 2, 163_200)?,
        fires(Side::Buy, 163_200, Next::Over)?
    );
    Ok(())
}

#[test]
fn floor_fires_back_at_the_mark(rt: HostRuntime) -> Result<(), Fail> {
    let mut order = making::rebound_buy(Price::new(180_000)?, percent(5_000)?, FLOOR);
    for price in [180_000, 180_000, 181_000, 179_999] {
        assert_eq!(rt; tick(&mut order, 1, price)?, Answer::Wait);
    }
    assert_eq!(rt;
        tick(&mut order, 2, 180_000)?,
        fires(Side::Buy, 180_000, Next::Over)?
    );
    Ok(())
}

// A fall-back with stay, at the top 11.68 of mark 11.3333 and fall 1.6%.
fn at_the_top(rt: &impl Abort) -> Result<Trail<Falling>, Fail> {
    let mut order = making::fall_back_sell(Price::new(113_333)?, percent(160)?, STAY);
    assert_eq!(rt; tick(&mut order, 1, 113_000)?, Answer::Wait);
    assert_eq!(rt; tick(&mut order, 2, 113_333)?, Answer::Wait);
    assert_eq!(rt; tick(&mut order, 3, 116_800)?, Answer::Wait);
    Ok(order)
}

#[test]
fn stay_holds_the_fall_back_above_its_mark(rt: HostRuntime) -> Result<(), Fail> {
    for price in [114_931, 113_333] {
        let mut order = at_the_top(&rt)?;
        assert_eq!(rt;
            tick(&mut order, 4, price)?,
            fires(Side::Sell, 114_931, Next::Over)?
        );
    }
    for price in [115_000, 113_300] {
        let mut order = at_the_top(&rt)?;
        assert_eq!(rt; tick(&mut order, 4, price)?, Answer::Wait);
    }
    Ok(())
}

#[test]
fn market_grid_steps_down_and_lapses_outside(rt: HostRuntime) -> Result<(), Fail> {
    let range = PriceRange::new(Price::new(160_000)?, Price::new(240_000)?)?;
    let mut order = making::market_grid(range, Price::new(200_000)?, percent(800)?, percent(800)?);
    assert_eq!(rt; tick(&mut order, 1, 184_001)?, Answer::Wait);
    assert_eq!(rt;
        tick(&mut order, 2, 184_000)?,
        fires(Side::Buy, 184_000, Next::GoesOn)?
    );
    assert_eq!(rt; tick(&mut order, 2, 184_000)?, Answer::Wait);
    assert_eq!(rt;
        tick(&mut order, 3, 169_200)?,
        fires(Side::Buy, 169_280, Next::GoesOn)?
    );
    assert_eq!(rt; tick(&mut order, 3, 169_200)?, Answer::Wait);
    assert_eq!(rt; tick(&mut order, 4, 155_600)?, Answer::Lapses);
    Ok(())
}

#[test]
fn fill_grid_waits_for_its_settlement(rt: HostRuntime) -> Result<(), Fail> {
    let terms = GridTerms {
        mode: GridMode::Fill,
        down: percent(800)?,
        up: percent(800)?,
    };
    let mut order = Grid::new(terms, Price::new(200_000)?);
    assert_eq!(rt;
        order.tell(Event::Settlement(Price::new(150_000)?)),
        Answer::Wait
    );
    assert_eq!(rt;
        tick(&mut order, 1, 216_000)?,
        fires(Side::Sell, 216_000, Next::AwaitsSettlement)?
    );
    assert_eq!(rt; tick(&mut order, 2, 150_000)?, Answer::Wait);
    assert_eq!(rt;
        order.tell(Event::Settlement(Price::new(215_000)?)),
        Answer::Wait
    );
    assert_eq!(rt; tick(&mut order, 3, 197_801)?, Answer::Wait);
    assert_eq!(rt;
        tick(&mut order, 4, 197_800)?,
        fires(Side::Buy, 197_800, Next::AwaitsSettlement)?
    );
    Ok(())
}

#[test]
fn batch_moves_its_base_to_the_tick(rt: HostRuntime) -> Result<(), Fail> {
    let mut order = making::sell_batch(Price::new(100_000)?, percent(1_000)?);
    assert_eq!(rt; tick(&mut order, 1, 109_999)?, Answer::Wait);
    assert_eq!(rt;
        tick(&mut order, 2, 115_000)?,
        fires(Side::Sell, 110_000, Next::GoesOn)?
    );
    assert_eq!(rt; tick(&mut order, 2, 115_000)?, Answer::Wait);
    assert_eq!(rt;
        tick(&mut order, 3, 126_500)?,
        fires(Side::Sell, 126_500, Next::GoesOn)?
    );
    Ok(())
}

#[test]
fn average_is_held_over_one_day(rt: HostRuntime) -> Result<(), Fail> {
    let mut order = making::average(Rising, AveragingDays::Five, Hold::new(300)?, Side::Buy);
    assert_eq!(rt; tick(&mut order, 0, 999_999)?, Answer::Wait);
    assert_eq!(rt; order.tell(day_of_43(1)?), Answer::Wait);
    for (moment, price) in [
        (500, 107_500),
        (700, 107_400),
        (1_000, 107_500),
        (1_299, 108_000),
        (1_299, 108_000),
    ] {
        assert_eq!(rt; tick(&mut order, moment, price)?, Answer::Wait);
    }
    let mut anew = order;
    assert_eq!(rt;
        tick(&mut order, 1_300, 108_000)?,
        fires(Side::Buy, 107_600, Next::Over)?
    );
    assert_eq!(rt; anew.tell(day_of_43(2)?), Answer::Wait);
    assert_eq!(rt; tick(&mut anew, 1_300, 108_000)?, Answer::Wait);
    assert_eq!(rt; anew.tell(plain_day(3, 100_000)?), Answer::Wait);
    assert_eq!(rt; tick(&mut anew, 2_000, 108_000)?, Answer::Wait);
    assert_eq!(rt; tick(&mut anew, 9_000, 108_000)?, Answer::Wait);
    Ok(())
}
